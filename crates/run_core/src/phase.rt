/// Where a session is in its life.
#[derive(Clone, Copy, Debug, PartialEq, Eq)]
pub enum Phase {
    /// `initialize` isn't accepted yet.
    Waiting,
    /// `initialize` is accepted, and `shutdown` isn't yet.
    Serving,
    /// `shutdown` is accepted.
    Closing,
}
