use run_watch::Inp;
use std::collections::LinkedList;

/// What one look into the inbox found. No value of it is made.
pub enum Heard {
    /// The first input, which left the queue.
    Took(Inp),
    /// No input.
    Empty,
}

/// What a pass of the inbox knows. No value of it is made.
pub struct Mail {
    /// Whether it is the pass that puts.
    pub puts: bool,
    /// Whether it is the pass that takes.
    pub takes: bool,
    /// The inputs that were put, in order, where it is the pass that puts.
    pub sent: LinkedList<Inp>,
    /// What was heard, in order, where it is the pass that takes.
    pub heard: LinkedList<Heard>,
}
