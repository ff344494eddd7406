/// Why the coordinator of a session stops before its input ends.
pub enum ServeEnd {
    /// A write failed.
    WriteFault,
    /// Memory ran out.
    NoMemory,
}
