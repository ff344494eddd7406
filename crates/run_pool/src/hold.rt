use std::sync::Wait;

/// What may keep a worker before it checks a file.
pub trait Hold {
    /// Is called once for each file's number that a worker draws, before it checks that file. It may wait.
    fn before<R: Wait>(&self, rt: &R, number: u64);
}

/// The hold that does nothing.
#[derive(Drop)]
pub struct Open;

impl Hold for Open {
    fn before<R: Wait>(&self, _rt: &R, _number: u64) {}
}
