//! A hook where the opens of a storm can be delayed.

/// Called before and after each open, in the thread that makes it. Workers are numbered from 0, and the opens of each from 1.
pub trait Gate {
    fn before(&self, worker: u32, call: u64);

    fn after(&self, worker: u32, call: u64);
}

/// A gate that does nothing.
#[derive(Clone, Copy, Debug)]
pub struct Open;

impl Gate for Open {
    fn before(&self, _worker: u32, _call: u64) {}

    fn after(&self, _worker: u32, _call: u64) {}
}
