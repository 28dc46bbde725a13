//! The gate of a run, and the gate that holds nobody.

/// What calls pass, each one of a worker or of a stream. These count from 0, and the calls of one
/// of them from 1. Whether the two calls return is for their implementation: one that may wait is
/// an implementation for runtimes that may.
pub trait Gate<R> {
    /// This call of this worker is about to begin.
    fn arrive(&self, rt: &R, worker: u32, call: u64);

    /// This call of this worker has ended.
    fn leave(&self, rt: &R, worker: u32, call: u64);
}

/// A gate that returns at once. It serves every runtime, also one that may not wait.
#[derive(Drop)]
pub struct OpenGate;

impl<R> Gate<R> for OpenGate {
    fn arrive(&self, _rt: &R, _worker: u32, _call: u64) {}

    fn leave(&self, _rt: &R, _worker: u32, _call: u64) {}
}
