//! Gates, which hear of each piece before a worker works on it.

/// What a worker calls once for each piece that it claims, after the claim and before the piece's
/// work. A gate may hold the worker, as a test does that wants two workers to meet; the worker
/// holds no lock meanwhile. Where the calling thread does a piece itself, it calls the gate first
/// too, with the number of workers as `worker`.
pub trait Gate {
    /// The pass is 1 or 2; workers and pieces are numbered from 0.
    fn before(&self, pass: u64, worker: u64, piece: u64);
}

/// A gate that returns at once.
#[derive(Clone, Copy, Debug, Default, PartialEq, Eq)]
pub struct OpenGate;

impl Gate for OpenGate {
    fn before(&self, _pass: u64, _worker: u64, _piece: u64) {}
}
