//! Where a worker passes before each visit of a simulator.

/// Is called before each turn, by all workers that share it, and may hold a worker for as long as it
/// needs to let others come further. No promise speaks of its calls, nor of whether they return.
pub trait Gate {
    /// Worker `worker`, counted from 0, reaches its visit `visit`, counted from 0.
    fn pass(&self, worker: u8, visit: u64);
}

/// A gate that stops no worker.
#[derive(Clone, Copy, Debug)]
pub struct FreeGate;

impl Gate for FreeGate {
    fn pass(&self, _worker: u8, _visit: u64) {}
}
