/// Looks on before each round of a worker of a task block.
pub trait Gate {
    /// Workers have numbers from 1, in the order of the tasks.
    fn before(&self, worker: u64);
}

/// A gate that lets every worker go on at once.
#[derive(Clone, Copy, Default)]
pub struct FreeGate;

impl Gate for FreeGate {
    fn before(&self, _worker: u64) {}
}
