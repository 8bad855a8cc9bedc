//! Task blocks in threads: a worker a task, round one lock over the block. What the workers leave is a legal history, and what
//! they leave undone is done behind them.
#![tactic(auto)]

mod block;
mod gate;
mod round;

pub use block::run_block;
pub use gate::{FreeGate, Gate};

#[cfg(test)]
mod tests;
