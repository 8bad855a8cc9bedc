//! Synchronized queues (A.18.27 to A.18.31) as one task sees them: no call waits, it answers that it would.
#![tactic(auto)]

mod answers;
mod any_queue;
mod line;
mod priority;
mod priority_queue;
mod queue;

pub use answers::{Dequeued, Enqueued};
pub use any_queue::AnyQueue;
pub use priority_queue::PriorityQueue;
pub use queue::Queue;

#[cfg(test)]
mod tests;
