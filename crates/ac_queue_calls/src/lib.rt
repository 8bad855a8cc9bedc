//! The calls of queues in scripts, their listings, and their items as plain rows.
#![tactic(auto)]

mod queue_calls;
mod queue_copies;
mod queue_listing;

pub use queue_calls::operate_queue;
pub use queue_copies::plain_items;
pub use queue_listing::write_queue;
