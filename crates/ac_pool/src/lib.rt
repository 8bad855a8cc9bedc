//! A pool of values under names: slots in chunks that never move, used again under fresh serials.
#![tactic(auto)]

mod block;
mod chunk;
mod growth;
mod link;
mod pool;
mod run;
mod slots;

#[doc(hidden)]
pub use block::Block;
#[doc(hidden)]
pub use chunk::Chunk;
pub use link::{NO_SLOT, link_to};
pub use pool::{Pool, PutFault};
pub use run::Run;
#[doc(hidden)]
pub use slots::Slots;
