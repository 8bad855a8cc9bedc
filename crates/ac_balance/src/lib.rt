//! An ordered index: rows in the ascending order of their keys, each under a name, as a balanced tree in the slots of a pool.
#![tactic(auto)]

mod change;
mod detaching;
mod entry;
mod index;
mod keyed;
mod law;
mod links;
mod places;
mod probe;
mod rotation;
mod search;
mod walk;

pub use change::Change;
pub use entry::Entry;
pub use index::{OrderIndex, Present};
pub use keyed::Keyed;
pub use law::steps_of_searches;
#[doc(hidden)]
pub use links::{Links, Node};
#[doc(hidden)]
pub use places::Place;
#[doc(hidden)]
pub use search::Spot;
