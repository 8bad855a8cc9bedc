//! A script's objects and variables, and what becomes of them when its commands and blocks run.
#![tactic(auto)]

mod assigning;
mod blocks;
mod bound;
mod calling;
mod giving;
mod guarding;
mod held;
mod lending;
mod listing;
mod loops;
mod map;
mod new_objects;
mod numbered_queue;
mod object;
mod objects;
mod peaks;
mod ranking;
mod reading;
mod scopes;
mod sequence;
mod set;
mod updates;
mod viewing;
mod views;
mod visiting;
mod walking;

pub use ac_calls::{
    Argument, Arguments, Frame, ListedRows, OperatedRows, Placed, Reply, RowObject, Said,
    ScriptElement,
};
pub use blocks::{DeclareFault, LoopKey, OpenUpdate, OpenView, ViewHead, ViewKey};
pub use bound::Bound;
pub use map::{HashedMaps, Map, OrderedMaps};
pub use numbered_queue::NumberedQueue;
pub use object::Object;
pub use objects::Objects;
pub use sequence::Sequence;
pub use set::{HashedSets, KeyedSet, OrderedSets, Set};
