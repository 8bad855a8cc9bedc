//! Hashed maps and sets (A.18.4, A.18.5, A.18.7, A.18.8): rows in order of arrival, found by the hashes of their keys.
#![tactic(auto)]

mod alike;
mod arrivals;
mod find;
mod map;
mod set;

pub use arrivals::Arrivals;
pub use map::HashedMap;
pub use set::HashedSet;
