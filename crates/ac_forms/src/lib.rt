//! Holders (A.18.18 and A.18.32), which have one element or none, and the stabilised view of any container (A.18.2 and its kin).
#![tactic(auto)]

pub mod examples;
mod holder;
mod stable;

pub use holder::Holder;
pub use stable::Stable;
