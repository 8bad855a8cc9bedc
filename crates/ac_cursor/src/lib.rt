//! The numbers of objects, and the guards that are held on an object. Cursors, the kinds of guards and what
//! they forbid are passed on from `ac_base`.
#![tactic(auto)]

pub mod examples;
mod guards;
mod mint;

pub use ac_base::{Class, Cursor, GuardKind, first_reason};
pub use guards::{GuardKey, Guarded, Guards};
pub use mint::{Tag, TagMint};

#[cfg(test)]
mod tests;
