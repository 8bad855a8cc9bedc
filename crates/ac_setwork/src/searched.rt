//! What ordered maps and sets need of their rows besides.
ghost use Rattle.std.specs.Prelude.{◌≡◌, ℕ, length};
ghost use Rattle.ac_setwork.specs.Indexed.{found};

use crate::index::Index;
use ac_base::{Name, Steps};
use std::sync::ledger::Ledger;

/// An index whose look-ups are counted.
pub trait Searched: Index {
    /// Among so many rows, a search that began at a number of steps and ended at another took few.
    ghost few: { ℕ → ℕ → ℕ → Type 0 };

    /// As `look`.
    fn seek<L: Ledger>(&self, key: &Self::Key, steps: &mut Steps<L>) -> Option<Name>
        ensures name { result ≡ found (Self.matches key.now) (Self.seen self.now) }
        ensures few { few (length (Self.seen self.now).rows) steps.old steps.new };
}
