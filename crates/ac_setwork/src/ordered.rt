//! What ordered maps and sets need of their rows.
ghost use Rattle.std.specs.Prelude.{◌≡◌, Bool, not, length};
ghost use Rattle.ac_setwork.specs.Indexed.{found};
ghost use Rattle.ac_setwork.specs.Ends.{last_found};

use crate::searched::Searched;
use ac_base::{Name, Steps};
use std::sync::ledger::Ledger;

/// An index whose rows ascend by their keys.
pub trait Ordered: Searched {
    /// The row's key is less than the key.
    ghost is_below: { Self.Key → Self.Row → Bool };

    /// The row's key is greater than the key.
    ghost is_above: { Self.Key → Self.Row → Bool };

    /// The name of the last row whose key isn't greater.
    fn floor<L: Ledger>(&self, key: &Self::Key, steps: &mut Steps<L>) -> Option<Name>
        ensures name { result ≡ last_found (λ v. not (is_above key.now v)) (Self.seen self.now) }
        ensures few { Self.few (length (Self.seen self.now).rows) steps.old steps.new };

    /// The name of the first row whose key isn't less.
    fn ceiling<L: Ledger>(&self, key: &Self::Key, steps: &mut Steps<L>) -> Option<Name>
        ensures name { result ≡ found (λ v. not (is_below key.now v)) (Self.seen self.now) }
        ensures few { Self.few (length (Self.seen self.now).rows) steps.old steps.new };
}
