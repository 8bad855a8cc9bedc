//! A list or a vector as an object of a script. A contract sees the list or vector that it is.
ghost use Rattle.std.specs.Prelude.{◌≡◌};

mod capacities;
mod common_rows;
mod row_object;

use ac_cursor::{GuardKey, GuardKind, Guarded};

/// A list (A.18.3) or a vector (A.18.2) of a script.
#[derive(Drop)]
pub struct SequenceRows<S> {
    pub(crate) sequence: S,
}

impl<S> SequenceRows<S> {
    pub fn new(sequence: S) -> SequenceRows<S>
        ensures { result.sequence ≡ sequence }
    {
        SequenceRows { sequence }
    }

    /// The list or vector that it is.
    pub fn sequence(&self) -> &S
        ensures { result.now ≡ self.now.sequence }
    {
        &self.sequence
    }
}

impl<S: Guarded> Guarded for SequenceRows<S> {
    ghost is_set = { λ rows. S.is_set rows.sequence };

    ghost guards = { λ rows. S.guards rows.sequence };

    ghost with_guards = { λ rows counts. record rows { sequence = S.with_guards rows.sequence counts } };

    ghost guards_given = { λ rows counts. S.guards_given rows.sequence counts };

    ghost guards_own = { λ rows i. record rows { sequence = S.guards_own rows.sequence i } };

    ghost rest_kept = { λ rows counts others i. record rows { sequence = S.rest_kept rows.sequence counts others i } };

    ghost set_kept = { λ rows counts. S.set_kept rows.sequence counts };

    fn hold(&mut self, kind: GuardKind) -> GuardKey {
        self.sequence.hold(kind)
    }

    fn release(&mut self, key: GuardKey) {
        self.sequence.release(key);
    }

    fn held(&self, kind: GuardKind) -> u64 {
        self.sequence.held(kind)
    }
}
