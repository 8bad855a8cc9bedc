//! Lists to code that is written for any type of them: the calls in which elements move with their names.
ghost use Rattle.std.specs.Prelude.{◌≡◌, true};
ghost use Rattle.ac_model.specs.Calls.{Same};
ghost use Rattle.ac_model.specs.Containers.{Grows, slots_of};
ghost use Rattle.ac_model.specs.Forms.{Does, DoesBoth, Sets, SetsBoth, seen_by};
ghost use Rattle.ac_model.specs.Lists as lists;

use crate::sequence_like::SequenceLike;
use ac_base::{Cursor, Fault};

/// A list, with the calls of lists alone.
pub trait ListLike: SequenceLike {
    fn swap_links(&mut self, first: Cursor, second: Cursor) -> Result<(), Fault>
        ensures changed { Does Same
            (λ o. lists.swap_links_call o (seen_by (Self.seen self.old) first) (seen_by (Self.seen self.old) second))
            (Self.seen self.old) (Self.seen self.new) result }
        ensures spare { (Self.seen self.new).spare ≡ (Self.seen self.old).spare };

    fn splice_within(&mut self, before: Cursor, c: Cursor) -> Result<(), Fault>
        ensures changed { Does Same
            (λ o. lists.splice_within_call o (seen_by (Self.seen self.old) before) (seen_by (Self.seen self.old) c))
            (Self.seen self.old) (Self.seen self.new) result }
        ensures spare { (Self.seen self.new).spare ≡ (Self.seen self.old).spare };

    fn splice_self(&mut self, before: Cursor) -> Result<(), Fault>
        ensures changed { Does Same (λ o. lists.splice_self_call o (seen_by (Self.seen self.old) before))
            (Self.seen self.old) (Self.seen self.new) result }
        ensures same { self.new ≡ self.old };

    fn splice_one_self(&mut self, before: Cursor, q: &mut Cursor) -> Result<(), Fault>
        ensures changed { Sets
            (λ o. lists.splice_one_self_call o (seen_by (Self.seen self.old) before) (seen_by (Self.seen self.old) q.old))
            (Self.seen self.old) q.old (Self.seen self.new) q.new result }
        ensures spare { (Self.seen self.new).spare ≡ (Self.seen self.old).spare };

    fn splice(&mut self, before: Cursor, source: &mut Self) -> Result<(), Fault>
        ensures changed { DoesBoth Same (λ o s. lists.splice_call o (seen_by (Self.seen self.old) before) s)
            (Self.seen self.old) (Self.seen source.old) (Self.seen self.new) (Self.seen source.new) result }
        ensures slots { Grows result (Self.seen self.old) (Self.seen self.new) }
        ensures source { slots_of (Self.seen source.new) ≡ slots_of (Self.seen source.old) };

    fn splice_one(&mut self, before: Cursor, source: &mut Self, q: &mut Cursor) -> Result<(), Fault>
        ensures changed { SetsBoth
            (λ o s. lists.splice_one_call o (seen_by (Self.seen self.old) before) s (seen_by (Self.seen source.old) q.old))
            (Self.seen self.old) (Self.seen source.old) q.old (Self.seen self.new) (Self.seen source.new) q.new result }
        ensures slots { Grows result (Self.seen self.old) (Self.seen self.new) }
        ensures source { slots_of (Self.seen source.new) ≡ slots_of (Self.seen source.old) };

    ghost moves_names: { Self.SequenceLike.names_move ≡ true };
}
