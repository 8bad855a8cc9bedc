//! Copies of an element that are put into a vector.
ghost use Rattle.std.specs.Prelude.{◌≡◌, ◌∷◌, None, pos, true};
ghost use Rattle.ac_base.specs.FirstReason.{first_reason};
ghost use Rattle.ac_model.specs.Calls.{Same};
ghost use Rattle.ac_model.specs.Containers.{Grows};
ghost use Rattle.ac_model.specs.Forms.{Does, Sets, seen_by};
ghost use Rattle.ac_model.specs.Letters.{tampers_cursors};
ghost use Rattle.ac_model.specs.Objects.{plain};
ghost use Rattle.ac_model.specs.Sequences as sequences;
ghost use Rattle.ac_model.specs.Sequences.{room_for_copies};

use super::Vector;
use ac_base::{Elem, Fault, GREATEST_LENGTH};
use ac_chain::Walked;
use ac_chain::calls::{self, Puts, done};
use ac_cursor::{Class, Cursor};
use ac_model::too_many;

impl<T: Elem> Vector<T> {
    /// Append (A.18.2): so many copies at the end.
    pub fn append(&mut self, e: T, n: i64) -> Result<(), Fault>
        ensures changed { Does Same (λ o. sequences.append_call o e n) self.old self.new result }
        ensures slots { Grows result self.old self.new }
    {
        if n == 1 && self.takes_one() {
            return done(self.put(None, e, 1));
        }
        calls::append(self, e, n)
    }

    /// Whether one element more is refused for no reason.
    #[inline(always)]
    fn takes_one(&self) -> bool
        ensures { result ≡ true →
            first_reason (tampers_cursors (plain self.now.object) ∷ room_for_copies (plain self.now.object) (pos 1)) ≡ None }
    {
        if self.guards.forbids(Class::Cursors).is_some() {
            return false;
        }
        let length = self.rows.len() + 1;
        length <= GREATEST_LENGTH
            && too_many(self.limit, length).is_none()
            && self.rows.next_serial() < u64::MAX
    }

    /// Prepend (A.18.2): so many copies at the front.
    pub fn prepend(&mut self, e: T, n: i64) -> Result<(), Fault>
        ensures changed { Does Same (λ o. sequences.prepend_call o e n) self.old self.new result }
        ensures slots { Grows result self.old self.new }
    {
        calls::prepend(self, e, n)
    }

    /// Insert (A.18.2): so many copies before the cursor, where No_Element is the end.
    pub fn insert(&mut self, b: Cursor, e: T, n: i64) -> Result<(), Fault>
        ensures changed { Does Same (λ o. sequences.insert_call o (seen_by self.old b) e n) self.old self.new result }
        ensures slots { Grows result self.old self.new }
    {
        calls::insert(self, b, e, n)
    }

    /// Insert with a position (A.18.2): the same, and the variable is set to the first copy, or to the cursor where there is none.
    pub fn insert_pos(&mut self, b: Cursor, e: T, p: &mut Cursor, n: i64) -> Result<(), Fault>
        ensures changed { Sets (λ o. sequences.insert_pos_call o (seen_by self.old b) e n) self.old p.old self.new p.new result }
        ensures slots { Grows result self.old self.new }
    {
        calls::insert_pos(self, b, e, p, n)
    }
}
