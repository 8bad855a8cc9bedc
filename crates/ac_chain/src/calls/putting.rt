//! Copies of an element that are put before a place.
ghost use Rattle.std.specs.Prelude.{◌≡◌, None};
ghost use Rattle.std.specs.Option.{ForSome};
ghost use Rattle.ac_model.specs.Calls.{Marks, Same};
ghost use Rattle.ac_model.specs.Containers.{Grows};
ghost use Rattle.ac_model.specs.Cursors.{IsNamed, may_cursor, spot};
ghost use Rattle.ac_model.specs.Forms.{Does, Sets, seen_by};
ghost use Rattle.ac_model.specs.Letters.{place_at};
ghost use Rattle.ac_model.specs.Objects.{plain};
ghost use Rattle.ac_model.specs.Putting.{Takes, put_call};
ghost use Rattle.ac_model.specs.Putting as putting;
ghost use Rattle.ac_model.specs.Sequences as sequences;

use super::Sequence;
use super::looking::may;
use super::refusing::refuses_copies;
use crate::walked::Walked;
use ac_base::{Cursor, Elem, Fault, Name};
use ac_model::{allowed, count_of, cursor_of_first, place_in};

/// A list or a vector into which copies are put.
pub trait Puts<T: Elem>: Sequence<T> {
    /// Puts so many copies before the place. The answer is the first one's cursor.
    fn put(&mut self, place: Option<Name>, e: T, n: u64) -> Result<Cursor, Fault>
        requires place { ForSome place (IsNamed (Self.seen self.old).object) }
        requires room { Takes (Self.seen self.old).object n }
        ensures changed { Does (Marks (Self.seen self.new).object) (λ o. put_call (Self.seen self.old).object place e n)
            (Self.seen self.old) (Self.seen self.new) result }
        ensures none { n ≡ 0 → Self.seen self.new ≡ Self.seen self.old }
        ensures slots { Grows result (Self.seen self.old) (Self.seen self.new) };
}

pub fn append<T: Elem, S: Puts<T>>(s: &mut S, e: T, n: i64) -> Result<(), Fault>
    ensures changed { Does Same (λ o. sequences.append_call o e n) (S.seen s.old) (S.seen s.new) result }
    ensures slots { Grows result (S.seen s.old) (S.seen s.new) }
{
    allowed(refuses_copies(s, None, n))?;
    done(s.put(None, e, count_of(n)))
}

pub fn prepend<T: Elem, S: Puts<T>>(s: &mut S, e: T, n: i64) -> Result<(), Fault>
    ensures changed { Does Same (λ o. sequences.prepend_call o e n) (S.seen s.old) (S.seen s.new) result }
    ensures slots { Grows result (S.seen s.old) (S.seen s.new) }
{
    allowed(refuses_copies(s, None, n))?;
    let first = s.rows().first();
    done(s.put(first, e, count_of(n)))
}

/// Before the cursor, where No_Element is the end.
pub fn insert<T: Elem, S: Puts<T>>(s: &mut S, b: Cursor, e: T, n: i64) -> Result<(), Fault>
    ensures changed { Does Same (λ o. sequences.insert_call o (seen_by (S.seen s.old) b) e n) (S.seen s.old) (S.seen s.new) result }
    ensures slots { Grows result (S.seen s.old) (S.seen s.new) }
{
    let mut first = b;
    insert_pos(s, b, e, &mut first, n)
}

/// As `insert`, and the variable is set to the first copy, or to the cursor where there is none.
pub fn insert_pos<T: Elem, S: Puts<T>>(
    s: &mut S,
    b: Cursor,
    e: T,
    p: &mut Cursor,
    n: i64,
) -> Result<(), Fault>
    ensures changed { Sets (λ o. sequences.insert_pos_call o (seen_by (S.seen s.old) b) e n)
        (S.seen s.old) p.old (S.seen s.new) p.new result }
    ensures slots { Grows result (S.seen s.old) (S.seen s.new) }
{
    allowed(refuses_copies(s, may(s, b), n))?;
    let count = count_of(n);
    let place = place_before(s, b);
    let first = s.put(place, e, count)?;
    *p = cursor_of_first(count, first, b);
    Ok(())
}

/// The place before the cursor.
fn place_before<T, S: Sequence<T>>(s: &S, b: Cursor) -> Option<Name>
    requires { may_cursor (S.seen s.now).object b ≡ None }
    ensures named { ForSome result (IsNamed (S.seen s.now).object) }
    ensures spot { spot (S.seen s.now).object result ≡ place_at (plain (S.seen s.now).object).rows (seen_by (S.seen s.now) b) }
{
    let _rows = s.rows();
    place_in(b)
}

/// The answer let go.
pub fn done(put: Result<Cursor, Fault>) -> Result<(), Fault>
    ensures { result ≡ putting.done put }
{
    match put {
        Ok(_) => Ok(()),
        Err(fault) => Err(fault),
    }
}
