//! What a cursor designates, and the elements at the ends.
ghost use Rattle.std.specs.Prelude.{◌≡◌};
ghost use Rattle.ac_model.specs.Calls.{Lends, Marks};
ghost use Rattle.ac_model.specs.Common as common;
ghost use Rattle.ac_model.specs.Cursors.{cursor_at, may_cursor, needs_cursor};
ghost use Rattle.ac_model.specs.Forms.{Looks, seen_by};
ghost use Rattle.ac_model.specs.Objects.{plain};
ghost use Rattle.ac_model.specs.Sequences as sequences;

use super::Sequence;
use crate::walked::Walked;
use ac_base::{Cursor, Fault, Name, Reason};
use ac_model::{allowed, cursor_at, judge, name_in};

/// Whether the cursor designates an element of this object.
pub fn has_element<T, S: Sequence<T>>(s: &S, c: Cursor) -> bool
    ensures { result ≡ common.has_element_call (plain (S.seen s.now).object) (seen_by (S.seen s.now) c) }
{
    needs(s, c).is_none()
}

pub fn first<T, S: Sequence<T>>(s: &S) -> Cursor
    ensures { Marks (S.seen s.now).object result (sequences.first_call (plain (S.seen s.now).object)) }
{
    named(s, s.rows().first())
}

pub fn last<T, S: Sequence<T>>(s: &S) -> Cursor
    ensures { Marks (S.seen s.now).object result (sequences.last_call (plain (S.seen s.now).object)) }
{
    named(s, s.rows().last())
}

#[inline(always)]
pub fn next<T, S: Sequence<T>>(s: &S, b: Cursor) -> Result<Cursor, Fault>
    ensures { Looks (Marks (S.seen s.now).object) (λ o. sequences.next_call o (seen_by (S.seen s.now) b)) (S.seen s.now) result }
{
    if b == Cursor::NoElement {
        return Ok(Cursor::NoElement);
    }
    allowed(needs(s, b))?;
    Ok(named(s, s.rows().next(name_in(b))))
}

pub fn previous<T, S: Sequence<T>>(s: &S, b: Cursor) -> Result<Cursor, Fault>
    ensures { Looks (Marks (S.seen s.now).object) (λ o. sequences.previous_call o (seen_by (S.seen s.now) b)) (S.seen s.now) result }
{
    if b == Cursor::NoElement {
        return Ok(Cursor::NoElement);
    }
    allowed(needs(s, b))?;
    Ok(named(s, s.rows().prev(name_in(b))))
}

pub fn first_element<T, S: Sequence<T>>(s: &S) -> Result<&T, Fault>
    ensures { Looks Lends sequences.first_element_call (S.seen s.now) result }
{
    let rows = s.rows();
    match rows.first() {
        Some(name) => Ok(rows.at(name)),
        None => Err(Fault::Raised(Reason::Empty)),
    }
}

pub fn last_element<T, S: Sequence<T>>(s: &S) -> Result<&T, Fault>
    ensures { Looks Lends sequences.last_element_call (S.seen s.now) result }
{
    let rows = s.rows();
    match rows.last() {
        Some(name) => Ok(rows.at(name)),
        None => Err(Fault::Raised(Reason::Empty)),
    }
}

pub fn element<T, S: Sequence<T>>(s: &S, c: Cursor) -> Result<&T, Fault>
    ensures { Looks Lends (λ o. sequences.element_call o (seen_by (S.seen s.now) c)) (S.seen s.now) result }
{
    allowed(needs(s, c))?;
    Ok(s.rows().at(name_in(c)))
}

/// Why a cursor that must designate an element is refused.
#[inline(always)]
pub fn needs<T, S: Sequence<T>>(s: &S, c: Cursor) -> Option<Reason>
    ensures { result ≡ needs_cursor (S.seen s.now).object c }
{
    match c {
        Cursor::NoElement => Some(Reason::NoElement),
        Cursor::At { object, name } => judged(s, object, name),
    }
}

/// Why a cursor that may be No_Element is refused.
pub fn may<T, S: Sequence<T>>(s: &S, c: Cursor) -> Option<Reason>
    ensures { result ≡ may_cursor (S.seen s.now).object c }
{
    match c {
        Cursor::NoElement => None,
        Cursor::At { object, name } => judged(s, object, name),
    }
}

#[inline(always)]
fn judged<T, S: Sequence<T>>(s: &S, object: u64, name: Name) -> Option<Reason>
    ensures { result ≡ needs_cursor (S.seen s.now).object (Cursor.At object name) }
{
    judge(s.guards().number(), object, s.rows().is_live(name))
}

/// The name as a cursor of this object.
pub fn named<T, S: Sequence<T>>(s: &S, name: Option<Name>) -> Cursor
    ensures { result ≡ cursor_at (S.seen s.now).object.number name }
{
    cursor_at(s.guards().number(), name)
}
