//! Searches for a value among rows that are walked over, and comparisons of all values.
ghost use Rattle.std.specs.Prelude.{◌≡◌, Some, drop, reverse, take};
ghost use Rattle.std.specs.Option.{ForSome};
ghost use Rattle.ac_base.specs.Rows.{values};
ghost use Rattle.ac_chain.specs.Rows.{IsLive, IsSound, place_of};
ghost use Rattle.ac_pool.specs.NamedRows.{name_at};
ghost use Rattle.ac_chain.specs.Search.{found_in, count_to, start_of, end_of};
ghost use Rattle.ac_model.specs.Rows.{is_ascending};
ghost use Rattle.ac_model.specs.Sequences as sequences;

use crate::walked::Walked;
use ac_base::{Cursor, Elem, Name, Rank, precedes};

/// The first name from this one on under which an equal value stands.
pub fn found_from<T: Elem, C: Walked<T>>(rows: &C, e: &T, from: Option<Name>) -> Option<Name>
    requires from { ForSome from (IsLive (C.seen rows.now)) }
    requires sound { IsSound (C.seen rows.now) }
    ensures { result ≡ found_in T.is_same e.now (drop (place_of from (C.seen rows.now).rows) (C.seen rows.now).rows) }
{
    let mut place = from;
    while let Some(name) = place {
        if rows.at(name).same(e) {
            return place;
        }
        place = rows.next(name);
    }
    None
}

/// The first name back from this one under which an equal value stands.
pub fn found_back<T: Elem, C: Walked<T>>(rows: &C, e: &T, from: Option<Name>) -> Option<Name>
    requires from { ForSome from (IsLive (C.seen rows.now)) }
    requires sound { IsSound (C.seen rows.now) }
    ensures { result ≡ found_in T.is_same e.now (reverse (take (count_to from (C.seen rows.now).rows) (C.seen rows.now).rows)) }
{
    let mut place = from;
    while let Some(name) = place {
        if rows.at(name).same(e) {
            return place;
        }
        place = rows.prev(name);
    }
    None
}

/// The two have equal values, one by one.
pub fn are_equal<T: Elem, C: Walked<T>>(left: &C, right: &C) -> bool
    ensures { result ≡ sequences.are_equal T.is_same (values (C.seen left.now).rows) (values (C.seen right.now).rows) }
{
    if left.len() != right.len() {
        return false;
    }
    let mut here = left.first();
    let mut there = right.first();
    while let Some(a) = here {
        let Some(b) = there else {
            return false;
        };
        if !left.at(a).same(right.at(b)) {
            return false;
        }
        here = left.next(a);
        there = right.next(b);
    }
    there.is_none()
}

/// No value is less than the one before it.
pub fn is_ascending<T: Rank, C: Walked<T>>(rows: &C, first: Name) -> bool
    requires first { name_at (C.seen rows.now).rows 0 ≡ Some first }
    requires sound { IsSound (C.seen rows.now) }
    ensures { result ≡ is_ascending T.is_less (values (C.seen rows.now).rows) }
{
    let mut before = first;
    while let Some(name) = rows.next(before) {
        if precedes(rows.at(name), rows.at(before)) {
            return false;
        }
        before = name;
    }
    true
}

pub fn start_of<T, C: Walked<T>>(rows: &C, b: Cursor) -> Option<Name>
    ensures { result ≡ start_of (C.seen rows.now).rows b }
{
    match b {
        Cursor::NoElement => rows.first(),
        Cursor::At { object: _, name } => Some(name),
    }
}

pub fn end_of<T, C: Walked<T>>(rows: &C, b: Cursor) -> Option<Name>
    ensures { result ≡ end_of (C.seen rows.now).rows b }
{
    match b {
        Cursor::NoElement => rows.last(),
        Cursor::At { object: _, name } => Some(name),
    }
}
