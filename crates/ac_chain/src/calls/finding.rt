//! Searches for an element, and comparisons of all elements.
ghost use Rattle.std.specs.Prelude.{◌≡◌};
ghost use Rattle.ac_model.specs.Calls.{Marks};
ghost use Rattle.ac_model.specs.Forms.{Looks, seen_by};
ghost use Rattle.ac_model.specs.Objects.{plain};
ghost use Rattle.ac_model.specs.Sequences as sequences;

use super::Sequence;
use super::looking::{may, named};
use crate::search::{are_equal, end_of, found_back, found_from, is_ascending, start_of};
use crate::walked::Walked;
use ac_base::{Cursor, Elem, Fault, Rank};
use ac_model::allowed;

/// From the cursor on, or from the first element where it is No_Element.
pub fn find<T: Elem, S: Sequence<T>>(s: &S, e: &T, b: Cursor) -> Result<Cursor, Fault>
    ensures { Looks (Marks (S.seen s.now).object)
        (λ o. sequences.find_call T.is_same o e.now (seen_by (S.seen s.now) b)) (S.seen s.now) result }
{
    allowed(may(s, b))?;
    let rows = s.rows();
    let start = start_of(rows, b);
    Ok(named(s, found_from(rows, e, start)))
}

/// Back from the cursor, or from the last element where it is No_Element.
pub fn reverse_find<T: Elem, S: Sequence<T>>(s: &S, e: &T, b: Cursor) -> Result<Cursor, Fault>
    ensures { Looks (Marks (S.seen s.now).object)
        (λ o. sequences.reverse_find_call T.is_same o e.now (seen_by (S.seen s.now) b)) (S.seen s.now) result }
{
    allowed(may(s, b))?;
    let rows = s.rows();
    let end = end_of(rows, b);
    Ok(named(s, found_back(rows, e, end)))
}

pub fn contains<T: Elem, S: Sequence<T>>(s: &S, e: &T) -> bool
    ensures { result ≡ sequences.contains_call T.is_same (plain (S.seen s.now).object) e.now }
{
    let rows = s.rows();
    let first = rows.first();
    found_from(rows, e, first).is_some()
}

pub fn equal<T: Elem, S: Sequence<T>>(left: &S, right: &S) -> bool
    ensures { result ≡ sequences.equal_call T.is_same (plain (S.seen left.now).object) (plain (S.seen right.now).object) }
{
    are_equal(left.rows(), right.rows())
}

pub fn is_sorted<T: Rank, S: Sequence<T>>(s: &S) -> bool
    ensures { result ≡ sequences.is_sorted_call T.is_less (plain (S.seen s.now).object) }
{
    let rows = s.rows();
    match rows.first() {
        Some(first) => is_ascending(rows, first),
        None => true,
    }
}
