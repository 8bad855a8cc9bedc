//! Why calls are refused.
ghost use Rattle.std.specs.Prelude.{◌≡◌, ◌≤◌, ◌∷◌, []};
ghost use Rattle.ac_base.specs.FirstReason.{first_reason};
ghost use Rattle.ac_base.specs.Tampering.{forbids};
ghost use Rattle.ac_model.specs.Common as common;
ghost use Rattle.ac_model.specs.Cursors.{needs_cursor};
ghost use Rattle.ac_model.specs.Forms.{Refuses, RefusesBoth, seen_by};
ghost use Rattle.ac_model.specs.Letters.{in_range, room, tampers_cursors, tampers_elements};
ghost use Rattle.ac_model.specs.Objects.{length_of, plain};
ghost use Rattle.ac_model.specs.Sequences as sequences;
ghost use Rattle.ac_model.specs.Sequences.{room_for_copies};

use super::Sequence;
use super::looking::needs;
use crate::walked::Walked;
use ac_base::{Class, Cursor, GREATEST_LENGTH, Rank, Reason, first_reason};
use ac_model::{count_of, in_range, reason_if, room};

/// What the guards forbid.
pub fn forbids<T, S: Sequence<T>>(s: &S, class: Class) -> Option<Reason>
    ensures { result ≡ forbids class (S.seen s.now).object.cursor_guards (S.seen s.now).object.element_guards }
{
    s.guards().forbids(class)
}

fn length<T, S: Sequence<T>>(s: &S) -> u64
    ensures count { result ≡ length_of (S.seen s.now).object }
    ensures few { result ≤ GREATEST_LENGTH }
{
    s.rows().len()
}

/// Why so many elements in all, so many of them new, are refused.
fn fits<T, S: Sequence<T>>(s: &S, length: u64, more: u64) -> Option<Reason>
    ensures { result ≡ first_reason (room (plain (S.seen s.now).object) length more) }
{
    room(s.limit(), s.rows().next_serial(), length, more)
}

/// Why so many copies before a place are refused, where this reason was found for the place.
#[inline(always)]
pub fn refuses_copies<T, S: Sequence<T>>(s: &S, place: Option<Reason>, n: i64) -> Option<Reason>
    ensures { result ≡ first_reason (tampers_cursors (plain (S.seen s.now).object) ∷ place
        ∷ room_for_copies (plain (S.seen s.now).object) n) }
{
    let more = count_of(n);
    let all = length(s) + more;
    first_reason(&[
        forbids(s, Class::Cursors),
        place,
        in_range(n),
        fits(s, all, more),
    ])
}

/// Why so many elements in place of the old ones are refused.
pub fn refuses_refill<T, S: Sequence<T>>(s: &S, length: u64) -> Option<Reason>
    ensures { result ≡ first_reason (tampers_cursors (plain (S.seen s.now).object)
        ∷ room (plain (S.seen s.now).object) length length) }
{
    first_reason(&[forbids(s, Class::Cursors), fits(s, length, length)])
}

/// Why a move is refused.
pub fn refuses_move<T, S: Sequence<T>>(s: &S, source: &S) -> Option<Reason>
    ensures { RefusesBoth common.move_from_call (S.seen s.now) (S.seen source.now) result }
{
    let more = length(source);
    first_reason(&[
        forbids(s, Class::Cursors),
        forbids(source, Class::Cursors),
        fits(s, more, more),
    ])
}

/// Why a merge is refused.
pub fn refuses_merge<T: Rank, S: Sequence<T>>(s: &S, source: &S) -> Option<Reason>
    ensures { RefusesBoth (sequences.merge_call T.is_less) (S.seen s.now) (S.seen source.now) result }
{
    let more = length(source);
    let all = length(s) + more;
    first_reason(&[
        forbids(s, Class::Cursors),
        forbids(source, Class::Cursors),
        fits(s, all, more),
    ])
}

/// Why a merge with itself is refused.
pub fn refuses_merge_self<T, S: Sequence<T>>(s: &S) -> Option<Reason>
    ensures { Refuses sequences.merge_self_call (S.seen s.now) result }
{
    first_reason(&[
        forbids(s, Class::Cursors),
        reason_if(length(s) != 0, Reason::SameContainer),
    ])
}

/// Why a swap is refused.
pub fn refuses_swap<T, S: Sequence<T>>(s: &S, first: Cursor, second: Cursor) -> Option<Reason>
    ensures { Refuses (λ o. sequences.swap_call o (seen_by (S.seen s.now) first) (seen_by (S.seen s.now) second))
        (S.seen s.now) result }
{
    first_reason(&[
        forbids(s, Class::Elements),
        needs(s, first),
        needs(s, second),
    ])
}

/// Why a replacement is refused.
pub fn refuses_replacement<T, S: Sequence<T>>(s: &S, c: Cursor) -> Option<Reason>
    ensures { result ≡ first_reason (tampers_elements (plain (S.seen s.now).object) ∷ needs_cursor (S.seen s.now).object c ∷ []) }
{
    first_reason(&[forbids(s, Class::Elements), needs(s, c)])
}

/// Why a deletion from the cursor on is refused.
pub fn refuses_deletion<T, S: Sequence<T>>(s: &S, c: Cursor, n: i64) -> Option<Reason>
    ensures { result ≡ first_reason (tampers_cursors (plain (S.seen s.now).object)
        ∷ needs_cursor (S.seen s.now).object c ∷ in_range n ∷ []) }
{
    first_reason(&[forbids(s, Class::Cursors), needs(s, c), in_range(n)])
}

/// Why a deletion at an end is refused.
pub fn refuses_count<T, S: Sequence<T>>(s: &S, n: i64) -> Option<Reason>
    ensures { result ≡ first_reason (tampers_cursors (plain (S.seen s.now).object) ∷ in_range n ∷ []) }
{
    first_reason(&[forbids(s, Class::Cursors), in_range(n)])
}
