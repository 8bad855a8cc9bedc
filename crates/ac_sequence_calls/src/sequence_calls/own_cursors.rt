//! The calls of lists and vectors that answer a cursor, which is the object's own.
ghost use Rattle.ac_model.specs.Objects.{plain};
ghost use Rattle.ac_model.specs.Containers.{Grows};
ghost use Rattle.ac_model.specs.Forms.{Does, Looks, seen_by};
ghost use Rattle.ac_model.specs.Sequences as sequences;
ghost use Rattle.ac_calls.specs.Replied.{IsAnswer};

use ac_base::Fault;
use ac_calls::ScriptElement;
use ac_chain::SequenceLike;
use ac_cursor::Cursor;

pub fn first<S: SequenceLike>(sequence: &S) -> Cursor
    ensures { let rows = S.seen sequence.now in IsAnswer rows.object result (sequences.first_call (plain rows.object)) }
{
    sequence.first()
}

pub fn last<S: SequenceLike>(sequence: &S) -> Cursor
    ensures { let rows = S.seen sequence.now in IsAnswer rows.object result (sequences.last_call (plain rows.object)) }
{
    sequence.last()
}

pub fn next<S: SequenceLike>(sequence: &S, c: Cursor) -> Result<Cursor, Fault>
    ensures { let rows = S.seen sequence.now in
        Looks (IsAnswer rows.object) (λ o. sequences.next_call o (seen_by rows c)) rows result }
{
    sequence.next(c)
}

pub fn previous<S: SequenceLike>(sequence: &S, c: Cursor) -> Result<Cursor, Fault>
    ensures { let rows = S.seen sequence.now in
        Looks (IsAnswer rows.object) (λ o. sequences.previous_call o (seen_by rows c)) rows result }
{
    sequence.previous(c)
}

pub fn find<S: SequenceLike>(
    sequence: &S,
    element: &S::Element,
    from: Cursor,
) -> Result<Cursor, Fault>
where
    S::Element: ScriptElement,
    ensures { let rows = S.seen sequence.now in
        Looks (IsAnswer rows.object) (λ o. sequences.find_call S.Element.tools.same o element.now (seen_by rows from)) rows result }
{
    sequence.find(element, from)
}

pub fn reverse_find<S: SequenceLike>(
    sequence: &S,
    element: &S::Element,
    from: Cursor,
) -> Result<Cursor, Fault>
where
    S::Element: ScriptElement,
    ensures { let rows = S.seen sequence.now in
        Looks (IsAnswer rows.object) (λ o. sequences.reverse_find_call S.Element.tools.same o element.now (seen_by rows from)) rows result }
{
    sequence.reverse_find(element, from)
}

/// The first copy's cursor, or the one before which none is put.
pub fn insert_pos<S: SequenceLike>(
    sequence: &mut S,
    before: Cursor,
    element: S::Element,
    count: i64,
) -> Result<Cursor, Fault>
where
    S::Element: ScriptElement,
    ensures changed { let old = S.seen sequence.old in let now = S.seen sequence.new in
        Does (IsAnswer now.object) (λ o. sequences.insert_pos_call o (seen_by old before) element count) old now result }
    ensures slots { Grows result (S.seen sequence.old) (S.seen sequence.new) }
{
    let mut first = before;
    sequence.insert_pos(before, element, &mut first, count)?;
    Ok(first)
}
