//! Tests of how an object's rows stand to each other.
ghost use Rattle.std.specs.Prelude.{◌≡◌, ◌==◌, true, map, IfOk};
ghost use Rattle.std.specs.List.{list_all, position_or_len};
ghost use Rattle.std.specs.Ordering.{int_eq};
ghost use Rattle.std.specs.Str.{bytes_eq};
ghost use Rattle.ac_base.specs.Key.{key_of_text};
ghost use Rattle.ac_base.specs.Order as orders;
ghost use Rattle.ac_model.specs.Outline.{follows};
ghost use Rattle.ac_model.specs.Queues as queues;
ghost use Rattle.ac_rules.specs.Rules as rules;
ghost use Rattle.ac_snapshot.specs.RowKeys as keys;
ghost use Rattle.ac_snapshot.specs.RowKeys.{each_next};
ghost use Rattle.ac_snapshot.specs.RowValidity as tests;
ghost use Rattle.ac_snapshot.specs.RowValues.{row_kind, row_values};

use crate::key_set::{is_new_integer, is_new_text};
use crate::value_test::{integer_in, text_in};
use ac_base::{NoMemory, Value};
use ac_calls::PlainRow;
use ac_syntax::{ElemKind, Kind, TypeDef};
use std::alloc::Global;
use std::collections::BTreeSet;

/// What two rows that follow each other are tested for.
#[derive(Clone, Copy)]
pub enum Turn {
    /// The second has the greater key.
    Ascends { keyed: bool, elem: ElemKind },
    /// It is at most one deeper, and below the root.
    Nests,
    /// It is of no higher priority.
    LinesUp,
}

/// A row's key: an element of a set is its own.
fn key_of(row: &PlainRow) -> &Value
    ensures { result.now ≡ keys.key_of row.now }
{
    match &row.key {
        Some(key) => key,
        None => &row.value,
    }
}

fn key_len(text: &[u8]) -> usize
    ensures { result ≡ position_or_len (λ byte. byte == 61) text.now }
{
    text.iter().take_while(|byte| **byte != b'=').count()
}

/// The bytes before the first `=`, or all of them.
fn key_part(text: &[u8]) -> &[u8]
    ensures { result.now ≡ key_of_text text.now }
{
    &text[..key_len(text)]
}

fn key_integer(row: &PlainRow) -> i64
    ensures { result ≡ keys.key_integer row.now }
{
    integer_in(key_of(row))
}

/// The text that a key is, or its part before the first `=`.
fn key_text(keyed: bool, row: &PlainRow) -> &[u8]
    ensures { result.now ≡ keys.key_text keyed row.now }
{
    let text = text_in(key_of(row));
    if keyed { key_part(text) } else { text }
}

fn text_less(x: &[u8], y: &[u8]) -> bool
    ensures { result ≡ orders.text_less x.now y.now }
{
    x.cmp(&y).is_lt()
}

fn integer_less(x: i64, y: i64) -> bool
    ensures { result ≡ orders.integer_less x y }
{
    x.cmp(&y).is_lt()
}

fn part_less(x: &Value, y: &Value) -> bool
    ensures { result ≡ keys.part_less x.now y.now }
{
    text_less(key_part(text_in(x)), key_part(text_in(y)))
}

fn whole_less(elem: ElemKind, x: &Value, y: &Value) -> bool
    ensures { result ≡ keys.whole_less elem x.now y.now }
{
    match elem {
        ElemKind::Integer => integer_less(integer_in(x), integer_in(y)),
        ElemKind::Str => text_less(text_in(x), text_in(y)),
    }
}

fn key_less(keyed: bool, elem: ElemKind, x: &PlainRow, y: &PlainRow) -> bool
    ensures { result ≡ keys.key_less keyed elem x.now y.now }
{
    if keyed {
        part_less(key_of(x), key_of(y))
    } else {
        whole_less(elem, key_of(x), key_of(y))
    }
}

/// Whether the first item of a priority queue comes before the second.
fn comes_before(x: i64, y: i64) -> bool
    ensures { result ≡ queues.comes_before x y }
{
    y / 100 < x / 100
}

fn in_turn(turn: Turn, x: &PlainRow, y: &PlainRow) -> bool
    ensures { result ≡ keys.in_turn turn x.now y.now }
{
    match turn {
        Turn::Ascends { keyed, elem } => key_less(keyed, elem, x, y),
        Turn::Nests => 2 <= y.depth && y.depth <= x.depth.saturating_add(1),
        Turn::LinesUp => !comes_before(integer_in(&y.value), integer_in(&x.value)),
    }
}

/// Whether each row passes the test with the next.
pub fn each_in_turn(turn: Turn, rows: &[PlainRow]) -> bool
    ensures { result ≡ each_next (keys.in_turn turn) rows.now }
{
    for at in 1..rows.len() {
        if !in_turn(turn, &rows[at - 1], &rows[at]) {
            return false;
        }
    }
    true
}

fn integers_differ(alloc: Global, rows: &[PlainRow]) -> Result<bool, NoMemory>
    ensures { IfOk result (λ differ. differ ≡ tests.all_differ int_eq (map keys.key_integer rows.now)) }
{
    let mut seen = BTreeSet::new(alloc);
    let mut at = rows.len();
    while at > 0 {
        at -= 1;
        if !is_new_integer(&mut seen, key_integer(&rows[at]))? {
            return Ok(false);
        }
    }
    Ok(true)
}

fn texts_differ(alloc: Global, keyed: bool, rows: &[PlainRow]) -> Result<bool, NoMemory>
    ensures { IfOk result (λ differ. differ ≡ tests.all_differ bytes_eq (map (keys.key_text keyed) rows.now)) }
{
    let mut seen = BTreeSet::new(alloc);
    let mut at = rows.len();
    while at > 0 {
        at -= 1;
        if !is_new_text(&mut seen, key_text(keyed, &rows[at]))? {
            return Ok(false);
        }
    }
    Ok(true)
}

/// Whether no two keys are equivalent.
fn keys_differ(
    alloc: Global,
    keyed: bool,
    elem: ElemKind,
    rows: &[PlainRow],
) -> Result<bool, NoMemory>
    ensures { IfOk result (λ differ. differ ≡ keys.keys_differ keyed elem rows.now) }
{
    if keyed {
        return texts_differ(alloc, true, rows);
    }
    match elem {
        ElemKind::Integer => integers_differ(alloc, rows),
        ElemKind::Str => texts_differ(alloc, false, rows),
    }
}

/// Whether a tree's depths form an outline.
fn is_outline(rows: &[PlainRow]) -> bool
    ensures { result ≡ follows 1 (map (λ r. r.depth) rows.now) }
{
    match rows {
        [] => true,
        [first, ..] => first.depth == 2 && each_in_turn(Turn::Nests, rows),
    }
}

/// Whether rows of the type may stand together in one object.
pub fn stand_together(alloc: Global, def: TypeDef, rows: &[PlainRow]) -> Result<bool, NoMemory>
    requires typed { rules.is_type def ≡ true }
    requires all { list_all (tests.is_row_of def) rows.now ≡ true }
    ensures { IfOk result (λ stand. stand ≡ tests.are_rows_of (row_kind def) (row_values (row_kind def) rows.now)) }
{
    let turn = Turn::Ascends {
        keyed: def.keyed,
        elem: def.first,
    };
    match def.kind {
        Kind::HashedMap => keys_differ(alloc, def.keyed, def.first, rows),
        Kind::HashedSet => keys_differ(alloc, def.keyed, def.first, rows),
        Kind::OrderedMap => Ok(each_in_turn(turn, rows)),
        Kind::OrderedSet => Ok(each_in_turn(turn, rows)),
        Kind::Tree => Ok(is_outline(rows)),
        Kind::Vector => Ok(true),
        Kind::List => Ok(true),
        Kind::Holder => Ok(true),
        Kind::Queue => Ok(true),
        Kind::PriorityQueue => Ok(true),
    }
}

/// Whether the items of a priority queue are in line.
pub fn are_lined_up(def: TypeDef, rows: &[PlainRow]) -> bool
    ensures { result ≡ tests.are_lined_up def rows.now }
{
    match def.kind {
        Kind::PriorityQueue => each_in_turn(Turn::LinesUp, rows),
        _ => true,
    }
}
