//! Readers of an object's rows. The level of a row is its depth in a tree, and elsewhere that of a tree's topmost nodes.
ghost use Rattle.std.specs.Prelude.{◌≡◌, ◌≤◌, ◌<◌, ◌^◌, length, IfOk, Some, None};
ghost use Rattle.std.specs.List.{prefix_len};
ghost use Rattle.ac_base.specs.declared.limit.TheConstants.{GREATEST_LENGTH as greatest_length};
ghost use Rattle.ac_snapshot.specs.Outcomes.{Finds};
ghost use Rattle.ac_snapshot.specs.RowReaders as readers;

use crate::kinds::{element_of, is_map, is_tree};
use crate::value_reader::{after, literal};
use ac_base::{GREATEST_LENGTH, NoMemory};
use ac_calls::PlainRow;
use ac_syntax::TypeDef;
use std::alloc::Global;

/// How deep a row may stand for one to be read below it.
const DEEPEST: u64 = 4_294_967_296;

fn depth_at(def: TypeDef, level: u64) -> u64
    ensures { result ≡ readers.depth_at def level }
{
    if is_tree(def.kind) { level } else { 0 }
}

/// A row of a map.
fn entry_row(
    alloc: Global,
    def: TypeDef,
    depth: u64,
    text: &[u8],
) -> Result<Option<(PlainRow, &[u8])>, NoMemory>
    ensures { IfOk result (λ read. Finds (λ row. row) read (readers.entry_row def depth text.now)) }
{
    let Some((key, rest)) = literal(alloc, def.first, text)? else {
        return Ok(None);
    };
    let Some(rest) = after(rest, b" => ") else {
        return Ok(None);
    };
    let Some((value, rest)) = literal(alloc, element_of(def), rest)? else {
        return Ok(None);
    };
    let key = Some(key);
    Ok(Some((PlainRow { depth, key, value }, rest)))
}

fn element_row(
    alloc: Global,
    def: TypeDef,
    depth: u64,
    text: &[u8],
) -> Result<Option<(PlainRow, &[u8])>, NoMemory>
    ensures { IfOk result (λ read. Finds (λ row. row) read (readers.element_row def depth text.now)) }
{
    let Some((value, rest)) = literal(alloc, element_of(def), text)? else {
        return Ok(None);
    };
    let key = None;
    Ok(Some((PlainRow { depth, key, value }, rest)))
}

/// A row of an object of the type.
fn row(
    alloc: Global,
    def: TypeDef,
    depth: u64,
    text: &[u8],
) -> Result<Option<(PlainRow, &[u8])>, NoMemory>
    ensures { IfOk result (λ read. Finds (λ row. row) read (readers.row def depth text.now)) }
{
    if is_map(def.kind) {
        entry_row(alloc, def, depth, text)
    } else {
        element_row(alloc, def, depth, text)
    }
}

fn brackets_len(text: &[u8]) -> usize
    ensures len { result ≡ prefix_len readers.is_bracket text.now }
    ensures within { result ≤ length text.now }
{
    text.iter().take_while(|b| **b == b']').count()
}

/// One level deeper, where rows can be nested and none was closed.
fn deeper(nests: bool, level: u64, closed: u64, text: &[u8]) -> Option<(Option<u64>, &[u8])>
    ensures { Finds (λ level. level) result (readers.deeper nests level closed text.now) }
{
    if !(nests && closed == 0 && level < DEEPEST) {
        return None;
    }
    match after(text, b" [") {
        Some(rest) => Some((Some(level + 1), rest)),
        None => None,
    }
}

fn behind_brackets(
    nests: bool,
    level: u64,
    closed: u64,
    text: &[u8],
) -> Option<(Option<u64>, &[u8])>
    requires { closed < 2 ^ 63 }
    ensures { Finds (λ level. level) result (readers.behind_brackets nests level closed text.now) }
{
    if closed + 1 == level {
        return Some((None, text));
    }
    if closed + 1 > level {
        return None;
    }
    match after(text, b", ") {
        Some(rest) => Some((Some(level - closed), rest)),
        None => deeper(nests, level, closed, text),
    }
}

/// What stands behind a row of this level: the level of the next row, or nothing where the rows end.
fn behind_row(nests: bool, level: u64, text: &[u8]) -> Option<(Option<u64>, &[u8])>
    ensures { Finds (λ level. level) result (readers.behind_row nests level text.now) }
{
    let closed = brackets_len(text);
    behind_brackets(nests, level, closed as u64, text.split_at(closed).1)
}

/// Rows and the bracket behind them.
fn rows_from(
    alloc: Global,
    def: TypeDef,
    text: &[u8],
) -> Result<Option<(Vec<PlainRow>, &[u8])>, NoMemory>
    ensures { IfOk result (λ read. Finds (λ rows. rows.items) read (readers.rows_by greatest_length def 2 text.now)) }
{
    let mut rows = Vec::new(alloc);
    let mut level = 2;
    let mut left = text;
    for _ in 0..GREATEST_LENGTH {
        let Some((row, rest)) = row(alloc, def, depth_at(def, level), left)? else {
            return Ok(None);
        };
        rows.push(row)?;
        match behind_row(is_tree(def.kind), level, rest) {
            Some((Some(next), rest)) => {
                level = next;
                left = rest;
            }
            Some((None, rest)) => return Ok(Some((rows, rest))),
            None => return Ok(None),
        }
    }
    Ok(None)
}

/// The rows of an object of the type, between their brackets.
pub fn listed(
    alloc: Global,
    def: TypeDef,
    text: &[u8],
) -> Result<Option<(Vec<PlainRow>, &[u8])>, NoMemory>
    ensures { IfOk result (λ read. Finds (λ rows. rows.items) read (readers.listed def text.now)) }
{
    let Some(rest) = after(text, b"[") else {
        return Ok(None);
    };
    match after(rest, b"]") {
        Some(rest) => Ok(Some((Vec::new(alloc), rest))),
        None => rows_from(alloc, def, rest),
    }
}
