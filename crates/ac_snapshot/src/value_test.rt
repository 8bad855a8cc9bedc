//! Tests of values and of rows by themselves.
ghost use Rattle.std.specs.Prelude.{◌≡◌, not, Some};
ghost use Rattle.std.specs.List.{list_all};
ghost use Rattle.ac_base.specs.Text.{is_printable};
ghost use Rattle.ac_model.specs.Holders.{is_too_large};
ghost use Rattle.ac_syntax.specs.Kinds as kinds;
ghost use Rattle.ac_calls.specs.Elements as elements;
ghost use Rattle.ac_calls.specs.Elements.{tools_of};
ghost use Rattle.ac_calls.specs.Holdings.{limit_by};
ghost use Rattle.ac_snapshot.specs.RowValidity as tests;

use crate::kinds::{element_of, is_map, is_tree};
use ac_base::{Text, Value};
use ac_calls::PlainRow;
use ac_syntax::{ElemKind, TypeDef};

/// The longest string, in bytes.
const LONGEST_STRING: usize = 1_000;

pub fn is_integer(z: i64) -> bool
    ensures { result ≡ tests.is_integer z }
{
    i64::MIN <= z && z <= i64::MAX
}

fn printable(byte: u8) -> bool
    ensures { result ≡ is_printable byte }
{
    (32..=126).contains(&byte)
}

fn are_printable(bytes: &[u8]) -> bool
    ensures { result ≡ list_all is_printable bytes.now }
{
    bytes.iter().all(|byte| printable(*byte))
}

pub fn is_text(text: &Text) -> bool
    ensures { result ≡ tests.is_text text.now }
{
    let bytes = text.bytes();
    bytes.len() <= LONGEST_STRING && are_printable(bytes)
}

fn is_value_of(elem: ElemKind, value: &Value) -> bool
    ensures { result ≡ tests.is_value_of elem value.now }
{
    match elem {
        ElemKind::Integer => match value {
            Value::Int(z) => is_integer(*z),
            Value::Text(_) => false,
        },
        ElemKind::Str => match value {
            Value::Int(_) => false,
            Value::Text(text) => is_text(text),
        },
    }
}

/// Whether a key stands just in maps, and is of the type that is named for it.
fn is_key_of(def: TypeDef, key: &Option<Value>) -> bool
    ensures { result ≡ tests.is_given (kinds.is_map def.kind) (tests.is_value_of def.first) key.now }
{
    match key {
        None => !is_map(def.kind),
        Some(key) => is_map(def.kind) && is_value_of(def.first, key),
    }
}

/// Whether a row may stand in an object of the type.
fn is_row_of(def: TypeDef, row: &PlainRow) -> bool
    ensures { result ≡ tests.is_row_of def row.now }
{
    (is_tree(def.kind) || row.depth == 0)
        && (is_key_of(def, &row.key) && is_value_of(element_of(def), &row.value))
}

pub fn are_of_type(def: TypeDef, rows: &[PlainRow]) -> bool
    ensures { result ≡ list_all (tests.is_row_of def) rows.now }
{
    rows.iter().all(|row| is_row_of(def, row))
}

/// The integer that a value is.
pub fn integer_in(value: &Value) -> i64
    ensures { result ≡ elements.integer_in value.now }
{
    match value {
        Value::Int(z) => *z,
        Value::Text(_) => 0,
    }
}

/// The bytes of a value that is a string.
pub fn text_in(value: &Value) -> &[u8]
    ensures { result.now ≡ elements.text_in value.now }
{
    match value {
        Value::Int(_) => b"",
        Value::Text(text) => text.bytes(),
    }
}

/// How large a holder's value is, in bytes.
fn size_of(elem: ElemKind, value: &Value) -> u64
    ensures { result ≡ (tools_of elem).size ((tools_of elem).from_value value.now) }
{
    match elem {
        ElemKind::Integer => 8,
        ElemKind::Str => text_in(value).len() as u64,
    }
}

/// Whether a holder with this limit may have the value.
pub fn is_small(elem: ElemKind, limit: Option<u64>, value: &Value) -> bool
    ensures { result ≡ not (is_too_large (tools_of elem).size (limit_by limit) (Some ((tools_of elem).from_value value.now))) }
{
    match limit {
        None => true,
        Some(most) => size_of(elem, value) <= most,
    }
}
