//! Tests of entries.
ghost use Rattle.std.specs.Prelude.{◌≡◌, ◌==◌, ◌&&◌, true, not, nat_le, map, length, unwrap_or, IfOk};
ghost use Rattle.std.specs.Char.{to_ascii_lowercase};
ghost use Rattle.std.specs.List.{list_all, list_any};
ghost use Rattle.ac_base.specs.declared.limit.TheConstants.{GREATEST_LENGTH as greatest_length};
ghost use Rattle.ac_base.specs.Limits.{is_past};
ghost use Rattle.ac_syntax.specs.Canonical as canonical;
ghost use Rattle.ac_syntax.specs.Characters as characters;
ghost use Rattle.ac_rules.specs.Rules as rules;
ghost use Rattle.ac_calls.specs.Elements.{tools_of};
ghost use Rattle.ac_calls.specs.Holdings.{limit_by};
ghost use Rattle.ac_calls.specs.Plains as plains;
ghost use Rattle.ac_snapshot.specs.RowValidity as tests;
ghost use Rattle.ac_snapshot.specs.RowValues.{element_in};
ghost use Rattle.ac_snapshot.specs.Validity as validity;

use crate::kinds::{has_capacity, is_holder, is_queue, is_type};
use crate::row_test::{are_lined_up, stand_together};
use crate::value_test::{are_of_type, is_integer, is_small, is_text};
use ac_base::{GREATEST_LENGTH, NoMemory};
use ac_calls::{Plain, PlainRow};
use ac_printer::is_reserved;
use ac_syntax::TypeDef;
use std::alloc::Global;

/// The longest name, in bytes.
const LONGEST_NAME: usize = 64;

/// The Capacities that an object may have, but 0.
const STEPS: [u64; 18] = [
    8, 16, 32, 64, 128, 256, 512, 1024, 2048, 4096, 8192, 16384, 32768, 65536, 131_072, 262_144,
    524_288, 1_048_576,
];

/// What an object's line says beside its name and its rows.
#[derive(Clone, Copy)]
pub struct Numbers {
    pub limit: Option<u64>,
    pub capacity: Option<u64>,
    pub peak: Option<u64>,
}

/// A letter in lower case, a digit or `_`.
fn is_lower_byte(byte: u8) -> bool
    ensures { result ≡ (characters.is_word_byte byte && to_ascii_lowercase byte == byte) }
{
    (byte.is_ascii_alphanumeric() || byte == b'_') && byte.to_ascii_lowercase() == byte
}

fn are_lower_bytes(bytes: &[u8]) -> bool
    ensures { result ≡ list_all (λ byte. characters.is_word_byte byte && to_ascii_lowercase byte == byte) bytes.now }
{
    bytes.iter().all(|byte| is_lower_byte(*byte))
}

fn is_lower_word(word: &[u8]) -> bool
    ensures { result ≡ canonical.is_lower_word word.now }
{
    match word {
        [] => false,
        [first, rest @ ..] => first.is_ascii_lowercase() && are_lower_bytes(rest),
    }
}

/// An identifier in lower case of at most 64 bytes.
fn is_name(word: &[u8]) -> bool
    ensures { result ≡ validity.is_name word.now }
{
    is_lower_word(word) && (word.len() <= LONGEST_NAME && !is_reserved(word))
}

/// Whether a limit stands just where the type is bounded.
fn is_limit_of(def: TypeDef, limit: Option<u64>) -> bool
    ensures { result ≡ validity.is_limit_of def limit }
{
    match limit {
        None => !def.bounded,
        Some(most) => def.bounded && most <= GREATEST_LENGTH,
    }
}

fn is_one_of(n: u64, all: &[u64]) -> bool
    ensures { result ≡ list_any (λ one. n == one) all.now }
{
    all.iter().any(|one| n == *one)
}

fn is_step(capacity: u64) -> bool
    ensures { result ≡ validity.is_step capacity }
{
    capacity == 0 || is_one_of(capacity, &STEPS)
}

fn is_capacity_of(def: TypeDef, rows: &[PlainRow], capacity: Option<u64>) -> bool
    ensures { result ≡ validity.is_capacity_of def rows.now capacity }
{
    match capacity {
        None => !(!def.bounded && has_capacity(def.kind)),
        Some(n) => {
            (!def.bounded && has_capacity(def.kind)) && (is_step(n) && rows.len() as u64 <= n)
        }
    }
}

/// A limit, or the greatest length where there is none.
fn most_of(limit: Option<u64>) -> u64
    ensures { result ≡ unwrap_or limit greatest_length }
{
    limit.unwrap_or(GREATEST_LENGTH)
}

fn is_peak_of(def: TypeDef, limit: Option<u64>, rows: &[PlainRow], peak: Option<u64>) -> bool
    ensures { result ≡ validity.is_peak_of def limit rows.now peak }
{
    match peak {
        None => !is_queue(def.kind),
        Some(n) => is_queue(def.kind) && (rows.len() as u64 <= n && n <= most_of(limit)),
    }
}

/// Whether a holder may have these rows.
fn is_held(def: TypeDef, limit: Option<u64>, rows: &[PlainRow]) -> bool
    ensures { result ≡ tests.is_held (tools_of def.first) limit (map (element_in (tools_of def.first)) rows.now) }
{
    match rows {
        [] => true,
        [row] => is_small(def.first, limit, &row.value),
        _ => false,
    }
}

/// Whether there are no more rows than the limit, where there is one.
fn is_below(limit: Option<u64>, len: u64) -> bool
    ensures { result ≡ not (is_past (limit_by limit) len) }
{
    match limit {
        None => true,
        Some(most) => len <= most,
    }
}

fn are_within(def: TypeDef, limit: Option<u64>, rows: &[PlainRow]) -> bool
    ensures { result ≡ tests.are_within def limit rows.now }
{
    if is_holder(def.kind) {
        is_held(def, limit, rows)
    } else {
        is_below(limit, rows.len() as u64)
    }
}

fn are_few(rows: &[PlainRow]) -> bool
    ensures { result ≡ nat_le (length rows.now) greatest_length }
{
    rows.len() as u64 <= GREATEST_LENGTH
}

/// Whether the rows are those of an object of the type with this limit.
fn are_valid_rows(
    alloc: Global,
    def: TypeDef,
    limit: Option<u64>,
    rows: &[PlainRow],
) -> Result<bool, NoMemory>
    requires { rules.is_type def ≡ true }
    ensures { IfOk result (λ valid. valid ≡ tests.are_valid_rows def limit rows.now) }
{
    if !are_of_type(def, rows) {
        return Ok(false);
    }
    if !are_few(rows) {
        return Ok(false);
    }
    if !are_within(def, limit, rows) {
        return Ok(false);
    }
    if !stand_together(alloc, def, rows)? {
        return Ok(false);
    }
    Ok(are_lined_up(def, rows))
}

fn is_valid_object(
    alloc: Global,
    def: TypeDef,
    numbers: Numbers,
    rows: &[PlainRow],
) -> Result<bool, NoMemory>
    ensures { IfOk result (λ valid. valid ≡ validity.is_valid_object def numbers.limit numbers.capacity numbers.peak rows.now) }
{
    if !is_type(def) {
        return Ok(false);
    }
    if !is_limit_of(def, numbers.limit) {
        return Ok(false);
    }
    if !is_capacity_of(def, rows, numbers.capacity) {
        return Ok(false);
    }
    if !is_peak_of(def, numbers.limit, rows, numbers.peak) {
        return Ok(false);
    }
    are_valid_rows(alloc, def, numbers.limit, rows)
}

fn is_valid_content(alloc: Global, entry: &Plain) -> Result<bool, NoMemory>
    ensures { IfOk result (λ valid. valid ≡ validity.is_valid_content entry.now) }
{
    match entry {
        Plain::Int { value, .. } => Ok(is_integer(*value)),
        Plain::Str { value, .. } => Ok(is_text(value)),
        Plain::Object {
            def,
            limit,
            capacity,
            peak,
            rows,
            ..
        } => {
            let numbers = Numbers {
                limit: *limit,
                capacity: *capacity,
                peak: *peak,
            };
            is_valid_object(alloc, *def, numbers, rows.items())
        }
    }
}

fn name_of(entry: &Plain) -> &[u8]
    ensures { result.now ≡ plains.name_of entry.now }
{
    match entry {
        Plain::Int { name, .. } => name.bytes(),
        Plain::Str { name, .. } => name.bytes(),
        Plain::Object { name, .. } => name.bytes(),
    }
}

/// Whether an entry may stand in a state.
pub fn is_valid_entry(alloc: Global, entry: &Plain) -> Result<bool, NoMemory>
    ensures { IfOk result (λ valid. valid ≡ validity.is_valid_entry entry.now) }
{
    if !is_name(name_of(entry)) {
        return Ok(false);
    }
    is_valid_content(alloc, entry)
}
