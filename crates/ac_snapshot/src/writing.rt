//! States as text.
ghost use Rattle.std.specs.Prelude.{◌≡◌, ◌++◌, ◌∷◌, [], codes, IfOk, OnOk};
ghost use Rattle.ac_calls.specs.declared.plains.Plain.TheVariants as plain;
ghost use Rattle.ac_snapshot.specs.StateTexts.{entry_text, state_text, number_text};

mod row_texts;
mod tree_texts;
mod type_texts;

use ac_base::NoMemory;
use ac_calls::{Plain, Plains};
use ac_printer::append_quoted;
use ac_syntax::Ident;
use itoa::Buffer;
use row_texts::append_rows;
use std::alloc::{AllocError, Global};
use type_texts::append_type;

/// Adds the word for a sort of entry and the name, with a space behind each.
fn append_head(text: &mut Vec<u8>, word: &[u8], name: &Ident) -> Result<(), AllocError>
    ensures { OnOk result (text.new.items ≡ text.old.items ++ (word.now ++ 32 ∷ (name.now ++ 32 ∷ []))) }
{
    text.extend_from_slice(word)?;
    text.push(b' ')?;
    text.extend_from_slice(name.bytes())?;
    Ok(text.push(b' ')?)
}

/// Adds a number behind its word, where there is a number.
fn append_number(text: &mut Vec<u8>, word: &[u8], number: Option<u64>) -> Result<(), AllocError>
    ensures { OnOk result (text.new.items ≡ text.old.items ++ number_text word.now number) }
{
    match number {
        None => Ok(()),
        Some(number) => {
            text.push(b' ')?;
            text.extend_from_slice(word)?;
            text.push(b' ')?;
            text.extend_from_slice(Buffer::new().format(number).as_bytes())
        }
    }
}

fn append_integer(text: &mut Vec<u8>, name: &Ident, value: i64) -> Result<(), AllocError>
    ensures { OnOk result (text.new.items ≡ text.old.items ++ entry_text (plain.Int name.now value)) }
{
    append_head(text, b"integer", name)?;
    text.extend_from_slice(Buffer::new().format(value).as_bytes())?;
    Ok(text.push(b'\n')?)
}

fn append_string(text: &mut Vec<u8>, name: &Ident, bytes: &[u8]) -> Result<(), AllocError>
    ensures { OnOk result (text.new.items ≡ text.old.items ++ entry_text (plain.Str name.now bytes.now)) }
{
    append_head(text, b"string", name)?;
    append_quoted(text, bytes)?;
    Ok(text.push(b'\n')?)
}

fn append_numbers(
    text: &mut Vec<u8>,
    limit: Option<u64>,
    capacity: Option<u64>,
    peak: Option<u64>,
) -> Result<(), AllocError>
    ensures { OnOk result (text.new.items ≡ text.old.items
        ++ (number_text (codes "limit") limit ++ (number_text (codes "capacity") capacity ++ number_text (codes "peak") peak))) }
{
    append_number(text, b"limit", limit)?;
    append_number(text, b"capacity", capacity)?;
    append_number(text, b"peak", peak)
}

/// Adds the line of an entry.
pub fn append_entry(text: &mut Vec<u8>, entry: &Plain) -> Result<(), NoMemory>
    ensures { OnOk result (text.new.items ≡ text.old.items ++ entry_text entry.now) }
{
    match entry {
        Plain::Int { name, value } => Ok(append_integer(text, name, *value)?),
        Plain::Str { name, value } => Ok(append_string(text, name, value.bytes())?),
        Plain::Object {
            name,
            def,
            limit,
            capacity,
            peak,
            rows,
        } => {
            append_head(text, b"object", name)?;
            append_type(text, *def)?;
            append_numbers(text, *limit, *capacity, *peak)?;
            text.push(b' ')?;
            append_rows(text, def.kind, rows.items())?;
            Ok(text.push(b'\n')?)
        }
    }
}

/// The text of a state.
pub fn write_state(alloc: Global, state: &Plains) -> Result<Vec<u8>, NoMemory>
    ensures { IfOk result (λ text. text.items ≡ state_text state.now) }
{
    let mut text = Vec::new(alloc);
    for entry in state.items() {
        append_entry(&mut text, entry)?;
    }
    Ok(text)
}
