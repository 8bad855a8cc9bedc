//! Rows as Print lists them.
ghost use Rattle.std.specs.Prelude.{◌≡◌, ◌++◌, OnOk};
ghost use Rattle.ac_calls.specs.Listings.{after_commas, separated, bracketed};
ghost use Rattle.ac_snapshot.specs.StateTexts.{row_text, rows_text};

use super::tree_texts::append_tree;
use ac_calls::PlainRow;
use ac_printer::append_literal;
use ac_syntax::Kind;
use std::alloc::AllocError;

/// Adds a value, behind its key where it has one.
fn append_row(text: &mut Vec<u8>, row: &PlainRow) -> Result<(), AllocError>
    ensures { OnOk result (text.new.items ≡ text.old.items ++ row_text row.now) }
{
    match &row.key {
        None => append_literal(text, &row.value),
        Some(key) => {
            append_literal(text, key)?;
            text.extend_from_slice(b" => ")?;
            append_literal(text, &row.value)
        }
    }
}

/// Adds each row behind a comma.
fn append_more_rows(text: &mut Vec<u8>, rows: &[PlainRow]) -> Result<(), AllocError>
    ensures { OnOk result (text.new.items ≡ text.old.items ++ after_commas row_text rows.now) }
{
    for row in rows {
        text.extend_from_slice(b", ")?;
        append_row(text, row)?;
    }
    Ok(())
}

fn append_separated(text: &mut Vec<u8>, rows: &[PlainRow]) -> Result<(), AllocError>
    ensures { OnOk result (text.new.items ≡ text.old.items ++ separated row_text rows.now) }
{
    match rows {
        [] => Ok(()),
        [first, more @ ..] => {
            append_row(text, first)?;
            append_more_rows(text, more)
        }
    }
}

fn append_bracketed(text: &mut Vec<u8>, rows: &[PlainRow]) -> Result<(), AllocError>
    ensures { OnOk result (text.new.items ≡ text.old.items ++ bracketed row_text rows.now) }
{
    text.extend_from_slice(b"[")?;
    append_separated(text, rows)?;
    text.extend_from_slice(b"]")
}

/// Adds the rows of an object of this kind.
pub fn append_rows(text: &mut Vec<u8>, kind: Kind, rows: &[PlainRow]) -> Result<(), AllocError>
    ensures { OnOk result (text.new.items ≡ text.old.items ++ rows_text kind rows.now) }
{
    match kind {
        Kind::Tree => append_tree(text, rows),
        _ => append_bracketed(text, rows),
    }
}
