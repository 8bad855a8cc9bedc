//! Types as their declarations tell them.
ghost use Rattle.std.specs.Prelude.{◌≡◌, ◌++◌, OnOk};
ghost use Rattle.ac_snapshot.specs.StateTexts.{type_text};
ghost use Rattle.ac_snapshot.specs.TypeWords.{word_if, second_text};

use ac_printer::{elem_word, kind_word};
use ac_syntax::{ElemKind, TypeDef};
use std::alloc::AllocError;

/// Adds a word where it is wanted.
fn append_if(text: &mut Vec<u8>, is_wanted: bool, word: &[u8]) -> Result<(), AllocError>
    ensures { OnOk result (text.new.items ≡ text.old.items ++ word_if is_wanted word.now) }
{
    if is_wanted {
        text.extend_from_slice(word)
    } else {
        Ok(())
    }
}

fn append_second(text: &mut Vec<u8>, second: Option<ElemKind>) -> Result<(), AllocError>
    ensures { OnOk result (text.new.items ≡ text.old.items ++ second_text second) }
{
    match second {
        None => Ok(()),
        Some(elem) => {
            text.extend_from_slice(b", ")?;
            text.extend_from_slice(elem_word(elem).as_bytes())
        }
    }
}

/// Adds a type as `bounded list (integer)`.
#[tactic(auto, using(crate::proofs::WordByWord::word_by_word))]
pub fn append_type(text: &mut Vec<u8>, def: TypeDef) -> Result<(), AllocError>
    ensures { OnOk result (text.new.items ≡ text.old.items ++ type_text def) }
{
    append_if(text, def.bounded, b"bounded ")?;
    text.extend_from_slice(kind_word(def.kind).as_bytes())?;
    text.extend_from_slice(b" (")?;
    text.extend_from_slice(elem_word(def.first).as_bytes())?;
    append_second(text, def.second)?;
    text.extend_from_slice(b")")?;
    append_if(text, def.keyed, b" keyed")
}
