//! The state of the outermost variables and objects as text.
ghost use Rattle.std.specs.Prelude.{◌≡◌, ◌++◌, OnOk, map, option_to_list};
ghost use Rattle.ac_meaning.specs.Environment.{bound_at};
ghost use Rattle.ac_meaning.specs.Plains.{plain_in, plains_of};
ghost use Rattle.ac_objects.specs.World.{state_of};
ghost use Rattle.ac_rules.specs.Faults.{decl_name};
ghost use Rattle.ac_snapshot.specs.StateTexts.{state_text};

use crate::plains::{name_of, plain_at};
use ac_base::NoMemory;
use ac_objects::Objects;
use ac_snapshot::append_entry;
use ac_syntax::{Decl, Decls};

/// Adds the line of what the name that is declared at this place holds, if it is a plain value.
fn append_at(
    text: &mut Vec<u8>,
    objects: &Objects,
    place: usize,
    decl: &Decl,
) -> Result<(), NoMemory>
    ensures { OnOk result (text.new.items
        ≡ text.old.items ++ state_text (option_to_list (plain_in (decl_name decl.now) (bound_at (state_of objects.now) place)))) }
{
    match plain_at(objects, place, name_of(decl))? {
        Some(entry) => append_entry(text, &entry),
        None => Ok(()),
    }
}

/// Adds the state of the variables and objects that these declarations made. One entry is made and written after another, so that no two
/// objects are copied at once.
pub fn append_state(text: &mut Vec<u8>, objects: &Objects, decls: &Decls) -> Result<(), NoMemory>
    ensures { OnOk result (text.new.items ≡ text.old.items ++ state_text (plains_of (map decl_name decls.now) (state_of objects.now))) }
{
    let items = decls.items();
    for place in 0..items.len() {
        append_at(text, objects, place, &items[place])?;
    }
    Ok(())
}
