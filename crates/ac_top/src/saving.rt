//! The state of the outermost variables and objects, behind a run's lines.
ghost use Rattle.std.specs.Prelude.{◌≡◌, ◌++◌, OnOk};
ghost use Rattle.ac_objects.specs.World.{state_of};
ghost use Rattle.ac_top.specs.Modes.{state_lines};

use crate::line::append;
use ac_base::NoMemory;
use ac_objects::Objects;
use ac_plains::append_state;
use ac_syntax::Decls;

/// Adds the line `--state` and the state of the outermost variables and objects, where it is wanted.
pub fn append_saved(
    text: &mut Vec<u8>,
    save: bool,
    decls: &Decls,
    objects: &Objects,
) -> Result<(), NoMemory>
    ensures { OnOk result (text.new.items ≡ text.old.items ++ state_lines save decls.now (state_of objects.now)) }
{
    if save {
        append(text, "--state\n")?;
        append_state(text, objects, decls)?;
    }
    Ok(())
}
