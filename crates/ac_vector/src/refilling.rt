//! An array whose rows give way to copies of another's, with all memory taken before any change.
ghost use Rattle.std.specs.Prelude.{◌≡◌, ◌+◌, ◌-◌, ◌^◌, ◌<◌, ◌≤◌, IfOk, IfErr, length, max};
ghost use Rattle.ac_base.specs.Growth.{pow8};
ghost use Rattle.ac_base.specs.Rows.{values};
ghost use Rattle.ac_chain.specs.Rows.{IsSound, reserved, slots_in};
ghost use Rattle.ac_chain.specs.Refill.{IsRefilled};

use crate::array::Array;
use crate::put::append_each;
use ac_base::{Elem, GREATEST_LENGTH, NoMemory};
use ac_chain::Walked;
use std::alloc::Global;

/// Copies of the values.
pub(crate) fn copies_of<T: Elem>(values: &[T], alloc: Global) -> Result<Vec<T>, NoMemory>
    ensures { IfOk result (λ made. made.items ≡ values.now) }
{
    let mut made = Vec::new(alloc);
    for value in values {
        made.push(value.copy(alloc)?)?;
    }
    Ok(made)
}

/// Copies of the source's values come in place of the rows.
pub(crate) fn refill<T: Elem>(
    array: &mut Array<T>,
    source: &Array<T>,
    alloc: Global,
) -> Result<(), NoMemory>
    requires few { length source.now.rows ≤ GREATEST_LENGTH }
    requires unspent { array.old.next_serial + length source.now.rows < 2 ^ 64 }
    requires sound { IsSound array.old }
    ensures put { IfOk result (λ _. IsRefilled array.old (values source.now.rows) array.new) }
    ensures refused { IfErr result (λ _. array.new ≡ array.old) }
    ensures slots { IfOk result (λ _. slots_in array.new ≡ slots_in (reserved array.old (length source.now.rows - length array.old.rows))) }
    ensures grown { IfOk result (λ _. slots_in array.new ≤ max (slots_in array.old) (pow8 (length array.new.rows))) }
    ensures sound { IsSound array.new }
{
    let copies = copies_of(source.values(), alloc)?;
    array.reserve(source.len().saturating_sub(array.len()))?;
    array.clear();
    append_each(array, copies);
    Ok(())
}
