//! Values of one array that move into another, under new names.
ghost use Rattle.std.specs.Prelude.{◌≡◌, ◌+◌, ◌-◌, ◌^◌, ◌<◌, ◌≤◌, None, IfOk, IfErr, length, max, reverse};
ghost use Rattle.ac_base.specs.Growth.{pow8};
ghost use Rattle.ac_base.specs.Rows.{values};
ghost use Rattle.ac_chain.specs.Rows.{IsSound, cleared, reserved, slots_in};
ghost use Rattle.ac_chain.specs.Refill.{IsRefilled};
ghost use Rattle.ac_chain.specs.Put.{IsPut};
ghost use Rattle.ac_chain.specs.Merging.{IsMerged};

use crate::array::Array;
use ac_base::{GREATEST_LENGTH, NoMemory, Rank};
use ac_chain::Walked;
use std::alloc::Global;

/// Moves the values behind the last row, the source's last one first.
fn move_back<T>(target: &mut Array<T>, source: &mut Array<T>)
    requires spare { length source.old.rows ≤ target.old.spare }
    requires unspent { target.old.next_serial + length source.old.rows < 2 ^ 64 }
    requires target { IsSound target.old }
    requires source { IsSound source.old }
    ensures put { IsPut target.old.rows target.old.next_serial None (reverse (values source.old.rows)) target.new }
    ensures spare { target.new.spare + length source.old.rows ≡ target.old.spare }
    ensures cleared { source.new ≡ cleared source.old }
    ensures target { IsSound target.new }
    ensures source { IsSound source.new }
{
    while let Some(value) = source.pop() {
        target.append(value);
    }
}

/// Moves the values behind the last row.
fn move_end<T>(target: &mut Array<T>, source: &mut Array<T>)
    requires spare { length source.old.rows ≤ target.old.spare }
    requires unspent { target.old.next_serial + length source.old.rows < 2 ^ 64 }
    requires target { IsSound target.old }
    ensures put { IsPut target.old.rows target.old.next_serial None (values source.old.rows) target.new }
    ensures spare { target.new.spare + length source.old.rows ≡ target.old.spare }
    ensures cleared { source.new ≡ cleared source.old }
    ensures target { IsSound target.new }
    ensures source { IsSound source.new }
{
    source.reverse_values();
    move_back(target, source);
}

/// Moves the values in place of those that were there, with all memory taken before any change.
pub(crate) fn move_all<T: Drop>(
    target: &mut Array<T>,
    source: &mut Array<T>,
) -> Result<(), NoMemory>
    requires few { length source.old.rows ≤ GREATEST_LENGTH }
    requires unspent { target.old.next_serial + length source.old.rows < 2 ^ 64 }
    requires target { IsSound target.old }
    requires source { IsSound source.old }
    ensures put { IfOk result (λ _. IsRefilled target.old (values source.old.rows) target.new) }
    ensures cleared { IfOk result (λ _. source.new ≡ cleared source.old) }
    ensures slots { IfOk result (λ _.
        slots_in target.new ≡ slots_in (reserved target.old (length source.old.rows - length target.old.rows))) }
    ensures grown { IfOk result (λ _. slots_in target.new ≤ max (slots_in target.old) (pow8 (length target.new.rows))) }
    ensures refused_target { IfErr result (λ _. target.new ≡ target.old) }
    ensures refused_source { IfErr result (λ _. source.new ≡ source.old) }
    ensures target { IsSound target.new }
    ensures source { IsSound source.new }
{
    target.reserve(source.len().saturating_sub(target.len()))?;
    target.clear();
    move_end(target, source);
    Ok(())
}

/// Moves the values, each before the first one that it is less than, with all memory taken before any change.
pub(crate) fn merge_all<T: Rank>(
    target: &mut Array<T>,
    source: &mut Array<T>,
    alloc: Global,
) -> Result<(), NoMemory>
    requires few { length target.old.rows + length source.old.rows ≤ GREATEST_LENGTH }
    requires unspent { target.old.next_serial + length source.old.rows < 2 ^ 64 }
    requires target { IsSound target.old }
    requires source { IsSound source.old }
    ensures merged { IfOk result (λ _. IsMerged T.is_less target.old (values source.old.rows) target.new) }
    ensures cleared { IfOk result (λ _. source.new ≡ cleared source.old) }
    ensures slots { IfOk result (λ _. slots_in target.new ≡ slots_in (reserved target.old (length source.old.rows))) }
    ensures refused_target { IfErr result (λ _. target.new ≡ target.old) }
    ensures refused_source { IfErr result (λ _. source.new ≡ source.old) }
    ensures target { IsSound target.new }
    ensures source { IsSound source.new }
{
    let seam = target.len();
    let mine = Vec::with_capacity(alloc, seam as usize)?;
    let theirs = Vec::with_capacity(alloc, source.len() as usize)?;
    target.reserve(source.len())?;
    move_end(target, source);
    target.interleave(seam, mine, theirs);
    Ok(())
}
