//! Values that move from one chain into another, under new names.
ghost use Rattle.std.specs.Prelude.{◌≡◌, ◌+◌, ◌^◌, ◌<◌, ◌≤◌, IfOk, IfErr, length, max};
ghost use Rattle.std.specs.Option.{ForSome};
ghost use Rattle.ac_base.specs.Growth.{pow8};
ghost use Rattle.ac_base.specs.Rows.{values};
ghost use Rattle.ac_chain.specs.Rows.{IsLive, IsSound, cleared, removed, slots_in, value_of};
ghost use Rattle.ac_chain.specs.Refill.{IsRefilled};
ghost use Rattle.ac_chain.specs.Put.{IsPut, IsFirst, HasGrown};
ghost use Rattle.ac_model.specs.Lists as lists;

use crate::chain::Chain;
use ac_base::{GREATEST_LENGTH, Name, NoMemory};

/// Moves the values before the place, the first one first.
fn move_each<T>(target: &mut Chain<T>, place: Option<Name>, source: &mut Chain<T>)
    requires place { ForSome place (IsLive target.old) }
    requires spare { length source.old.rows ≤ target.old.spare }
    requires unspent { target.old.next_serial + length source.old.rows < 2 ^ 64 }
    requires target { IsSound target.old }
    requires source { IsSound source.old }
    ensures put { IsPut target.old.rows target.old.next_serial place (values source.old.rows) target.new }
    ensures slots { slots_in target.new ≡ slots_in target.old }
    ensures cleared { source.new ≡ cleared source.old }
    ensures target { IsSound target.new }
    ensures source { IsSound source.new }
{
    while let Some(first) = source.first() {
        let value = source.remove(first);
        target.insert_before(place, value);
    }
}

/// Moves the values before the place, with all memory taken before any change.
pub fn move_before<T>(
    target: &mut Chain<T>,
    place: Option<Name>,
    source: &mut Chain<T>,
) -> Result<(), NoMemory>
    requires place { ForSome place (IsLive target.old) }
    requires few { length target.old.rows + length source.old.rows ≤ GREATEST_LENGTH }
    requires unspent { target.old.next_serial + length source.old.rows < 2 ^ 64 }
    requires target { IsSound target.old }
    requires source { IsSound source.old }
    ensures put { IfOk result (λ _. IsPut target.old.rows target.old.next_serial place (values source.old.rows) target.new) }
    ensures cleared { IfOk result (λ _. source.new ≡ cleared source.old) }
    ensures slots { IfOk result (λ _. HasGrown target.old (length source.old.rows) target.new) }
    ensures refused_target { IfErr result (λ _. target.new ≡ target.old) }
    ensures refused_source { IfErr result (λ _. source.new ≡ source.old) }
    ensures target { IsSound target.new }
    ensures source { IsSound source.new }
{
    target.reserve(source.len())?;
    move_each(target, place, source);
    Ok(())
}

/// Moves the values in place of those that were there.
pub fn move_all<T: Drop>(target: &mut Chain<T>, source: &mut Chain<T>) -> Result<(), NoMemory>
    requires few { length source.old.rows ≤ GREATEST_LENGTH }
    requires unspent { target.old.next_serial + length source.old.rows < 2 ^ 64 }
    requires target { IsSound target.old }
    requires source { IsSound source.old }
    ensures put { IfOk result (λ _. IsRefilled target.old (values source.old.rows) target.new) }
    ensures cleared { IfOk result (λ _. source.new ≡ cleared source.old) }
    ensures slots { length source.old.rows ≤ slots_in target.old → slots_in target.new ≡ slots_in target.old }
    ensures grown { IfOk result (λ _. slots_in target.new ≤ max (slots_in target.old) (pow8 (length target.new.rows))) }
    ensures refused_target { IfErr result (λ _. target.new ≡ target.old) }
    ensures refused_source { IfErr result (λ _. source.new ≡ source.old) }
    ensures target { IsSound target.new }
    ensures source { IsSound source.new }
{
    target.reserve(source.len().saturating_sub(target.len()))?;
    target.clear();
    move_each(target, None, source);
    Ok(())
}

/// Moves the value under the name before the place. The answer is its new name.
pub fn move_one<T>(
    target: &mut Chain<T>,
    place: Option<Name>,
    source: &mut Chain<T>,
    name: Name,
) -> Result<Name, NoMemory>
    requires place { ForSome place (IsLive target.old) }
    requires name { IsLive source.old name }
    requires few { length target.old.rows + 1 ≤ GREATEST_LENGTH }
    requires unspent { target.old.next_serial + 1 < 2 ^ 64 }
    requires target { IsSound target.old }
    requires source { IsSound source.old }
    ensures put { IfOk result (λ _.
        IsPut target.old.rows target.old.next_serial place (lists.one_value (value_of source.old name)) target.new) }
    ensures first { IfOk result (λ a. IsFirst target.old.next_serial target.new a) }
    ensures removed { IfOk result (λ _. source.new ≡ removed source.old name) }
    ensures slots { IfOk result (λ _. HasGrown target.old 1 target.new) }
    ensures refused_target { IfErr result (λ _. target.new ≡ target.old) }
    ensures refused_source { IfErr result (λ _. source.new ≡ source.old) }
    ensures target { IsSound target.new }
    ensures source { IsSound source.new }
{
    target.reserve(1)?;
    let value = source.remove(name);
    Ok(target.insert_before(place, value))
}
