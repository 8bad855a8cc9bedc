//! A chain whose rows give way to copies of another's, with all memory taken before any change.
ghost use Rattle.std.specs.Prelude.{◌≡◌, ◌+◌, ◌^◌, ◌<◌, ◌≤◌, IfOk, IfErr, None, length, max, reverse};
ghost use Rattle.ac_base.specs.Growth.{pow8};
ghost use Rattle.ac_chain.specs.Rows.{IsSound, slots_in};
ghost use Rattle.ac_chain.specs.Put.{IsPut};
ghost use Rattle.ac_chain.specs.Refill.{IsRefilled};
ghost use Rattle.ac_base.specs.Rows.{values};

use crate::chain::Chain;
use crate::put::put_each;
use ac_base::{Elem, GREATEST_LENGTH, NoMemory};
use std::alloc::Global;

/// Copies of the values, the last one first.
fn copies_back<T: Elem>(chain: &Chain<T>, alloc: Global) -> Result<Vec<T>, NoMemory>
    requires sound { IsSound chain.now }
    ensures same { IfOk result (λ made. made.items ≡ reverse (values chain.now.rows)) }
{
    let mut made = Vec::new(alloc);
    let mut place = chain.last();
    while let Some(name) = place {
        made.push(chain.at(name).copy(alloc)?)?;
        place = chain.prev(name);
    }
    Ok(made)
}

/// Puts the values at the end, the last one first.
fn put_values<T: Drop>(chain: &mut Chain<T>, mut values: Vec<T>)
    requires spare { length values.items ≤ chain.old.spare }
    requires unspent { chain.old.next_serial + length values.items < 2 ^ 64 }
    requires sound { IsSound chain.old }
    ensures put { IsPut chain.old.rows chain.old.next_serial None (reverse values.items) chain.new }
    ensures spare { chain.new.spare + length values.items ≡ chain.old.spare }
    ensures sound { IsSound chain.new }
{
    match values.pop() {
        None => {}
        Some(first) => {
            put_each(chain, None, first, values);
        }
    }
}

/// Copies of the source's values come in place of the rows.
pub fn refill<T: Elem>(
    chain: &mut Chain<T>,
    source: &Chain<T>,
    alloc: Global,
) -> Result<(), NoMemory>
    requires few { length source.now.rows ≤ GREATEST_LENGTH }
    requires unspent { chain.old.next_serial + length source.now.rows < 2 ^ 64 }
    requires sound { IsSound chain.old }
    requires source { IsSound source.now }
    ensures put { IfOk result (λ _. IsRefilled chain.old (values source.now.rows) chain.new) }
    ensures refused { IfErr result (λ _. chain.new ≡ chain.old) }
    ensures slots { length source.now.rows ≤ slots_in chain.old → slots_in chain.new ≡ slots_in chain.old }
    ensures grown { IfOk result (λ _. slots_in chain.new ≤ max (slots_in chain.old) (pow8 (length chain.new.rows))) }
    ensures sound { IsSound chain.new }
{
    let values = copies_back(source, alloc)?;
    chain.reserve(source.len().saturating_sub(chain.len()))?;
    chain.clear();
    put_values(chain, values);
    Ok(())
}
