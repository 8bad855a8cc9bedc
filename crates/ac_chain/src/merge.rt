//! Values of one chain that move into another in the order of both.
ghost use Rattle.std.specs.Prelude.{◌≡◌, ◌+◌, ◌^◌, ◌<◌, ◌≤◌, IfOk, IfErr, drop, length};
ghost use Rattle.std.specs.Option.{ForSome};
ghost use Rattle.ac_base.specs.Rows.{values};
ghost use Rattle.ac_chain.specs.Rows.{IsLive, IsSound, cleared, place_of, slots_in};
ghost use Rattle.ac_chain.specs.Merging.{IsMerged, is_behind};
ghost use Rattle.ac_chain.specs.Put.{HasGrown};
ghost use Rattle.ac_chain.specs.Search.{found_in};

use crate::chain::Chain;
use ac_base::{GREATEST_LENGTH, Name, NoMemory, Rank, precedes};

/// The first place from this one on that the value goes before: level values stay in front.
fn place_for<T: Rank>(chain: &Chain<T>, from: Option<Name>, value: &T) -> Option<Name>
    requires from { ForSome from (IsLive chain.now) }
    requires sound { IsSound chain.now }
    ensures { result ≡ found_in (is_behind T.is_less) value.now (drop (place_of from chain.now.rows) chain.now.rows) }
{
    let mut place = from;
    while let Some(name) = place {
        if precedes(value, chain.at(name)) {
            return place;
        }
        place = chain.next(name);
    }
    None
}

/// Moves the values, the first one first, each before the first one that it is less than.
fn merge_each<T: Rank>(target: &mut Chain<T>, source: &mut Chain<T>)
    requires spare { length source.old.rows ≤ target.old.spare }
    requires unspent { target.old.next_serial + length source.old.rows < 2 ^ 64 }
    requires target { IsSound target.old }
    requires source { IsSound source.old }
    ensures merged { IsMerged T.is_less target.old (values source.old.rows) target.new }
    ensures slots { slots_in target.new ≡ slots_in target.old }
    ensures cleared { source.new ≡ cleared source.old }
    ensures target { IsSound target.new }
    ensures source { IsSound source.new }
{
    let mut place = target.first();
    while let Some(first) = source.first() {
        let value = source.remove(first);
        place = place_for(target, place, &value);
        target.insert_before(place, value);
    }
}

/// As `merge_each`, with all memory taken before any change.
pub fn merge_all<T: Rank>(target: &mut Chain<T>, source: &mut Chain<T>) -> Result<(), NoMemory>
    requires few { length target.old.rows + length source.old.rows ≤ GREATEST_LENGTH }
    requires unspent { target.old.next_serial + length source.old.rows < 2 ^ 64 }
    requires target { IsSound target.old }
    requires source { IsSound source.old }
    ensures merged { IfOk result (λ _. IsMerged T.is_less target.old (values source.old.rows) target.new) }
    ensures cleared { IfOk result (λ _. source.new ≡ cleared source.old) }
    ensures slots { IfOk result (λ _. HasGrown target.old (length source.old.rows) target.new) }
    ensures refused_target { IfErr result (λ _. target.new ≡ target.old) }
    ensures refused_source { IfErr result (λ _. source.new ≡ source.old) }
    ensures target { IsSound target.new }
    ensures source { IsSound source.new }
{
    target.reserve(source.len())?;
    merge_each(target, source);
    Ok(())
}
