//! Values that are put into a chain as new rows, with all memory taken before any change.
ghost use Rattle.std.specs.Prelude.{◌≡◌, ◌≢◌, ◌∷◌, ◌+◌, ◌^◌, ◌<◌, ◌≤◌, true, IfOk, IfErr, IsOk, length, max, reverse, replicate};
ghost use Rattle.std.specs.Option.{ForSome};
ghost use Rattle.ac_chain.specs.Rows.{IsLive, IsSound, slots_in};
ghost use Rattle.ac_base.specs.Growth.{pow8};
ghost use Rattle.ac_chain.specs.Put.{IsPut, IsFirst, HasFirst};

use crate::chain::Chain;
use ac_base::{Elem, GREATEST_LENGTH, Name, NoMemory};
use std::alloc::Global;

/// So many copies of the element. None of them takes no memory.
#[inline(always)]
pub fn copies<T: Elem>(alloc: Global, e: &T, n: u64) -> Result<Vec<T>, NoMemory>
    ensures same { IfOk result (λ made. made.items ≡ replicate n e.now) }
    ensures none { n ≡ 0 → IsOk result }
{
    let mut made = Vec::new(alloc);
    for _i in 0..n {
        made.push(e.copy(alloc)?)?;
    }
    Ok(made)
}

/// Puts the first value before the place, and then the others, the last one first. The answer is the first one's name.
pub fn put_each<T: Drop>(
    chain: &mut Chain<T>,
    place: Option<Name>,
    first: T,
    mut others: Vec<T>,
) -> Name
    requires place { ForSome place (IsLive chain.old) }
    requires spare { length others.items < chain.old.spare }
    requires unspent { chain.old.next_serial + length others.items + 1 < 2 ^ 64 }
    requires sound { IsSound chain.old }
    ensures put { IsPut chain.old.rows chain.old.next_serial place (first ∷ reverse others.items) chain.new }
    ensures first { IsFirst chain.old.next_serial chain.new result }
    ensures spare { chain.new.spare + length others.items + 1 ≡ chain.old.spare }
    ensures sound { IsSound chain.new }
{
    let name = chain.insert_before(place, first);
    while let Some(value) = others.pop() {
        chain.insert_before(place, value);
    }
    name
}

/// The element itself anew.
#[inline(always)]
fn anew<T: Elem>(e: &T) -> T
    requires { T.is_unboxed ≡ true }
    ensures { result ≡ e.now }
{
    match e.unboxed() {
        Some(copy) => copy,
        None => unreachable!(),
    }
}

/// As `put_each`, where the others are so many copies of the first.
fn put_again<T: Elem>(chain: &mut Chain<T>, place: Option<Name>, e: T, more: u64) -> Name
    requires unboxed { T.is_unboxed ≡ true }
    requires place { ForSome place (IsLive chain.old) }
    requires spare { more < chain.old.spare }
    requires unspent { chain.old.next_serial + more + 1 < 2 ^ 64 }
    requires sound { IsSound chain.old }
    ensures put { IsPut chain.old.rows chain.old.next_serial place (e ∷ reverse (replicate more e)) chain.new }
    ensures first { IsFirst chain.old.next_serial chain.new result }
    ensures spare { chain.new.spare + more + 1 ≡ chain.old.spare }
    ensures sound { IsSound chain.new }
{
    let name = chain.insert_before(place, anew(&e));
    for _i in 0..more {
        chain.insert_before(place, anew(&e));
    }
    name
}

/// As `put_copies`, of elements that have no memory of their own: no copy stands anywhere else before.
fn put_unboxed<T: Elem>(
    chain: &mut Chain<T>,
    place: Option<Name>,
    e: T,
    n: u64,
) -> Result<Option<Name>, NoMemory>
    requires unboxed { T.is_unboxed ≡ true }
    requires some { n ≢ 0 }
    requires place { ForSome place (IsLive chain.old) }
    requires few { length chain.old.rows + n ≤ GREATEST_LENGTH }
    requires unspent { chain.old.next_serial + n < 2 ^ 64 }
    requires sound { IsSound chain.old }
    ensures put { IfOk result (λ _. IsPut chain.old.rows chain.old.next_serial place (replicate n e) chain.new) }
    ensures first { IfOk result (λ first. HasFirst chain.old.next_serial n chain.new first) }
    ensures refused { IfErr result (λ _. chain.new ≡ chain.old) }
    ensures room { n ≤ chain.old.spare → IsOk result }
    ensures slots { n ≤ chain.old.spare → slots_in chain.new ≡ slots_in chain.old }
    ensures grown { IfOk result (λ _. slots_in chain.new ≤ max (slots_in chain.old) (pow8 (length chain.new.rows))) }
    ensures sound { IsSound chain.new }
{
    chain.reserve(n)?;
    Ok(Some(put_again(chain, place, e, n - 1)))
}

/// Puts so many copies of the element before the place. The answer is the first one's name.
#[inline(always)]
pub fn put_copies<T: Elem>(
    chain: &mut Chain<T>,
    alloc: Global,
    place: Option<Name>,
    e: T,
    n: u64,
) -> Result<Option<Name>, NoMemory>
    requires place { ForSome place (IsLive chain.old) }
    requires few { length chain.old.rows + n ≤ GREATEST_LENGTH }
    requires unspent { chain.old.next_serial + n < 2 ^ 64 }
    requires sound { IsSound chain.old }
    ensures put { IfOk result (λ _. IsPut chain.old.rows chain.old.next_serial place (replicate n e) chain.new) }
    ensures first { IfOk result (λ first. HasFirst chain.old.next_serial n chain.new first) }
    ensures none { n ≡ 0 → chain.new ≡ chain.old }
    ensures refused { IfErr result (λ _. chain.new ≡ chain.old) }
    ensures room { n ≤ 1 → n ≤ chain.old.spare → IsOk result }
    ensures slots { n ≤ chain.old.spare → slots_in chain.new ≡ slots_in chain.old }
    ensures grown { IfOk result (λ _. slots_in chain.new ≤ max (slots_in chain.old) (pow8 (length chain.new.rows))) }
    ensures sound { IsSound chain.new }
{
    if n == 0 {
        return Ok(None);
    }
    if e.unboxed().is_some() {
        return put_unboxed(chain, place, e, n);
    }
    let more = copies(alloc, &e, n - 1)?;
    chain.reserve(n)?;
    Ok(Some(put_each(chain, place, e, more)))
}
