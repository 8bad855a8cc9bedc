//! Values that are put into an array as new rows: behind the last one, and then the end is turned to its place.
ghost use Rattle.std.specs.Prelude.{◌≡◌, ◌==◌, ◌+◌, ◌-◌, ◌^◌, ◌<◌, ◌≤◌, ◌∷◌, ◌++◌, [], None, Some, IfOk, IfErr, IsOk, length, replicate, if◌then◌else◌};
ghost use Rattle.std.specs.Option.{ForSome};
ghost use Rattle.ac_chain.specs.Rows.{IsLive, IsSound, place_of, reserved, slots_in};
ghost use Rattle.ac_pool.specs.NamedRows.{name_at};
ghost use Rattle.ac_chain.specs.Put.{IsPut, IsFirst, HasFirst};

use crate::array::Array;
use ac_base::{Elem, GREATEST_LENGTH, Name, NoMemory};
use ac_chain::{Walked, copies};
use std::alloc::Global;

/// The place before which a value goes: before the name's row, or at the end.
fn index_before<T>(array: &Array<T>, place: Option<Name>) -> u64
    requires { ForSome place (IsLive array.now) }
    ensures { result ≡ place_of place array.now.rows }
{
    match place {
        None => array.len(),
        Some(name) => array.index_of(name),
    }
}

/// The name of the first of so many rows from the place on.
fn first_of<T>(array: &Array<T>, place: u64, count: u64) -> Option<Name>
    requires { place + count ≤ length array.now.rows }
    ensures { result ≡ (if count == 0 then None else name_at array.now.rows place) }
{
    if count == 0 {
        None
    } else {
        Some(array.name_at(place))
    }
}

/// Puts the values behind the last row.
pub(crate) fn append_each<T: Drop>(array: &mut Array<T>, values: Vec<T>)
    requires spare { length values.items ≤ array.old.spare }
    requires unspent { array.old.next_serial + length values.items < 2 ^ 64 }
    requires sound { IsSound array.old }
    ensures put { IsPut array.old.rows array.old.next_serial None values.items array.new }
    ensures spare { array.new.spare + length values.items ≡ array.old.spare }
    ensures sound { IsSound array.new }
{
    for value in values {
        array.append(value);
    }
}

/// Puts the values before the place. The answer is the first one's name.
fn put_values<T: Drop>(array: &mut Array<T>, place: Option<Name>, values: Vec<T>) -> Option<Name>
    requires place { ForSome place (IsLive array.old) }
    requires spare { length values.items ≤ array.old.spare }
    requires unspent { array.old.next_serial + length values.items < 2 ^ 64 }
    requires sound { IsSound array.old }
    ensures put { IsPut array.old.rows array.old.next_serial place values.items array.new }
    ensures first { HasFirst array.old.next_serial (length values.items) array.new result }
    ensures spare { array.new.spare + length values.items ≡ array.old.spare }
    ensures sound { IsSound array.new }
{
    let at = index_before(array, place);
    let count = values.len() as u64;
    append_each(array, values);
    array.turn(at, count);
    first_of(array, at, count)
}

/// As `put_values`, with all memory taken before any change.
pub(crate) fn put_all<T: Drop>(
    array: &mut Array<T>,
    place: Option<Name>,
    values: Vec<T>,
) -> Result<Option<Name>, NoMemory>
    requires place { ForSome place (IsLive array.old) }
    requires few { length array.old.rows + length values.items ≤ GREATEST_LENGTH }
    requires unspent { array.old.next_serial + length values.items < 2 ^ 64 }
    requires sound { IsSound array.old }
    ensures put { IfOk result (λ _. IsPut array.old.rows array.old.next_serial place values.items array.new) }
    ensures first { IfOk result (λ first. HasFirst array.old.next_serial (length values.items) array.new first) }
    ensures none { length values.items ≡ 0 → array.new ≡ array.old }
    ensures refused { IfErr result (λ _. array.new ≡ array.old) }
    ensures slots { IfOk result (λ _. slots_in array.new ≡ slots_in (reserved array.old (length values.items))) }
    ensures sound { IsSound array.new }
{
    array.reserve(values.len() as u64)?;
    Ok(put_values(array, place, values))
}

/// Puts the values before the place, and the last one.
fn put_with_last<T: Drop>(
    array: &mut Array<T>,
    place: Option<Name>,
    others: Vec<T>,
    last: T,
) -> Option<Name>
    requires place { ForSome place (IsLive array.old) }
    requires spare { length others.items < array.old.spare }
    requires unspent { array.old.next_serial + length others.items + 1 < 2 ^ 64 }
    requires sound { IsSound array.old }
    ensures put { IsPut array.old.rows array.old.next_serial place (others.items ++ last ∷ []) array.new }
    ensures first { HasFirst array.old.next_serial (length others.items + 1) array.new result }
    ensures spare { array.new.spare + length others.items + 1 ≡ array.old.spare }
    ensures sound { IsSound array.new }
{
    let at = index_before(array, place);
    let count = others.len() as u64 + 1;
    append_each(array, others);
    array.append(last);
    array.turn(at, count);
    first_of(array, at, count)
}

/// Puts the value before the name's row. The answer is the new row's name.
#[inline(never)]
fn put_before<T>(array: &mut Array<T>, name: Name, value: T) -> Name
    requires place { IsLive array.old name }
    requires spare { 0 < array.old.spare }
    requires unspent { array.old.next_serial < 2 ^ 64 - 1 }
    requires sound { IsSound array.old }
    ensures put { IsPut array.old.rows array.old.next_serial (Some name) (value ∷ []) array.new }
    ensures first { IsFirst array.old.next_serial array.new result }
    ensures spare { array.new.spare + 1 ≡ array.old.spare }
    ensures sound { IsSound array.new }
{
    let at = array.index_of(name);
    let _last = array.append(value);
    array.turn(at, 1);
    array.name_at(at)
}

/// Puts the value before the place. The answer is the new row's name.
#[inline(always)]
fn put_value<T>(array: &mut Array<T>, place: Option<Name>, value: T) -> Name
    requires place { ForSome place (IsLive array.old) }
    requires spare { 0 < array.old.spare }
    requires unspent { array.old.next_serial < 2 ^ 64 - 1 }
    requires sound { IsSound array.old }
    ensures put { IsPut array.old.rows array.old.next_serial place (value ∷ []) array.new }
    ensures first { IsFirst array.old.next_serial array.new result }
    ensures spare { array.new.spare + 1 ≡ array.old.spare }
    ensures sound { IsSound array.new }
{
    match place {
        None => array.append(value),
        Some(name) => put_before(array, name, value),
    }
}

/// As `put_value`, with all memory taken before any change.
#[inline(always)]
fn put_single<T: Drop>(
    array: &mut Array<T>,
    place: Option<Name>,
    value: T,
) -> Result<Option<Name>, NoMemory>
    requires place { ForSome place (IsLive array.old) }
    requires few { length array.old.rows + 1 ≤ GREATEST_LENGTH }
    requires unspent { array.old.next_serial < 2 ^ 64 - 1 }
    requires sound { IsSound array.old }
    ensures put { IfOk result (λ _. IsPut array.old.rows array.old.next_serial place (value ∷ []) array.new) }
    ensures first { IfOk result (λ first. HasFirst array.old.next_serial 1 array.new first) }
    ensures refused { IfErr result (λ _. array.new ≡ array.old) }
    ensures room { 1 ≤ array.old.spare → IsOk result }
    ensures slots { IfOk result (λ _. slots_in array.new ≡ slots_in (reserved array.old 1)) }
    ensures sound { IsSound array.new }
{
    array.reserve(1)?;
    Ok(Some(put_value(array, place, value)))
}

/// Puts several copies of the element before the place, with all memory taken before any change.
#[inline(never)]
fn put_several<T: Elem>(
    array: &mut Array<T>,
    alloc: Global,
    place: Option<Name>,
    e: T,
    n: u64,
) -> Result<Option<Name>, NoMemory>
    requires several { 1 < n }
    requires place { ForSome place (IsLive array.old) }
    requires few { length array.old.rows + n ≤ GREATEST_LENGTH }
    requires unspent { array.old.next_serial + n < 2 ^ 64 }
    requires sound { IsSound array.old }
    ensures put { IfOk result (λ _. IsPut array.old.rows array.old.next_serial place (replicate n e) array.new) }
    ensures first { IfOk result (λ first. HasFirst array.old.next_serial n array.new first) }
    ensures refused { IfErr result (λ _. array.new ≡ array.old) }
    ensures slots { IfOk result (λ _. slots_in array.new ≡ slots_in (reserved array.old n)) }
    ensures sound { IsSound array.new }
{
    let more = copies(alloc, &e, n - 1)?;
    array.reserve(n)?;
    Ok(put_with_last(array, place, more, e))
}

/// Puts so many copies of the element before the place, with all memory taken before any change. The answer is the first one's name.
#[inline(always)]
pub(crate) fn put_copies<T: Elem>(
    array: &mut Array<T>,
    alloc: Global,
    place: Option<Name>,
    e: T,
    n: u64,
) -> Result<Option<Name>, NoMemory>
    requires place { ForSome place (IsLive array.old) }
    requires few { length array.old.rows + n ≤ GREATEST_LENGTH }
    requires unspent { array.old.next_serial + n < 2 ^ 64 }
    requires sound { IsSound array.old }
    ensures put { IfOk result (λ _. IsPut array.old.rows array.old.next_serial place (replicate n e) array.new) }
    ensures first { IfOk result (λ first. HasFirst array.old.next_serial n array.new first) }
    ensures none { n ≡ 0 → array.new ≡ array.old }
    ensures refused { IfErr result (λ _. array.new ≡ array.old) }
    ensures room { n ≤ 1 → n ≤ array.old.spare → IsOk result }
    ensures slots { IfOk result (λ _. slots_in array.new ≡ slots_in (reserved array.old n)) }
    ensures sound { IsSound array.new }
{
    if n == 0 {
        return Ok(None);
    }
    if n == 1 {
        return put_single(array, place, e);
    }
    put_several(array, alloc, place, e, n)
}
