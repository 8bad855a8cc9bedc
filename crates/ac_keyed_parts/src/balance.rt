ghost use Rattle.std.specs.Prelude.{◌≡◌, ◌<◌, ◌-◌, ◌^◌, true};

use crate::laws::emptied;
use ac_balance::OrderIndex;
use ac_base::{Name, Steps};
use std::marker::Brand;
use std::sync::ledger::{Blank, Ledger};
use std::test::Fail;

/// Whether one row more can be added, for which there is memory.
fn has_room(index: &mut OrderIndex<i64, i64>) -> bool
    ensures spare { result ≡ true → 0 < index.new.spare }
    ensures serial { result ≡ true → index.new.next_serial < 2 ^ 64 - 1 }
{
    if index.len() >= 1 << 29 || index.reserve(1).is_err() {
        return false;
    }
    index.spare() > 0 && index.next_serial() < u64::MAX
}

/// Adds the key, where there is room for it or memory.
fn added(index: &mut OrderIndex<i64, i64>, k: i64) -> Option<Name> {
    if !has_room(index) {
        return None;
    }
    index.add(k, k.checked_neg()?).ok()
}

/// Another row with the key is refused, and handed back with the name of the one that is there.
fn is_present(index: &mut OrderIndex<i64, i64>, k: i64, v: i64, name: Option<Name>) -> bool {
    if !has_room(index) {
        return false;
    }
    match index.add(k, v) {
        Ok(_) => false,
        Err(present) => Some(present.at) == name && present.k == k && present.v == v,
    }
}

fn found_with<L: Ledger>(index: &OrderIndex<i64, i64>, k: i64, blank: Blank) -> Option<Name>
    requires name { blank.name ≡ L.name }
    requires parts { blank.parts ≡ L.parts }
    requires some { 0 < blank.parts }
{
    index.find(&k, &mut Steps::<L>::new(blank))
}

fn found(index: &OrderIndex<i64, i64>, k: i64) -> Option<Name> {
    found_with::<Brand>(index, k, Blank::new(1))
}

/// The keys are these, forwards and backwards.
fn holds(index: &OrderIndex<i64, i64>, wanted: &[i64]) -> bool {
    let mut place = index.first();
    for k in wanted {
        match place {
            Some(name) => {
                if index.key(name).copied() != Some(*k) {
                    return false;
                }
                place = next(index, name);
            }
            None => return false,
        }
    }
    place.is_none() && backwards(index, wanted)
}

fn next(index: &OrderIndex<i64, i64>, name: Name) -> Option<Name> {
    if index.is_there(name) {
        index.after(name)
    } else {
        None
    }
}

fn before(index: &OrderIndex<i64, i64>, name: Name) -> Option<Name> {
    if index.is_there(name) {
        index.before(name)
    } else {
        None
    }
}

fn backwards(index: &OrderIndex<i64, i64>, wanted: &[i64]) -> bool {
    let mut place = index.last();
    for k in wanted.iter().rev() {
        match place {
            Some(name) => {
                if index.key(name).copied() != Some(*k) {
                    return false;
                }
                place = before(index, name);
            }
            None => return false,
        }
    }
    place.is_none()
}

#[test]
fn an_equivalent_key_is_there_already(rt: HostRuntime) {
    let mut index = OrderIndex::new(rt.alloc());
    let name = added(&mut index, 5);
    assert!(rt; name.is_some());
    assert!(rt; is_present(&mut index, 5, 7, name));
    assert!(rt; index.len() == 1 && index.spare() == 7);
}

#[test]
fn a_cleared_index_keeps_its_slots(rt: HostRuntime) {
    let mut index = OrderIndex::new(rt.alloc());
    assert!(rt; added(&mut index, 5).is_some() && added(&mut index, 6).is_some());
    assert!(rt; emptied(&mut index).is_none());
    assert!(rt; index.len() == 0 && index.spare() == 8);
}

#[test]
fn each_shape_of_node_is_taken(rt: HostRuntime) -> Result<(), Fail> {
    let mut index = OrderIndex::new(rt.alloc());
    let mut names = Vec::new(rt.alloc());
    for k in [4, 2, 6, 1, 3, 5, 7, 8] {
        names.push(added(&mut index, k))?;
    }
    assert!(rt; holds(&index, &[1, 2, 3, 4, 5, 6, 7, 8]));
    assert!(rt; taken(&mut index, &names, 3));
    assert!(rt; holds(&index, &[2, 3, 4, 5, 6, 7, 8]));
    assert!(rt; taken(&mut index, &names, 6));
    assert!(rt; holds(&index, &[2, 3, 4, 5, 6, 8]));
    assert!(rt; taken(&mut index, &names, 0));
    assert!(rt; holds(&index, &[2, 3, 5, 6, 8]));
    assert!(rt; taken(&mut index, &names, 1));
    assert!(rt; holds(&index, &[3, 5, 6, 8]));
    assert!(rt; !taken(&mut index, &names, 1));
    assert!(rt; index.len() == 4 && index.spare() == 4 && index.next_serial() == 9);
    Ok(())
}

/// Takes the row that was added so many rows behind the first.
fn taken(index: &mut OrderIndex<i64, i64>, names: &Vec<Option<Name>>, i: usize) -> bool {
    match names.get(i) {
        Some(Some(name)) => index.take(*name).is_some(),
        _ => false,
    }
}

#[test]
fn two_hundred_thousand_keys_that_fall_stand_in_order(rt: HostRuntime) {
    let mut index = OrderIndex::new(rt.alloc());
    assert!(rt; falls(&mut index, 200000));
    assert!(rt; index.len() == 200000);
    assert!(rt; ascends(&index, 200000));
    for k in 1..200001i64 {
        assert!(rt; found(&index, k).is_some());
    }
    assert!(rt; found(&index, 0).is_none());
}

/// Adds the keys from `top` down to 1.
fn falls(index: &mut OrderIndex<i64, i64>, top: u32) -> bool {
    for i in 0..top {
        if added(index, (top - i) as i64).is_none() {
            return false;
        }
    }
    true
}

/// The rows have the keys from 1 to `top`.
fn ascends(index: &OrderIndex<i64, i64>, top: u32) -> bool {
    let mut place = index.first();
    for k in 0..top {
        match place {
            Some(name) => {
                if index.key(name).copied() != Some(k as i64 + 1) {
                    return false;
                }
                place = next(index, name);
            }
            None => return false,
        }
    }
    place.is_none()
}

#[test]
fn a_million_keys_come_and_go(rt: HostRuntime) -> Result<(), Fail> {
    let mut index = OrderIndex::new(rt.alloc());
    let mut names = Vec::new(rt.alloc());
    for i in 0..1000000u64 {
        names.push(added(&mut index, ((i * 618033) % 1000000) as i64))?;
    }
    assert!(rt; index.len() == 1000000);
    for name in names {
        if let Some(name) = name {
            assert!(rt; index.take(name).is_some());
        }
    }
    assert!(rt; index.len() == 0);
    Ok(())
}

#[test]
fn values_are_written(rt: HostRuntime) {
    let mut index = OrderIndex::new(rt.alloc());
    match added(&mut index, 10) {
        Some(name) => {
            if let Some(value) = index.value_mut(name) {
                *value = 7;
            }
            assert!(rt; index.value(name).copied() == Some(7));
        }
        None => panic!(rt; "no memory"),
    }
    index.clear();
    assert!(rt; index.len() == 0 && index.spare() == 8);
}
