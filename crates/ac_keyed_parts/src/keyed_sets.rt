ghost use Rattle.std.specs.Prelude.{◌≡◌, ◌<◌};

use crate::ordered::{set, tag};
use ac_base::{Fault, KeyOf, KeyedText, Limit, Reason, Steps, Text};
use ac_cursor::{Cursor, GuardKind, Guarded};
use ac_hashed::HashedSet;
use ac_ordered::OrderedSet;
use ac_setwork::algebra::{overlap, symmetric_into, union_into};
use std::alloc::Global;
use std::marker::Brand;
use std::process::Abort;
use std::sync::ledger::{Blank, Ledger};

fn text(rt: &impl Abort, alloc: Global, bytes: &[u8]) -> Text {
    match Text::new(alloc, bytes) {
        Ok(made) => made,
        Err(_) => panic!(rt; "no text"),
    }
}

/// An element, whose key is what stands before its first `=`.
fn item(rt: &impl Abort, alloc: Global, bytes: &[u8]) -> KeyedText {
    match KeyedText::new(alloc, text(rt, alloc, bytes)) {
        Ok(made) => made,
        Err(_) => panic!(rt; "no memory"),
    }
}

fn arrived(rt: &impl Abort, alloc: Global, items: &[&[u8]]) -> HashedSet<KeyedText> {
    match HashedSet::new(alloc, tag(rt, 1), Limit::Unbounded) {
        Ok(made) => {
            let mut made = made;
            for bytes in items {
                assert!(rt; made.insert(item(rt, alloc, bytes)).is_ok());
            }
            made
        }
        Err(_) => panic!(rt; "no memory"),
    }
}

fn ascending(rt: &impl Abort, alloc: Global, items: &[&[u8]]) -> OrderedSet<KeyedText> {
    let mut made = set(rt, alloc, 2, Limit::Unbounded);
    for bytes in items {
        assert!(rt; made.insert(item(rt, alloc, bytes)).is_ok());
    }
    made
}

fn is(element: Result<&KeyedText, Fault>, wanted: &[u8]) -> bool {
    match element {
        Ok(element) => element.text().bytes() == wanted,
        Err(_) => false,
    }
}

/// The element at the cursor becomes this one.
fn update_hashed(set: &mut HashedSet<KeyedText>, c: Cursor, copy: KeyedText) -> Result<(), Fault> {
    match set.start_update_key(c) {
        Ok((key, _element)) => set.end_update_key(c, key, copy),
        Err(fault) => Err(fault),
    }
}

fn update_ordered(
    set: &mut OrderedSet<KeyedText>,
    c: Cursor,
    copy: KeyedText,
) -> Result<(), Fault> {
    match set.start_update_key(c) {
        Ok((key, _element)) => set.end_update_key(c, key, copy),
        Err(fault) => Err(fault),
    }
}

/// What the set answers of a key: whether an element has it, and where that, its floor and its ceiling are.
fn sought<T: KeyOf, L: Ledger>(
    set: &OrderedSet<T>,
    key: &T::Key,
    blank: Blank,
) -> (bool, [Cursor; 3])
    requires name { blank.name ≡ L.name }
    requires parts { blank.parts ≡ L.parts }
    requires some { 0 < blank.parts }
{
    let mut steps = Steps::<L>::new(blank);
    let has = set.key_contains(key, &mut steps);
    let at = set.key_find(key, &mut steps);
    let floor = set.key_floor(key, &mut steps);
    let ceiling = set.key_ceiling(key, &mut steps);
    (has, [at, floor, ceiling])
}

fn seek<T: KeyOf>(set: &OrderedSet<T>, key: &T::Key) -> (bool, [Cursor; 3]) {
    sought::<T, Brand>(set, key, Blank::new(1))
}

#[test]
fn an_update_keeps_the_key_of_a_hashed_set(rt: HostRuntime) {
    let alloc = rt.alloc();
    let mut set = arrived(&rt, alloc, &[b"a=1", b"b=1"]);
    let c = set.first();
    assert!(rt; update_hashed(&mut set, c, item(&rt, alloc, b"a=2")).is_ok());
    assert!(rt; is(set.element(c), b"a=2") && set.held(GuardKind::Cursors) == 0);
    let changed = update_hashed(&mut set, c, item(&rt, alloc, b"b=2"));
    assert!(rt; changed == Err(Fault::Raised(Reason::KeyChanged)));
    assert!(rt; set.element(c).is_err() && set.length() == 1);
    assert!(rt; is(set.element(set.first()), b"b=1") && set.held(GuardKind::Cursors) == 0);
}

#[test]
fn an_update_keeps_the_key_of_an_ordered_set(rt: HostRuntime) {
    let alloc = rt.alloc();
    let mut set = ascending(&rt, alloc, &[b"b=1", b"a=1"]);
    let c = set.first();
    assert!(rt; update_ordered(&mut set, c, item(&rt, alloc, b"a=2")).is_ok());
    assert!(rt; is(set.element(c), b"a=2") && set.held(GuardKind::Cursors) == 0);
    let changed = update_ordered(&mut set, c, item(&rt, alloc, b"c=2"));
    assert!(rt; changed == Err(Fault::Raised(Reason::KeyChanged)));
    assert!(rt; set.element(c).is_err() && set.length() == 1);
    assert!(rt; is(set.first_element(), b"b=1") && set.held(GuardKind::Cursors) == 0);
}

#[test]
fn a_number_is_its_own_key(rt: HostRuntime) {
    let mut numbers = set::<i64>(&rt, rt.alloc(), 3, Limit::Unbounded);
    assert!(rt; numbers.insert(4).is_ok() && numbers.insert(2).is_ok());
    assert!(rt; numbers.key(numbers.first()).ok().copied() == Some(2));
    let (has, [at, _, ceiling]) = seek(&numbers, &3);
    assert!(rt; !has && at == Cursor::NoElement && ceiling == numbers.last());
}

#[test]
fn set_algebra_takes_a_hashed_set(rt: HostRuntime) {
    let alloc = rt.alloc();
    let mut set = arrived(&rt, alloc, &[b"a=1", b"b=1"]);
    let other = arrived(&rt, alloc, &[b"b=2", b"c=2"]);
    assert!(rt; union_into(&mut set, &other).is_ok());
    assert!(rt; set.length() == 3 && is(set.element(set.last()), b"c=2"));
    assert!(rt; symmetric_into(&mut set, &other).is_ok());
    assert!(rt; set.length() == 1 && !overlap(&set, &other));
}

#[test]
fn set_algebra_takes_an_ordered_set(rt: HostRuntime) {
    let alloc = rt.alloc();
    let mut set = ascending(&rt, alloc, &[b"d=1", b"b=1"]);
    let other = ascending(&rt, alloc, &[b"c=2", b"b=2"]);
    assert!(rt; union_into(&mut set, &other).is_ok());
    assert!(rt; set.length() == 3 && is(set.first_element(), b"b=1"));
    assert!(rt; symmetric_into(&mut set, &other).is_ok());
    assert!(rt; set.length() == 1 && !overlap(&set, &other));
}
