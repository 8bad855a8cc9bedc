use crate::ordered::tag;
use ac_base::{Limit, Text};
use ac_hashed::{HashedMap, HashedSet};
use std::alloc::Global;
use std::process::Abort;

fn map(rt: &impl Abort, alloc: Global, limit: Limit) -> HashedMap<i64, i64> {
    assert!(rt; limit == Limit::Unbounded || limit == Limit::Bounded(2));
    match HashedMap::new(alloc, tag(rt, 1), limit) {
        Ok(made) => made,
        Err(_) => panic!(rt; "no memory"),
    }
}

fn set(rt: &impl Abort, alloc: Global) -> HashedSet<Text> {
    match HashedSet::new(alloc, tag(rt, 2), Limit::Unbounded) {
        Ok(made) => made,
        Err(_) => panic!(rt; "no memory"),
    }
}

fn text(rt: &impl Abort, alloc: Global, bytes: &[u8]) -> Text {
    match Text::new(alloc, bytes) {
        Ok(made) => made,
        Err(_) => panic!(rt; "no text"),
    }
}

#[test]
fn a_bounded_map_has_its_slots_from_the_first(rt: HostRuntime) {
    let map = map(&rt, rt.alloc(), Limit::Bounded(2));
    assert!(rt; map.slots() == 2);
}

#[test]
fn a_copy_has_the_capacity_that_was_asked_for(rt: HostRuntime) {
    let mut map = map(&rt, rt.alloc(), Limit::Unbounded);
    assert!(rt; map.insert(1, 10).is_ok());
    match map.copy(rt.alloc(), tag(&rt, 3), 100) {
        Ok(made) => {
            assert!(rt; made.capacity() == 128 && made.equal(&map));
            assert!(rt; made.key(made.last()).ok().copied() == Some(1));
        }
        Err(_) => panic!(rt; "no memory"),
    }
}

#[test]
fn a_set_is_copied(rt: HostRuntime) {
    let mut set = set(&rt, rt.alloc());
    assert!(rt; set.insert(text(&rt, rt.alloc(), b"AaAa")).is_ok());
    match set.copy(rt.alloc(), tag(&rt, 3), 0) {
        Ok(made) => assert!(rt; made.number() == 3 && made.equal(&set)),
        Err(_) => panic!(rt; "no memory"),
    }
}

#[test]
fn a_hashed_set_is_walked_backwards(rt: HostRuntime) {
    let mut set = set(&rt, rt.alloc());
    assert!(rt; set.insert(text(&rt, rt.alloc(), b"AaAa")).is_ok());
    assert!(rt; set.insert(text(&rt, rt.alloc(), b"BBBB")).is_ok());
    assert!(rt; set.find(&text(&rt, rt.alloc(), b"BBBB")) == set.last());
    assert!(rt; set.previous(set.last()) == Ok(set.first()));
}
