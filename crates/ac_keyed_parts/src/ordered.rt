ghost use Rattle.ac_base.specs.Limits.{IsLimit};

use ac_base::{Elem, KeyOf, Limit, Rank};
use ac_cursor::{Tag, TagMint};
use ac_ordered::{OrderedMap, OrderedSet};
use std::alloc::Global;
use std::process::Abort;

pub fn tag(rt: &impl Abort, number: u64) -> Tag {
    match TagMint::starting_at(number).next() {
        Some(tag) => tag,
        None => panic!(rt; "no tag"),
    }
}

pub fn set<T: KeyOf>(rt: &impl Abort, alloc: Global, number: u64, limit: Limit) -> OrderedSet<T>
    requires { IsLimit limit }
{
    match OrderedSet::new(alloc, tag(rt, number), limit) {
        Ok(made) => made,
        Err(_) => panic!(rt; "no memory"),
    }
}

fn map<K: Rank, V: Elem>(rt: &impl Abort, alloc: Global, number: u64) -> OrderedMap<K, V> {
    match OrderedMap::new(alloc, tag(rt, number), Limit::Unbounded) {
        Ok(made) => made,
        Err(_) => panic!(rt; "no memory"),
    }
}

#[test]
fn a_bounded_set_is_copied(rt: HostRuntime) {
    let mut set = set::<i64>(&rt, rt.alloc(), 1, Limit::Bounded(4));
    assert!(rt; set.insert(2).is_ok() && set.insert(1).is_ok());
    assert!(rt; set.slots() == 4 && set.live_nodes() == 2);
    assert!(rt; set.copy(rt.alloc(), tag(&rt, 2), 1).is_err());
    match set.copy(rt.alloc(), tag(&rt, 2), 3) {
        Ok(made) => assert!(rt; made.limit() == Limit::Bounded(3) && made.equal(&set)),
        Err(_) => panic!(rt; "no memory"),
    }
}

#[test]
fn a_map_is_copied(rt: HostRuntime) {
    let mut map = map::<i64, i64>(&rt, rt.alloc(), 1);
    assert!(rt; map.insert(2, 20).is_ok() && map.insert(1, 10).is_ok());
    match map.copy(rt.alloc(), tag(&rt, 2), 0) {
        Ok(made) => assert!(rt; made.equal(&map) && made.last_element().ok().copied() == Some(20)),
        Err(_) => panic!(rt; "no memory"),
    }
}
