use ac_base::{Fault, Limit, Reason};
use ac_cursor::{Cursor, Tag, TagMint};
use ac_list::List;
use std::alloc::Global;
use std::process::Abort;

pub(crate) fn tag(rt: &impl Abort, number: u64) -> Tag {
    match TagMint::starting_at(number).next() {
        Some(tag) => tag,
        None => panic!(rt; "no tag"),
    }
}

fn list(rt: &impl Abort, alloc: Global, number: u64, limit: Limit) -> List<i64> {
    assert!(rt; limit == Limit::Unbounded || limit == Limit::Bounded(2));
    match List::new(alloc, tag(rt, number), limit) {
        Ok(made) => made,
        Err(_) => panic!(rt; "no memory"),
    }
}

#[test]
fn a_copy_has_its_own_elements(rt: HostRuntime) {
    let mut list = list(&rt, rt.alloc(), 1, Limit::Unbounded);
    assert!(rt; list.append(10, 3).is_ok());
    match list.copy(rt.alloc(), tag(&rt, 2), 2) {
        Ok(_) => panic!(rt; "a copy without room"),
        Err(fault) => assert!(rt; fault == Fault::Raised(Reason::CapacityFull)),
    }
    match list.copy(rt.alloc(), tag(&rt, 2), 0) {
        Ok(copy) => {
            assert!(rt; list.clear().is_ok());
            assert!(rt; copy.number() == 2);
            assert!(rt; copy.length() == 3);
            assert!(rt; copy.last_element().ok().copied() == Some(10));
        }
        Err(_) => panic!(rt; "no memory"),
    }
}

#[test]
fn a_bounded_list_has_its_slots_from_the_first(rt: HostRuntime) {
    let mut list = list(&rt, rt.alloc(), 1, Limit::Bounded(2));
    assert!(rt; list.slots() == 2);
    assert!(rt; list.append(10, 2).is_ok());
    assert!(rt; list.slots() == 2 && list.live_nodes() == 2);
}

fn holds_one(list: &List<i64>, value: i64) -> bool {
    list.live_nodes() == 1 && list.last_element().ok().copied() == Some(value)
}

/// The name before the last one of 64 bits is given, and no later one; a call that gives none goes on.
#[test]
fn a_list_whose_names_are_spent_gives_none(rt: HostRuntime) {
    let mut list = List::starting_at(rt.alloc(), tag(&rt, 1), u64::MAX - 1);
    assert!(rt; list.append(10, 1).is_ok());
    let kept = list.first();
    assert!(rt; list.append(20, 1).err() == Some(Fault::Raised(Reason::NamesSpent)));
    assert!(rt; holds_one(&list, 10) && list.first() == kept);
    assert!(rt; list.append(20, 0).is_ok() && holds_one(&list, 10));
    assert!(rt; list.splice_within(Cursor::NoElement, kept).is_ok());
    assert!(rt; holds_one(&list, 10) && list.first() == kept);
}

#[test]
fn a_cleared_list_keeps_its_slots(rt: HostRuntime) {
    let mut list = list(&rt, rt.alloc(), 1, Limit::Unbounded);
    assert!(rt; list.append(10, 9).is_ok());
    assert!(rt; list.live_nodes() == 9 && list.slots() == 16);
    assert!(rt; list.clear().is_ok());
    assert!(rt; list.live_nodes() == 0 && list.slots() == 16);
    assert!(rt; list.append(20, 8).is_ok());
    assert!(rt; list.live_nodes() == 8 && list.slots() == 16);
}
