use crate::ordered::tag;
use ac_base::{Fault, Limit, Reason};
use ac_cursor::{GuardKind, Guarded};
use ac_forms::Stable;
use ac_hashed::HashedSet;
use ac_ordered::OrderedSet;

#[test]
fn a_hashed_set_under_a_view_takes_no_element(rt: HostRuntime) {
    let mut set = match HashedSet::new(rt.alloc(), tag(&rt, 1), Limit::Unbounded) {
        Ok(set) => set,
        Err(_) => panic!(rt; "no memory"),
    };
    let mut stable = Stable::new(&mut set);
    assert!(rt; stable.base().insert(10_i64) == Err(Fault::Raised(Reason::CursorTampering)));
    assert!(rt; stable.view().held(GuardKind::Cursors) == 1);
    assert!(rt; stable.view().held(GuardKind::Elements) == 0);
    stable.close();
    assert!(rt; set.insert(10).is_ok());
}

#[test]
fn an_ordered_set_under_a_view_takes_no_element(rt: HostRuntime) {
    let mut set = match OrderedSet::new(rt.alloc(), tag(&rt, 1), Limit::Unbounded) {
        Ok(set) => set,
        Err(_) => panic!(rt; "no memory"),
    };
    let mut stable = Stable::new(&mut set);
    assert!(rt; stable.base().insert(10_i64) == Err(Fault::Raised(Reason::CursorTampering)));
    assert!(rt; stable.view().held(GuardKind::Cursors) == 1);
    assert!(rt; stable.view().held(GuardKind::Elements) == 0);
    stable.close();
    assert!(rt; set.insert(10).is_ok());
}
