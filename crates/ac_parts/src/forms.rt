use crate::lists::tag;
use ac_base::{Fault, Limit, Reason};
use ac_cursor::{GuardKind, Guarded};
use ac_forms::Stable;
use ac_list::List;

#[test]
fn a_list_under_a_view_takes_no_element(rt: HostRuntime) {
    let mut list = match List::new(rt.alloc(), tag(&rt, 1), Limit::Unbounded) {
        Ok(list) => list,
        Err(_) => panic!(rt; "no memory"),
    };
    let mut stable = Stable::new(&mut list);
    assert!(rt; stable.base().append(10_i64, 1) == Err(Fault::Raised(Reason::ElementTampering)));
    assert!(rt; stable.view().held(GuardKind::Elements) == 1);
    stable.close();
    assert!(rt; list.append(10, 1).is_ok());
}
