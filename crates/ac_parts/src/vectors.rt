use ac_base::Limit;
use ac_cursor::{Tag, TagMint};
use ac_vector::Vector;
use std::alloc::Global;
use std::process::Abort;

fn tag(rt: &impl Abort, number: u64) -> Tag {
    match TagMint::starting_at(number).next() {
        Some(tag) => tag,
        None => panic!(rt; "no tag"),
    }
}

fn made(rt: &impl Abort, alloc: Global, number: u64) -> Vector<i64> {
    match Vector::new(alloc, tag(rt, number), Limit::Unbounded) {
        Ok(made) => made,
        Err(_) => panic!(rt; "no memory"),
    }
}

#[test]
fn a_vector_is_copied(rt: HostRuntime) {
    let mut v = made(&rt, rt.alloc(), 1);
    assert!(rt; v.append(10, 1).is_ok() && v.append(20, 2).is_ok());
    match v.copy(rt.alloc(), tag(&rt, 2), 20) {
        Ok(copy) => assert!(rt; copy.capacity() == 32 && copy.number() == 2 && copy.equal(&v)),
        Err(_) => panic!(rt; "no copy"),
    }
}
