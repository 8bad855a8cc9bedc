use crate::laws::passed_through;
use ac_base::Name;
use ac_pool::{Pool, PutFault};
use std::cell::Cell;
use std::process::Abort;
use std::test::Fail;

fn put<T: Drop>(rt: &impl Abort, pool: &mut Pool<T>, value: T) -> Name {
    assert!(rt; pool.live() < 1000);
    match pool.put(value) {
        Ok(name) => name,
        Err(_) => panic!(rt; "no memory"),
    }
}

#[test]
fn a_taken_name_is_gone_and_its_slot_is_used_again(rt: HostRuntime) {
    let mut pool = Pool::new(rt.alloc());
    let first = put(&rt, &mut pool, 10u64);
    let second = put(&rt, &mut pool, 20);
    let third = put(&rt, &mut pool, 30);
    assert!(rt; pool.take(second) == Some(20));
    let fourth = put(&rt, &mut pool, 40);
    assert!(rt; fourth.serial == 4);
    assert!(rt; pool.get(second).is_none());
    assert!(rt; pool.take(second).is_none());
    assert!(rt; pool.get(first).copied() == Some(10));
    assert!(rt; pool.get(third).copied() == Some(30));
    assert!(rt; pool.get(fourth).copied() == Some(40));
    assert!(rt; pool.live() == 3);
    assert!(rt; pool.slots() == 8);
    assert!(rt; pool.spare() == 5);
    assert!(rt; pool.next_serial() == 5);
}

#[test]
fn the_last_serials_are_given_and_then_values_come_back(rt: HostRuntime) {
    let mut pool = Pool::starting_at(rt.alloc(), u64::MAX - 2);
    assert!(rt; put(&rt, &mut pool, 1u64).serial == u64::MAX - 2);
    assert!(rt; put(&rt, &mut pool, 2).serial == u64::MAX - 1);
    assert!(rt; pool.live() == 2);
    match pool.put(3) {
        Err(PutFault::Spent(v)) => assert!(rt; v == 3),
        _ => panic!(rt; "a serial was given"),
    }
}

#[test]
fn slots_double_and_stay(rt: HostRuntime) -> Result<(), Fail> {
    let mut pool = Pool::new(rt.alloc());
    let mut names = Vec::new(rt.alloc());
    for v in 0..9u64 {
        names.push(put(&rt, &mut pool, v))?;
    }
    assert!(rt; pool.slots() == 16);
    for (v, name) in names.iter().enumerate() {
        assert!(rt; pool.take(*name) == Some(v as u64));
    }
    assert!(rt; pool.slots() == 16);
    pool.clear();
    assert!(rt; pool.slots() == 16);
    assert!(rt; pool.live() == 0);
    assert!(rt; pool.next_serial() == 10);
    Ok(())
}

#[test]
fn reserved_slots_take_values(rt: HostRuntime) -> Result<(), Fail> {
    let mut pool = Pool::with_slots(rt.alloc(), 5).ok().ok_or("no memory")?;
    assert!(rt; pool.slots() == 5);
    assert!(rt; pool.spare() == 5 && pool.next_serial() == 1);
    let a = pool.put_reserved(7u64);
    let b = put(&rt, &mut pool, 8);
    assert!(rt; pool.swap(a, b));
    assert!(rt; pool.get(a).copied() == Some(8));
    assert!(rt; pool.get(b).copied() == Some(7));
    assert!(rt; pool.swap(a, a));
    if let Some(v) = pool.get_mut(a) {
        *v += 100;
    }
    assert!(rt; pool.get(a).copied() == Some(108));
    assert!(rt; pool.live() == 2);
    assert!(rt; pool.reserve(3).is_ok());
    assert!(rt; pool.slots() == 5);
    assert!(rt; pool.live() == 2);
    assert!(rt; pool.reserve(7).is_ok());
    assert!(rt; pool.slots() == 16);
    assert!(rt; pool.take(a) == Some(108));
    assert!(rt; !pool.swap(a, b));
    assert!(rt; pool.get_mut(a).is_none());
    Ok(())
}

#[test]
fn each_slot_has_its_name(rt: HostRuntime) -> Result<(), Fail> {
    let mut pool = Pool::with_slots(rt.alloc(), 5).ok().ok_or("no memory")?;
    assert!(rt; pool.name_in(0).is_none());
    for v in 0..600u64 {
        put(&rt, &mut pool, v);
    }
    assert!(rt; pool.slots() == 1024);
    for slot in 0..1030 {
        if let Some(name) = pool.name_in(slot) {
            assert!(rt; name.slot == slot);
            assert!(rt; pool.take(name) == Some(name.serial.wrapping_sub(1)));
            assert!(rt; pool.name_in(slot).is_none());
        }
    }
    assert!(rt; pool.live() == 0);
    Ok(())
}

#[test]
fn a_run_has_the_values_of_its_chunk(rt: HostRuntime) {
    let mut pool = Pool::new(rt.alloc());
    for v in 0..520u64 {
        put(&rt, &mut pool, v);
    }
    let mut run = pool.run_at(500);
    for v in 500..512u64 {
        assert!(rt; run.first().copied() == Some(v));
        run = run.rest();
    }
    assert!(rt; run.first().is_none());
    assert!(rt; run.rest().first().is_none());
    assert!(rt; pool.run_at(519).first().copied() == Some(519));
    assert!(rt; pool.run_at(519).rest().first().is_none());
    assert!(rt; pool.run_at(1024).first().is_none());
    assert!(rt; pool.run_at(u32::MAX).first().is_none());
}

struct Counted<'a> {
    drops: &'a Cell<u64>,
}

impl Drop for Counted<'_> {
    fn drop(self) {
        let Counted { drops } = self;
        drops.set(drops.get().wrapping_add(1));
    }
}

#[test]
fn each_live_value_is_dropped_once(rt: HostRuntime) {
    let drops = Cell::new(0);
    {
        let mut pool = Pool::new(rt.alloc());
        for _ in 0..600 {
            put(&rt, &mut pool, Counted { drops: &drops });
        }
        pool.clear();
        assert!(rt; drops.get() == 600);
        for _ in 0..520 {
            put(&rt, &mut pool, Counted { drops: &drops });
        }
    }
    assert!(rt; drops.get() == 1120);
}

#[test]
fn a_taken_value_is_dropped_where_it_went(rt: HostRuntime) {
    let drops = Cell::new(0);
    let taken = {
        let mut pool = Pool::new(rt.alloc());
        put(&rt, &mut pool, Counted { drops: &drops });
        let name = put(&rt, &mut pool, Counted { drops: &drops });
        pool.take(name)
    };
    assert!(rt; drops.get() == 1);
    drop(taken);
    assert!(rt; drops.get() == 2);
}

#[test]
fn a_long_churn_keeps_its_slots(rt: HostRuntime) -> Result<(), Fail> {
    let mut pool = Pool::new(rt.alloc());
    let mut names = Vec::new(rt.alloc());
    for v in 0..1000u64 {
        names.push(put(&rt, &mut pool, v))?;
    }
    for turn in 0..1_000_000u64 {
        let at = (turn % 1000) as usize;
        assert!(rt; at < names.len());
        assert!(rt; pool.take(names[at]) == Some(turn));
        names[at] = put(&rt, &mut pool, turn + 1000);
    }
    assert!(rt; pool.slots() == 1024);
    assert!(rt; pool.live() == 1000);
    assert!(rt; pool.next_serial() == 1_001_001);
    Ok(())
}

fn crosses_threads<X: Send + Sync>(_x: &X) {}

#[test]
fn values_may_take_no_bytes(rt: HostRuntime) {
    let mut pool = Pool::new(rt.alloc());
    let name = put(&rt, &mut pool, ());
    assert!(rt; pool.take(name) == Some(()));
    crosses_threads(&pool);
}

// `rt try --test --fail-alloc N` makes one of the growths fail.
#[test]
fn a_failed_growth_changes_nothing(rt: HostRuntime) {
    let mut pool = Pool::new(rt.alloc());
    for v in 0..20u64 {
        assert!(rt; pool.live() < 1000);
        let before = (pool.live(), pool.spare(), pool.next_serial());
        match pool.put(v) {
            Ok(_) => {}
            Err(PutFault::NoMemory(back)) => {
                assert!(rt; back == v);
                assert!(rt; (pool.live(), pool.spare(), pool.next_serial()) == before);
                put(&rt, &mut pool, back);
            }
            Err(PutFault::Spent(_)) => panic!(rt; "serials are left"),
        }
    }
    assert!(rt; pool.slots() == 32);
    assert!(rt; pool.next_serial() == 21);
}

#[test]
fn what_is_put_is_taken(rt: HostRuntime) {
    let mut pool = Pool::new(rt.alloc());
    assert!(rt; passed_through(&mut pool, 7) == Some(7));
    assert!(rt; passed_through(&mut pool, 8) == Some(8));
    assert!(rt; pool.live() == 0 && pool.next_serial() == 3);
}
