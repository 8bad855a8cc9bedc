ghost use Rattle.std.specs.Prelude.{◌≡◌, ◌≤◌, [], length};

use super::*;
use ac_base::Name;

// Pairs in every 64th bucket, under the serials from 1 on.
fn fill(buckets: &mut Buckets, count: u32)
    requires empty { buckets.old.pairs ≡ [] }
    requires room { (count ≤ buckets.old.spare) × (count ≤ 1000) }
    ensures { length buckets.new.pairs ≡ count }
{
    for slot in 0..count {
        let number = u64::from(slot);
        buckets.add(
            number * 64,
            Name {
                slot,
                serial: number + 1,
            },
        );
    }
}

// How many names a walk of the bucket meets.
fn met(buckets: &Buckets, hash: u64) -> u64 {
    let mut at = buckets.first_in(hash);
    for count in 0..1000 {
        let Some(name) = at else {
            return count;
        };
        at = buckets.next_in(hash, name);
    }
    1000
}

// How many names a walk by places meets.
fn stepped(buckets: &Buckets, hash: u64) -> u64 {
    let mut place = buckets.walk(hash);
    for count in 0..1000 {
        let Some((_name, next)) = buckets.step(hash, place) else {
            return count;
        };
        place = next;
    }
    1000
}

#[test]
fn sizes_double_and_stay(rt: HostRuntime) {
    let mut buckets = Buckets::new(rt.alloc());
    assert!(rt; buckets.size() == 64);
    assert!(rt; buckets.grow(64).is_ok());
    assert!(rt; buckets.size() == 64);
    assert!(rt; buckets.grow(65).is_ok());
    assert!(rt; buckets.size() == 128);
    assert!(rt; buckets.grow(128).is_ok());
    assert!(rt; buckets.size() == 128);
    buckets.clear();
    assert!(rt; buckets.size() == 128);
}

#[test]
fn each_pair_is_met_once_before_and_after_a_growth(rt: HostRuntime) {
    let mut buckets = Buckets::new(rt.alloc());
    assert!(rt; buckets.grow(128).is_ok());
    fill(&mut buckets, 128);
    assert!(rt; met(&buckets, 0) == 64);
    assert!(rt; met(&buckets, 64) == 64);
    assert!(rt; buckets.grow(1).is_ok());
    assert!(rt; buckets.size() == 256);
    for hash in [0, 64, 128, 192] {
        assert!(rt; met(&buckets, hash) == 32);
    }
    assert!(rt; met(&buckets, 1) == 0);
}

#[test]
fn a_dropped_pair_is_not_met(rt: HostRuntime) {
    let mut buckets = Buckets::new(rt.alloc());
    assert!(rt; buckets.grow(4).is_ok());
    fill(&mut buckets, 4);
    let second = Name { slot: 1, serial: 2 };
    assert!(rt; met(&buckets, 0) == 4);
    assert!(rt; !buckets.drop_one(0, second));
    assert!(rt; buckets.drop_one(64, second));
    assert!(rt; !buckets.drop_one(64, second));
    assert!(rt; met(&buckets, 0) == 3);
}

#[test]
fn a_walk_by_places_meets_its_own_hash_alone(rt: HostRuntime) {
    let mut buckets = Buckets::new(rt.alloc());
    assert!(rt; buckets.grow(128).is_ok());
    fill(&mut buckets, 128);
    for hash in [0, 64, 128, 4096] {
        assert!(rt; stepped(&buckets, hash) == 1);
    }
    assert!(rt; stepped(&buckets, 1) == 0);
    assert!(rt; stepped(&buckets, 128 * 64) == 0);
}
