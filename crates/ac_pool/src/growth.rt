//! How many slots a growth makes, and which slot is the next.
ghost use Rattle.std.specs.Prelude.{◌≡◌, ◌^◌, ◌≤◌, vec_capacity};
ghost use Rattle.ac_base.specs.Growth.{pow8};
ghost use Rattle.ac_pool.specs.PoolFields.{GivesSlot};

/// The least `8 * 2^k` that is not below `wanted`.
pub(crate) fn least_slots(wanted: usize) -> usize
    requires { wanted ≤ 2 ^ 30 }
    ensures slots { result ≡ pow8 wanted }
    ensures bounds { (wanted ≤ result) × (result ≤ 2 ^ 30) }
{
    let mut slots: usize = 8;
    while slots < wanted {
        slots *= 2;
    }
    slots
}

/// The slot for the next value: the last that was given back, or else the first that no value has reached.
#[inline(always)]
pub(crate) fn next_slot(given: &mut Vec<u32>, unreached: u32) -> u32
    ensures slot { GivesSlot given.old.items unreached result given.new.items }
    ensures capacity { vec_capacity given.new ≡ vec_capacity given.old }
{
    match given.pop() {
        Some(slot) => slot,
        None => unreached,
    }
}
