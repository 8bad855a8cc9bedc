//! The places of names, kept in a pool.
ghost use Rattle.std.specs.Prelude.{◌≡◌, ◌^◌, ◌≤◌, length, drop};
ghost use Rattle.ac_vector.specs.ArrayFields.{with_place_in, renumbered_in};

use ac_pool::Pool;

/// Writes the place of the slot's live name.
fn set_place(places: &mut Pool<u32>, slot: u32, place: u32)
    ensures { places.new ≡ with_place_in places.old slot place }
{
    let Some(name) = places.name_in(slot) else {
        return;
    };
    if let Some(kept) = places.get_mut(name) {
        *kept = place;
    }
}

/// Writes the places of the slots' live names from this one on.
pub(crate) fn renumber(places: &mut Pool<u32>, slots: &[u32], from: usize)
    requires small { length slots.now ≤ 2 ^ 30 }
    requires within { from ≤ length slots.now }
    ensures { places.new ≡ renumbered_in (drop from slots.now) from places.old }
{
    for place in from..slots.len() {
        set_place(places, slots[place], place as u32);
    }
}
