//! Links between the values of one pool. A link is a slot, and leads to the live name of the slot: the serial stands in the pool alone.
ghost use Rattle.std.specs.Prelude.{◌≡◌};
ghost use Rattle.ac_pool.specs.Link.{link_of};

use ac_base::Name;

/// A link to nothing: no pool has so many slots.
pub const NO_SLOT: u32 = u32::MAX;

/// The link to a live name.
#[inline(always)]
pub fn link_to(to: Option<Name>) -> u32
    ensures { result ≡ link_of to }
{
    match to {
        Some(name) => name.slot,
        None => NO_SLOT,
    }
}
