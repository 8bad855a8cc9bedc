//! How far an array grows.
ghost use Rattle.std.specs.Prelude.{◌≡◌, ◌^◌, ◌≤◌};
ghost use Rattle.ac_base.specs.Growth.{pow8};

/// The least `8 * 2^k` that is not below `wanted`.
pub(crate) fn least_slots(wanted: usize) -> usize
    requires { wanted ≤ 2 ^ 30 }
    ensures slots { result ≡ pow8 wanted }
    ensures bounds { (wanted ≤ result) × (result ≤ 2 ^ 30) }
{
    let mut slots: usize = 8;
    while slots < wanted {
        slots *= 2;
    }
    slots
}
