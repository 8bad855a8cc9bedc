//! How many buckets a growth makes.
ghost use Rattle.std.specs.Prelude.{◌≡◌, ℕ, ◌*◌, ◌^◌, ◌≤◌};
ghost use Rattle.ac_buckets.specs.Pairs.{size_for};

/// The size, doubled until it is at least `wanted`.
pub(crate) fn size_for(size: usize, wanted: usize) -> usize
    requires power { (k : ℕ) × (size ≡ 8 * 2 ^ k) }
    requires few { (size ≤ 2 ^ 30) × (wanted ≤ 2 ^ 30) }
    ensures size { result ≡ size_for size wanted }
    ensures bounds { (size ≤ result) × (wanted ≤ result) × (result ≤ 2 ^ 30) }
    ensures power { (k : ℕ) × (result ≡ 8 * 2 ^ k) }
{
    let mut doubled = size;
    while doubled < wanted {
        doubled *= 2;
    }
    doubled
}
