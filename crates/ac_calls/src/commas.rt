//! Listings, an item behind another.
ghost use Rattle.std.specs.Prelude.{◌≡◌};
ghost use Rattle.ac_calls.specs.Listed.{comma_at};

/// What stands before an item.
pub fn comma(is_first: bool) -> &'static [u8]
    ensures { result.now ≡ comma_at is_first }
{
    if is_first { b"" } else { b", " }
}
