//! The end of a list put before a place.
ghost use Rattle.std.specs.Prelude.{◌≡◌, ◌+◌, ◌≤◌, length, vec_len, vec_capacity};
ghost use Rattle.ac_vector.specs.Turn.{turned};

/// The last `count` items go before the one at `place`.
fn turn_items<T>(items: &mut [T], place: usize, count: usize)
    requires { place + count ≤ length items.old }
    ensures { items.new ≡ turned items.old place count }
{
    let (_, behind) = items.split_at_mut(place);
    behind.rotate_right(count);
}

/// The same of a vector, whose memory stays.
pub(crate) fn turn_vector<T>(items: &mut Vec<T>, place: usize, count: usize)
    requires { place + count ≤ vec_len items.old }
    ensures items { items.new.items ≡ turned items.old.items place count }
    ensures capacity { vec_capacity items.new ≡ vec_capacity items.old }
{
    turn_items(items.as_mut_slice(), place, count);
}
