//! What a caller knows of calls that follow one another.
ghost use Rattle.std.specs.Prelude.{◌≡◌, IfSome};

use ac_base::GREATEST_LENGTH;
use ac_pool::Pool;

/// A value that is put and taken again comes back. `None` where there is no name, no room or no memory for it.
pub fn passed_through(pool: &mut Pool<u64>, value: u64) -> Option<u64>
    ensures { IfSome result (λ taken. taken ≡ value) }
{
    if pool.live() >= GREATEST_LENGTH {
        return None;
    }
    match pool.put(value) {
        Ok(name) => pool.take(name),
        Err(_) => None,
    }
}
