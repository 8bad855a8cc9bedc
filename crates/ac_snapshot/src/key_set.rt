//! Keys that were seen. A search takes as many steps as the logarithm of their number, whatever they are.
ghost use Rattle.std.specs.Prelude.{◌≡◌, ◌||◌, ℕ, ℤ, List, not, true, IfOk};
ghost use Rattle.std.specs.List.{list_any};
ghost use Rattle.std.specs.Ordering.{int_eq};
ghost use Rattle.std.specs.Str.{bytes_eq};
ghost use Rattle.ac_snapshot.specs.Keys as keys;
ghost use Rattle.ac_snapshot.specs.Keys.{has_text};

use ac_base::NoMemory;
use std::collections::BTreeSet;

/// Adds an integer to those that were seen, and tells whether it is new.
pub fn is_new_integer(seen: &mut BTreeSet<i64>, key: i64) -> Result<bool, NoMemory>
    ensures new { IfOk result (λ new. new ≡ not (list_any (int_eq key) seen.old.keys)) }
    ensures seen { IfOk result (λ new. new ≡ true → (own : ℤ) → list_any (int_eq own) seen.new.keys ≡ (int_eq own key || list_any (int_eq own) seen.old.keys)) }
{
    let new = seen.insert(key)?;
    Ok(new)
}

/// A number that tells most byte strings apart. Short ones are in order by it.
fn number_of(bytes: &[u8]) -> u64
    ensures { result ≡ keys.number_of bytes.now }
{
    let mut number: u64 = 0;
    for byte in bytes {
        number = number.wrapping_mul(257).wrapping_add(u64::from(*byte));
    }
    number
}

/// Adds a byte string, behind its number, to those that were seen, and tells whether it is new.
pub fn is_new_text<'a>(
    seen: &mut BTreeSet<(u64, &'a [u8])>,
    key: &'a [u8],
) -> Result<bool, NoMemory>
    ensures new { IfOk result (λ new. new ≡ not (has_text seen.old.keys key.now)) }
    ensures seen { IfOk result (λ new. new ≡ true → (own : List ℕ) → has_text seen.new.keys own ≡ (bytes_eq own key.now || has_text seen.old.keys own)) }
{
    let number = number_of(key);
    let new = seen.insert((number, key))?;
    Ok(new)
}
