//! A state from its text.
ghost use Rattle.std.specs.Prelude.{◌≡◌, ◌||◌, ◌+◌, ◌∷◌, ◌++◌, [], ℕ, List, is_some, IfOk, IfSome, IsSome, OnOk, Ok, Err};
ghost use Rattle.std.specs.Str.{bytes_eq};
ghost use Rattle.ac_snapshot.specs.declared.fault.StateFault.TheVariants as fault;
ghost use Rattle.ac_snapshot.specs.Keys.{has_text, fits_among};
ghost use Rattle.ac_snapshot.specs.StateReading.{IsReading};
ghost use Rattle.ac_snapshot.specs.Validity as validity;

use crate::entry_reader::{entry, name_in};
use crate::entry_test::is_valid_entry;
use crate::fault::StateFault;
use crate::key_set::is_new_text;
use ac_base::NoMemory;
use ac_calls::{Plain, Plains};
use ac_rules::MOST_ROOM;
use std::alloc::Global;
use std::collections::BTreeSet;

/// The room that an object has by its limit.
fn room_in(entry: &Plain) -> u64
    ensures { result ≡ validity.room_in entry.now }
{
    match entry {
        Plain::Object { limit, .. } => limit.unwrap_or(0),
        Plain::Int { .. } => 0,
        Plain::Str { .. } => 0,
    }
}

/// The room of all objects with an entry of this name more, where that is valid, there is room for it, and the name is new.
fn fitted<'a>(
    alloc: Global,
    entry: &Plain,
    name: &'a [u8],
    room: u64,
    names: &mut BTreeSet<(u64, &'a [u8])>,
) -> Result<Option<u64>, NoMemory>
    ensures fits { IfOk result (λ more. is_some more ≡ fits_among names.old.keys room name.now entry.now) }
    ensures room { IfOk result (λ more. IfSome more (λ all. all ≡ room + validity.room_in entry.now)) }
    ensures names { IfOk result (λ more. IsSome more → (own : List ℕ) → has_text names.new.keys own ≡ (bytes_eq own name.now || has_text names.old.keys own)) }
{
    if !is_valid_entry(alloc, entry)? {
        return Ok(None);
    }
    let all = room.saturating_add(room_in(entry));
    if all > MOST_ROOM {
        return Ok(None);
    }
    if is_new_text(names, name)? {
        Ok(Some(all))
    } else {
        Ok(None)
    }
}

fn keep(entries: &mut Vec<Plain>, entry: Plain) -> Result<(), NoMemory>
    ensures { OnOk result (entries.new.items ≡ entries.old.items ++ entry ∷ []) }
{
    Ok(entries.push(entry)?)
}

/// The state whose text this is.
pub fn read_state(alloc: Global, bytes: &[u8]) -> Result<Plains, StateFault>
    ensures read { IfOk result (λ plains. IsReading bytes.now (Ok plains)) }
    ensures refused { (line : ℕ) → result ≡ Err (fault.Refused line) → IsReading bytes.now (Err (fault.Refused line)) }
{
    let mut entries = Vec::new(alloc);
    let mut names = BTreeSet::new(alloc);
    let mut room = 0;
    let mut left = bytes;
    while !left.is_empty() {
        let line = entries.len() as u64 + 1;
        let Some((entry, rest)) = entry(alloc, left)? else {
            return Err(StateFault::Refused { line });
        };
        let Some(all) = fitted(alloc, &entry, name_in(left), room, &mut names)? else {
            return Err(StateFault::Refused { line });
        };
        keep(&mut entries, entry)?;
        room = all;
        left = rest;
    }
    Ok(Plains::from_vec(entries))
}
