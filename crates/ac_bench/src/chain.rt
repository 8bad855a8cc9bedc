use ac_base::{Name, NoMemory};
use ac_chain::Chain;
use std::alloc::Global;

/// The most rows that a workload may have.
const MOST: u64 = 10_000_000;

fn push(chain: &mut Chain<u64>, value: u64) -> Option<Name> {
    if chain.spare() == 0 || chain.next_serial() == u64::MAX {
        return None;
    }
    Some(chain.insert_before(None, value))
}

fn insert(chain: &mut Chain<u64>, place: Name, value: u64) -> Option<Name> {
    if !chain.is_live(place) || chain.spare() == 0 || chain.next_serial() == u64::MAX {
        return None;
    }
    Some(chain.insert_before(Some(place), value))
}

fn remove(chain: &mut Chain<u64>, name: Name) {
    if chain.is_live(name) {
        chain.remove(name);
    }
}

/// A chain of so many rows with one slot to spare, and the name of the row in the middle.
fn filled(alloc: Global, rows: u64) -> Result<(Chain<u64>, Option<Name>), NoMemory> {
    let mut chain = Chain::with_slots(alloc, rows.min(MOST) + 1)?;
    let mut middle = None;
    for value in 0..rows.min(MOST) {
        let name = push(&mut chain, value);
        if value == rows / 2 {
            middle = name;
        }
    }
    Ok((chain, middle))
}

/// Inserts before the row in the middle and removes again, so many times, and gives the length.
pub fn middle(alloc: Global, rows: u64, rounds: u64) -> Result<u64, NoMemory> {
    let (mut chain, middle) = filled(alloc, rows)?;
    let Some(middle) = middle else {
        return Ok(chain.len());
    };
    for round in 0..rounds {
        if let Some(name) = insert(&mut chain, middle, round) {
            remove(&mut chain, name);
        }
    }
    Ok(chain.len())
}
