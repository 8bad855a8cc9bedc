use ac_base::{Fault, Limit, Reason};
use ac_cursor::{Cursor, TagMint};
use ac_list::List;
use std::alloc::Global;

/// A list, under the mint's next number.
fn made(alloc: Global, mint: &mut TagMint) -> Result<List<i64>, Fault> {
    match mint.next() {
        Some(tag) => List::new(alloc, tag, Limit::Unbounded),
        None => Err(Fault::Raised(Reason::NamesSpent)),
    }
}

/// A value that goes up and down with its place.
pub fn scrambled(place: u64) -> i64 {
    (place.wrapping_mul(7919) % 1_000_003) as i64
}

/// Appends so many elements.
fn fill(list: &mut List<i64>, rows: u64) -> Result<(), Fault> {
    for place in 0..rows {
        list.append(scrambled(place), 1)?;
    }
    Ok(())
}

/// Appends every second number from this one on, so many of them.
fn fill_ascending(list: &mut List<i64>, first: u64, rows: u64) -> Result<(), Fault> {
    for place in 0..rows {
        list.append((place % 1_000_000 * 2 + first % 2) as i64, 1)?;
    }
    Ok(())
}

/// A number and the elements, met one after another, in one sum.
fn sum(list: &List<i64>, start: i64) -> i64 {
    let mut total = start;
    let mut place = list.first();
    for _i in 0..list.live_nodes() {
        if let Ok(value) = list.element(place) {
            total = total.wrapping_add(*value);
        }
        place = list.next(place).unwrap_or(Cursor::NoElement);
    }
    total
}

/// Clears a list and appends so many elements, so many times, and gives the length.
pub fn append(alloc: Global, rows: u64, rounds: u64) -> Result<u64, Fault> {
    let mut list = made(alloc, &mut TagMint::new())?;
    for _i in 0..rounds {
        list.clear()?;
        fill(&mut list, rows)?;
    }
    Ok(list.live_nodes())
}

/// Walks over so many elements, so many times, and gives the length, or 0 where they come to 0.
/// Each walk goes on from the last one's sum, so that the compiler leaves none out.
pub fn walk(alloc: Global, rows: u64, rounds: u64) -> Result<u64, Fault> {
    let mut list = made(alloc, &mut TagMint::new())?;
    fill(&mut list, rows)?;
    let mut total = 0;
    for _i in 0..rounds {
        total = sum(&list, total);
    }
    Ok(if rounds > 0 && total == 0 {
        0
    } else {
        list.live_nodes()
    })
}

/// Deletes an element at each end and adds one there, so many times, and gives the length.
pub fn ends(alloc: Global, rows: u64, rounds: u64) -> Result<u64, Fault> {
    let mut list = made(alloc, &mut TagMint::new())?;
    fill(&mut list, rows)?;
    for round in 0..rounds {
        list.delete_first(1)?;
        list.delete_last(1)?;
        list.prepend(scrambled(round), 1)?;
        list.append(scrambled(round), 1)?;
    }
    Ok(list.live_nodes())
}

/// Clears a list, appends so many elements and sorts them, so many times, and gives the length.
pub fn sort(alloc: Global, rows: u64, rounds: u64) -> Result<u64, Fault> {
    let mut list = made(alloc, &mut TagMint::new())?;
    for _i in 0..rounds {
        list.clear()?;
        fill(&mut list, rows)?;
        list.sort()?;
    }
    Ok(list.live_nodes())
}

/// Merges two sorted lists with half of so many elements each, so many times, and gives the length.
pub fn merge(alloc: Global, rows: u64, rounds: u64) -> Result<u64, Fault> {
    let mut mint = TagMint::new();
    let mut target = made(alloc, &mut mint)?;
    let mut source = made(alloc, &mut mint)?;
    for _i in 0..rounds {
        target.clear()?;
        fill_ascending(&mut target, 0, rows / 2)?;
        fill_ascending(&mut source, 1, rows / 2)?;
        target.merge(&mut source)?;
    }
    Ok(target.live_nodes())
}
