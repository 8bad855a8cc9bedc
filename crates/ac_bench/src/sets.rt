use crate::list::scrambled;
use ac_base::{Fault, Limit, Reason};
use ac_cursor::{Tag, TagMint};
use ac_hashed::HashedSet;
use ac_ordered::OrderedSet;
use std::alloc::Global;

/// What a workload does to a set of integers.
trait Integers {
    fn clear(&mut self) -> Result<(), Fault>;

    fn include(&mut self, e: i64) -> Result<(), Fault>;

    fn exclude(&mut self, e: i64) -> Result<(), Fault>;

    fn live_nodes(&self) -> u64;
}

impl Integers for HashedSet<i64> {
    fn clear(&mut self) -> Result<(), Fault> {
        HashedSet::clear(self)
    }

    fn include(&mut self, e: i64) -> Result<(), Fault> {
        HashedSet::include(self, e)
    }

    fn exclude(&mut self, e: i64) -> Result<(), Fault> {
        HashedSet::exclude(self, &e)
    }

    fn live_nodes(&self) -> u64 {
        HashedSet::live_nodes(self)
    }
}

impl Integers for OrderedSet<i64> {
    fn clear(&mut self) -> Result<(), Fault> {
        OrderedSet::clear(self)
    }

    fn include(&mut self, e: i64) -> Result<(), Fault> {
        OrderedSet::include(self, e)
    }

    fn exclude(&mut self, e: i64) -> Result<(), Fault> {
        OrderedSet::exclude(self, &e)
    }

    fn live_nodes(&self) -> u64 {
        OrderedSet::live_nodes(self)
    }
}

/// Which numbers a workload puts into a set.
#[derive(Clone, Copy)]
enum Numbers {
    Scrambled,
    InARow,
}

impl Numbers {
    fn at(self, place: u64) -> i64 {
        match self {
            Numbers::Scrambled => scrambled(place),
            Numbers::InARow => place.cast_signed(),
        }
    }
}

fn tag() -> Result<Tag, Fault> {
    match TagMint::new().next() {
        Some(tag) => Ok(tag),
        None => Err(Fault::Raised(Reason::NamesSpent)),
    }
}

fn include_all<S: Integers>(set: &mut S, numbers: Numbers, rows: u64) -> Result<(), Fault> {
    for place in 0..rows {
        set.include(numbers.at(place))?;
    }
    Ok(())
}

fn exclude_half<S: Integers>(set: &mut S, numbers: Numbers, rows: u64) -> Result<(), Fault> {
    for place in 0..rows / 2 {
        set.exclude(numbers.at(place))?;
    }
    Ok(())
}

fn change<S: Integers>(
    set: &mut S,
    numbers: Numbers,
    rows: u64,
    rounds: u64,
) -> Result<u64, Fault> {
    for _i in 0..rounds {
        set.clear()?;
        include_all(set, numbers, rows)?;
        exclude_half(set, numbers, rows)?;
    }
    Ok(set.live_nodes())
}

/// Clears a hashed set, includes so many elements and excludes half of them, so many times, and gives the length.
pub fn hashed(alloc: Global, rows: u64, rounds: u64) -> Result<u64, Fault> {
    let mut set = HashedSet::new(alloc, tag()?, Limit::Unbounded)?;
    change(&mut set, Numbers::Scrambled, rows, rounds)
}

/// The same with numbers in a row.
pub fn hashed_row(alloc: Global, rows: u64, rounds: u64) -> Result<u64, Fault> {
    let mut set = HashedSet::new(alloc, tag()?, Limit::Unbounded)?;
    change(&mut set, Numbers::InARow, rows, rounds)
}

/// As `hashed`, of an ordered set.
pub fn ordered(alloc: Global, rows: u64, rounds: u64) -> Result<u64, Fault> {
    let mut set = OrderedSet::new(alloc, tag()?, Limit::Unbounded)?;
    change(&mut set, Numbers::Scrambled, rows, rounds)
}
