//! The names of a chain in the order of their values.
ghost use Rattle.std.specs.Prelude.{◌≡◌, IfOk, map};
ghost use Rattle.std.specs.Ordering.{is_lt};
ghost use Rattle.ac_base.specs.Rows.{names};
ghost use Rattle.ac_chain.specs.Rows.{IsSound};
ghost use Rattle.ac_chain.specs.Sorting.{row_at, IsSortedOrder};

use crate::chain::Chain;
use ac_base::{Name, NoMemory, Rank, precedes};
use std::alloc::Global;
use std::cmp::Ordering;

/// A value with its name.
#[derive(Drop)]
struct Keyed<'a, T> {
    name: Name,
    value: &'a T,
}

/// Which of the two stands first.
fn compare<T: Rank>(left: &Keyed<'_, T>, right: &Keyed<'_, T>) -> Ordering
    ensures { is_lt result ≡ T.is_less left.now.value.now right.now.value.now }
{
    if precedes(left.value, right.value) {
        Ordering::Less
    } else if precedes(right.value, left.value) {
        Ordering::Greater
    } else {
        Ordering::Equal
    }
}

/// The values with their names, as they stand.
fn rows_of<'a, T>(chain: &'a Chain<T>, alloc: Global) -> Result<Vec<Keyed<'a, T>>, NoMemory>
    requires sound { IsSound chain.now }
    ensures rows { IfOk result (λ made. map row_at made.items ≡ chain.now.rows) }
{
    let mut made = Vec::new(alloc);
    let mut place = chain.first();
    while let Some(name) = place {
        made.push(Keyed {
            name,
            value: chain.at(name),
        })?;
        place = chain.next(name);
    }
    Ok(made)
}

/// The names, as they stand.
fn names_of<T>(rows: &[Keyed<'_, T>], alloc: Global) -> Result<Vec<Name>, NoMemory>
    ensures names { IfOk result (λ made. made.items ≡ names (map row_at rows.now)) }
{
    let mut made = Vec::new(alloc);
    for row in rows {
        made.push(row.name)?;
    }
    Ok(made)
}

/// The names in the order of their values.
pub fn sorted_names<T: Rank>(chain: &Chain<T>, alloc: Global) -> Result<Vec<Name>, NoMemory>
    requires sound { IsSound chain.now }
    ensures { IfOk result (λ made. IsSortedOrder T.is_less chain.now.rows made.items) }
{
    let mut rows = rows_of(chain, alloc)?;
    rows.sort_by(|left, right| compare(left, right))?;
    names_of(&rows, alloc)
}
