//! Rows of two stacks that become one list, in the order of both.
ghost use Rattle.std.specs.Prelude.{◌≡◌, ◌+◌, ◌≤◌, ◌++◌, [], length, vec_len, vec_capacity};
ghost use Rattle.ac_base.specs.Rows as rows;
ghost use Rattle.ac_vector.specs.ArrayFields.{names_in, slots_of};
ghost use Rattle.ac_vector.specs.Stacks.{IsNext, Weaves, is_second, stacked};

use ac_base::{Name, Rank, precedes};
use ac_pool::Pool;

/// A value with its name.
#[derive(Drop)]
pub(crate) struct Line<T> {
    name: Name,
    value: T,
}

/// Takes the last `count` rows out and puts them on the stack, the last one first.
pub(crate) fn stack_last<T>(
    places: &Pool<u32>,
    slots: &mut Vec<u32>,
    values: &mut Vec<T>,
    count: usize,
    stack: &mut Vec<Line<T>>,
)
    requires live { slots.old.items ≡ slots_of (names_in places.now slots.old.items) }
    requires same { length slots.old.items ≡ length values.old.items }
    requires some { count ≤ length slots.old.items }
    requires room { vec_len stack.old + count ≤ vec_capacity stack.old }
    ensures live { slots.new.items ≡ slots_of (names_in places.now slots.new.items) }
    ensures names { names_in places.now slots.new.items ++ rows.names (stacked stack.new.items)
        ≡ names_in places.now slots.old.items ++ rows.names (stacked stack.old.items) }
    ensures values { values.new.items ++ rows.values (stacked stack.new.items) ≡ values.old.items ++ rows.values (stacked stack.old.items) }
    ensures count { length stack.new.items ≡ length stack.old.items + count }
    ensures slot_room { vec_capacity slots.new ≡ vec_capacity slots.old }
    ensures value_room { vec_capacity values.new ≡ vec_capacity values.old }
{
    for _i in 0..count {
        let slot = slots.pop().unwrap();
        let name = places.name_in(slot).unwrap();
        let value = values.pop().unwrap();
        stack.push_reserved(Line { name, value });
    }
}

/// Whether the uppermost row of the second stack comes before that of the first, which comes first where neither is less.
fn comes_second<T: Rank>(mine: &[Line<T>], theirs: &[Line<T>]) -> bool
    ensures { result ≡ is_second T.is_less (stacked mine.now) (stacked theirs.now) }
{
    let Some(first) = mine.last() else {
        return true;
    };
    let Some(second) = theirs.last() else {
        return false;
    };
    precedes(&second.value, &first.value)
}

/// Takes the row that comes first off its stack.
fn next_line<T: Rank>(mine: &mut Vec<Line<T>>, theirs: &mut Vec<Line<T>>) -> Option<Line<T>>
    ensures { IsNext T.is_less (stacked mine.old.items) (stacked theirs.old.items) result
        (stacked mine.new.items) (stacked theirs.new.items) }
{
    if comes_second(mine.as_slice(), theirs.as_slice()) {
        theirs.pop()
    } else {
        mine.pop()
    }
}

/// Takes the rows off the two stacks, each time the one that comes first, and puts them behind one another.
pub(crate) fn weave<T: Rank>(
    slots: &mut Vec<u32>,
    values: &mut Vec<T>,
    mut mine: Vec<Line<T>>,
    mut theirs: Vec<Line<T>>,
)
    requires no_slots { slots.old.items ≡ [] }
    requires no_values { values.old.items ≡ [] }
    requires slot_room { length mine.items + length theirs.items ≤ vec_capacity slots.old }
    requires value_room { length mine.items + length theirs.items ≤ vec_capacity values.old }
    ensures woven { Weaves T.is_less (stacked mine.items) (stacked theirs.items) slots.new.items values.new.items }
    ensures slot_room { vec_capacity slots.new ≡ vec_capacity slots.old }
    ensures value_room { vec_capacity values.new ≡ vec_capacity values.old }
{
    while let Some(line) = next_line(&mut mine, &mut theirs) {
        slots.push_reserved(line.name.slot);
        values.push_reserved(line.value);
    }
}
