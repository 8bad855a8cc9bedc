//! Cursors and names: what a cursor's name is, and the cursor at a name.
ghost use Rattle.std.specs.Prelude.{◌≡◌};
ghost use Rattle.ac_model.specs.Cursors as cursors;

use ac_base::{Cursor, Name};

/// The cursor at a name of the object with this number, if there is one.
pub fn cursor_at(number: u64, name: Option<Name>) -> Cursor
    ensures { result ≡ cursors.cursor_at number name }
{
    match name {
        None => Cursor::NoElement,
        Some(name) => Cursor::At {
            object: number,
            name,
        },
    }
}

/// The cursor of the first of so many, and this one where there is none.
pub fn cursor_of_first(count: u64, first: Cursor, none: Cursor) -> Cursor
    ensures { result ≡ cursors.cursor_of_first count first none }
{
    if count == 0 { none } else { first }
}

/// The name before whose row a cursor stands, and none for the end.
pub fn place_in(c: Cursor) -> Option<Name>
    ensures { result ≡ cursors.place_in c }
{
    match c {
        Cursor::NoElement => None,
        Cursor::At { object: _, name } => Some(name),
    }
}

/// The cursor's name, and one that no element has where it has none.
pub fn name_in(c: Cursor) -> Name
    ensures { result ≡ cursors.name_in c }
{
    match c {
        Cursor::NoElement => Name { slot: 0, serial: 0 },
        Cursor::At { object: _, name } => name,
    }
}
