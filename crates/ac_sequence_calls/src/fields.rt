//! Cursors that are copied field by field: a name whose halves were just written, and which is read as one, waits for them.
ghost use Rattle.std.specs.Prelude.{◌≡◌};

use ac_base::{Fault, Name};
use ac_cursor::Cursor;

/// The cursor itself.
#[inline(always)]
pub fn by_fields(c: Cursor) -> Cursor
    ensures { result ≡ c }
{
    match c {
        Cursor::NoElement => Cursor::NoElement,
        Cursor::At {
            object,
            name: Name { slot, serial },
        } => Cursor::At {
            object,
            name: Name { slot, serial },
        },
    }
}

/// The answer itself.
#[inline(always)]
pub fn answer_by_fields(answer: Result<Cursor, Fault>) -> Result<Cursor, Fault>
    ensures { result ≡ answer }
{
    match answer {
        Ok(c) => Ok(by_fields(c)),
        Err(fault) => Err(fault),
    }
}
