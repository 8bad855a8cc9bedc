//! What a name of a script holds.
ghost use Rattle.ac_objects.specs.Given.{HoldsObject, HoldsValue, HoldsCursor};

use crate::object::Object;
use ac_base::Value;
use ac_cursor::Cursor;

/// What a name in scope holds.
#[derive(Drop)]
pub enum Bound {
    Type,
    Object(Object),
    Cursor(Cursor),
    Value(Value),
    /// The element itself that the cursor designates in the object at this place.
    Element { object: usize, at: Cursor },
}

impl Bound {
    /// The object that the name holds, if it holds one.
    pub(crate) fn object(&self) -> Option<&Object>
        ensures { HoldsObject self.now result }
    {
        match self {
            Bound::Object(object) => Some(object),
            _ => None,
        }
    }

    /// The value that a variable holds, if it is one.
    #[inline(always)]
    pub(crate) fn variable(&self) -> Option<&Value>
        ensures { HoldsValue self.now result }
    {
        match self {
            Bound::Value(value) => Some(value),
            _ => None,
        }
    }

    /// The cursor that a cursor variable holds. Another name holds none.
    #[inline(always)]
    pub(crate) fn cursor(&self) -> Cursor
        ensures { HoldsCursor self.now result }
    {
        match self {
            Bound::Cursor(cursor) => *cursor,
            _ => Cursor::NoElement,
        }
    }
}
