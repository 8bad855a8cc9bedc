//! What a call on an object comes to.
ghost use Rattle.std.specs.Prelude.{◌≡◌, Some, None};

use crate::values::put_integer;
use ac_base::Value;
use ac_cursor::Cursor;

/// What a call answers.
#[derive(Drop)]
pub enum Said {
    Done,
    Value(Value),
    Truth(bool),
    Place(Cursor),
    /// The object's listing, which isn't made here.
    Listing,
    /// The call would wait, and nothing of it has happened.
    Stalled,
}

/// What the cursor variable at a place of the arguments is set to.
#[derive(Drop)]
pub struct Placed {
    pub place: usize,
    pub cursor: Cursor,
}

/// A call that was made: its answer, and the variable that it sets.
#[derive(Drop)]
pub struct Reply {
    pub said: Said,
    pub variable: Option<Placed>,
}

impl Reply {
    /// A call that sets no variable.
    #[inline(always)]
    pub fn says(said: Said) -> Reply
        ensures said { result.said ≡ said }
        ensures variable { result.variable ≡ None }
    {
        Reply {
            said,
            variable: None,
        }
    }

    /// Makes it the reply of a call that sets no variable.
    #[inline(always)]
    pub fn tell(&mut self, said: Said)
        ensures said { self.new.said ≡ said }
        ensures variable { self.new.variable ≡ None }
    {
        say(said, &mut self.said);
        sets_none(&mut self.variable);
    }

    /// Makes it the reply of a call that answers an integer.
    #[inline(always)]
    pub fn tell_integer(&mut self, number: i64)
        ensures said { self.new.said ≡ Said.Value (Value.Int number) }
        ensures variable { self.new.variable ≡ None }
    {
        say_integer(number, &mut self.said);
        sets_none(&mut self.variable);
    }

    /// As `tell`, and put in line nowhere: for calls that are rare, so that the way of the others is short.
    #[inline(never)]
    pub fn tell_apart(&mut self, said: Said)
        ensures said { self.new.said ≡ said }
        ensures variable { self.new.variable ≡ None }
    {
        self.tell(said);
    }

    /// A call that answers nothing and sets the variable at this place.
    #[inline(always)]
    pub fn sets(place: usize, cursor: Cursor) -> Reply
        ensures said { result.said ≡ Said.Done }
        ensures variable { result.variable ≡ Some (record { place = place; cursor = cursor }) }
    {
        Reply {
            said: Said::Done,
            variable: Some(Placed { place, cursor }),
        }
    }
}

/// Writes an answer, an integer over one that stands there.
#[inline(always)]
pub fn say(said: Said, held: &mut Said)
    ensures { held.new ≡ said }
{
    match said {
        Said::Value(Value::Int(number)) => say_integer(number, held),
        other => *held = other,
    }
}

#[inline(always)]
fn say_integer(number: i64, held: &mut Said)
    ensures { held.new ≡ Said.Value (Value.Int number) }
{
    match held {
        Said::Value(value) => put_integer(number, value),
        _ => *held = Said::Value(Value::Int(number)),
    }
}

/// Leaves no variable to be set, whatever a call before had there.
#[inline(always)]
fn sets_none(variable: &mut Option<Placed>)
    ensures { variable.new ≡ None }
{
    match variable {
        None => {}
        Some(_) => *variable = None,
    }
}
