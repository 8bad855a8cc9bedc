//! The arguments of a call, read before it.
ghost use Rattle.std.specs.Prelude.{◌≡◌, OnOk};
ghost use Rattle.ac_calls.specs.Arguments.{argument_of, cursor_in, no_arguments};

use crate::values;
use ac_base::{Elem, NoMemory, Text, Value};
use ac_cursor::Cursor;
use std::alloc::Global;

/// An argument as it is read before the call.
#[derive(Drop)]
pub enum Argument {
    /// Left out, or the object that is the call's source.
    Absent,
    Place(Cursor),
    Value(Value),
}

/// The arguments of a call by their places.
#[derive(Drop)]
pub struct Arguments {
    pub first: Argument,
    pub second: Argument,
    pub third: Argument,
    pub fourth: Argument,
    /// A fifth is a count.
    pub fifth: i64,
}

impl Arguments {
    /// All left out.
    #[inline(always)]
    pub fn absent() -> Arguments
        ensures { result ≡ no_arguments }
    {
        Arguments {
            first: Argument::Absent,
            second: Argument::Absent,
            third: Argument::Absent,
            fourth: Argument::Absent,
            fifth: 1,
        }
    }
}

impl Argument {
    #[inline(always)]
    pub fn cursor(&self) -> Cursor
        ensures { result ≡ cursor_in self.now }
    {
        match self {
            Argument::Place(cursor) => *cursor,
            Argument::Absent | Argument::Value(_) => Cursor::NoElement,
        }
    }

    /// As a count, which is 1 where it is left out.
    #[inline(always)]
    pub fn count(&self) -> i64
        ensures { result ≡ (argument_of self.now).count }
    {
        match self {
            Argument::Value(Value::Int(number)) => *number,
            Argument::Value(Value::Text(_)) => 0,
            Argument::Absent | Argument::Place(_) => 1,
        }
    }

    /// As an index that a search goes back from, which is the greatest where it is left out.
    #[inline(always)]
    pub fn last_index(&self) -> i64
        ensures { result ≡ (argument_of self.now).last_index }
    {
        match self {
            Argument::Value(Value::Int(number)) => *number,
            Argument::Value(Value::Text(_)) => 0,
            Argument::Absent | Argument::Place(_) => i64::MAX,
        }
    }

    #[inline(always)]
    pub fn into_value(self) -> Value
        ensures { result ≡ (argument_of self).value }
    {
        match self {
            Argument::Value(value) => value,
            Argument::Absent | Argument::Place(_) => Value::Int(0),
        }
    }

    /// Takes the value out.
    #[inline(always)]
    pub fn take_value(&mut self) -> Value
        ensures { result ≡ (argument_of self.old).value }
    {
        match self {
            Argument::Value(value) => std::mem::replace(value, Value::Int(0)),
            Argument::Absent | Argument::Place(_) => Value::Int(0),
        }
    }
}

impl Argument {
    /// Leaves it out, whatever a command before had there.
    #[inline(always)]
    pub fn leave_out(&mut self)
        ensures { self.new ≡ Argument.Absent }
    {
        match self {
            Argument::Absent => {}
            _ => self.leave_out_anew(),
        }
    }

    #[inline(never)]
    fn leave_out_anew(&mut self)
        ensures { self.new ≡ Argument.Absent }
    {
        *self = Argument::Absent;
    }

    /// Puts an argument here, over that of a command before.
    #[inline(always)]
    pub fn put(&mut self, argument: Argument)
        ensures { self.new ≡ argument }
    {
        match argument {
            Argument::Value(Value::Int(number)) => self.put_integer(number),
            Argument::Place(cursor) => self.put_place(cursor),
            other => *self = other,
        }
    }

    /// Puts a copy of a value here.
    #[inline(always)]
    pub fn put_copy(&mut self, alloc: Global, value: &Value) -> Result<(), NoMemory>
        ensures { OnOk result (self.new ≡ Argument.Value value.now) }
    {
        match value {
            Value::Int(number) => {
                self.put_integer(*number);
                Ok(())
            }
            Value::Text(text) => self.put_text(alloc, text),
        }
    }

    #[inline(never)]
    fn put_text(&mut self, alloc: Global, text: &Text) -> Result<(), NoMemory>
        ensures { OnOk result (self.new ≡ Argument.Value (Value.Text text.now)) }
    {
        *self = Argument::Value(Value::Text(text.copy(alloc)?));
        Ok(())
    }

    /// Puts an integer here, over that of a command before where one stands here.
    #[inline(always)]
    pub fn put_integer(&mut self, number: i64)
        ensures { self.new ≡ Argument.Value (Value.Int number) }
    {
        match self {
            Argument::Value(value) => values::put_integer(number, value),
            Argument::Absent => *self = Argument::Value(Value::Int(number)),
            Argument::Place(_) => *self = Argument::Value(Value::Int(number)),
        }
    }

    /// Puts a cursor here, over that of a command before where one stands here.
    #[inline(always)]
    pub fn put_place(&mut self, cursor: Cursor)
        ensures { self.new ≡ Argument.Place cursor }
    {
        match self {
            Argument::Place(held) => *held = cursor,
            Argument::Absent => *self = Argument::Place(cursor),
            Argument::Value(_) => *self = Argument::Place(cursor),
        }
    }
}
