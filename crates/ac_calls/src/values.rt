//! Values of a script: what integer one is, copies, and how one is written over another.
ghost use Rattle.std.specs.Prelude.{◌≡◌, IfOk};
ghost use Rattle.ac_calls.specs.Elements.{integer_in};

use ac_base::{Elem, NoMemory, Value};
use std::alloc::Global;

#[inline(always)]
pub fn integer_in(value: &Value) -> i64
    ensures { result ≡ integer_in value.now }
{
    match value {
        Value::Int(number) => *number,
        Value::Text(_) => 0,
    }
}

#[inline(always)]
pub fn copy_value(alloc: Global, value: &Value) -> Result<Value, NoMemory>
    ensures { IfOk result (λ made. made ≡ value.now) }
{
    match value {
        Value::Int(number) => Ok(Value::Int(*number)),
        Value::Text(text) => Ok(Value::Text(text.copy(alloc)?)),
    }
}

/// Writes an integer, over one that stands there.
#[inline(always)]
pub fn put_integer(number: i64, held: &mut Value)
    ensures { held.new ≡ Value.Int number }
{
    match held {
        Value::Int(there) => *there = number,
        Value::Text(_) => put_anew(Value::Int(number), held),
    }
}

/// Writes a value, an integer over one that stands there.
#[inline(always)]
pub fn put_value(value: Value, held: &mut Value)
    ensures { held.new ≡ value }
{
    match value {
        Value::Int(number) => put_integer(number, held),
        other => put_anew(other, held),
    }
}

/// Writes a value in place of one that goes. It stands apart so that the short way is short.
#[inline(never)]
fn put_anew(value: Value, held: &mut Value)
    ensures { held.new ≡ value }
{
    *held = value;
}
