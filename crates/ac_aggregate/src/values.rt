//! Values while a question is answered, and those of its answer.
ghost use Rattle.std.specs.Prelude.{◌≡◌, IfOk};
ghost use Rattle.ac_aggregate.specs.Answers.{val_view, given_view};
ghost use Rattle.ac_aggregate.specs.Plains as plains;
ghost use Rattle.ac_aggregate.specs.Values as values;

use ac_base::{NoMemory, Value};
use ac_syntax::StringBytes;
use std::alloc::Global;
use std::cmp::Ordering;

/// A value while a question is answered, whose bytes stay where they are.
#[derive(Clone, Copy)]
pub enum Val<'a> {
    Int(i64),
    Text(&'a [u8]),
}

/// A value of an answer.
#[derive(Drop)]
pub enum Given {
    Int(i64),
    Text(StringBytes),
}

/// Values in order.
#[derive(Drop)]
pub struct Values {
    items: Vec<Given>,
}

impl Values {
    pub fn from_vec(items: Vec<Given>) -> Values
        ensures { result.items ≡ items }
    {
        Values { items }
    }

    pub fn items(&self) -> &[Given]
        ensures { result.now ≡ self.now.items.items }
    {
        &self.items
    }
}

/// What stands where no value does.
pub fn blank<'a>() -> Val<'a>
    ensures { val_view result ≡ plains.blank }
{
    Val::Int(0)
}

pub fn val_of(value: &Value) -> Val<'_>
    ensures { val_view result ≡ value.now }
{
    match value {
        Value::Int(z) => Val::Int(*z),
        Value::Text(text) => Val::Text(text.bytes()),
    }
}

pub fn keep(alloc: Global, value: Val<'_>) -> Result<Given, NoMemory>
    ensures { IfOk result (λ made. given_view made ≡ val_view value.entry) }
{
    match value {
        Val::Int(z) => Ok(Given::Int(z)),
        Val::Text(bytes) => Ok(Given::Text(StringBytes::new(bytes.to_vec(alloc)?))),
    }
}

pub fn integer_in(value: Val<'_>) -> i64
    ensures { result ≡ values.integer_in (val_view value.entry) }
{
    match value {
        Val::Int(z) => z,
        Val::Text(_) => 0,
    }
}

/// Integers by their size, texts by their bytes.
pub fn order<'a>(left: Val<'a>, right: Val<'a>) -> Ordering
    ensures { result ≡ values.order (val_view left.entry) (val_view right.entry) }
{
    match (left, right) {
        (Val::Int(x), Val::Int(y)) => x.cmp(&y),
        (Val::Text(x), Val::Text(y)) => x.cmp(y),
        _ => Ordering::Equal,
    }
}
