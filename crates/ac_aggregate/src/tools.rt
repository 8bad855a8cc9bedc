//! What is made of values, where it is an integer.
ghost use Rattle.std.specs.Prelude.{◌≡◌, ◌*ℤ◌, Some};
ghost use Rattle.ac_aggregate.specs.Answers.{val_view};
ghost use Rattle.ac_aggregate.specs.Values as values;
ghost use Rattle.ac_aggregate.specs.Settled as settled;
ghost use Rattle.ac_aggregate.specs.Views.{asked};
ghost use Rattle.std.specs.Option.{option_map};

use crate::oper::{Comparison, Oper};
use crate::part::Part;
use crate::values::{Val, integer_in, order};
use std::cmp::Ordering;

/// A number as it is spelled, where it is an integer.
pub fn integer(minus: bool, number: u64) -> Option<i64>
    ensures { result ≡ values.spelled_integer minus number }
{
    if !minus && number <= 9_223_372_036_854_775_807 {
        Some(number as i64)
    } else if minus && number == 0 {
        Some(0)
    } else if minus && number <= 9_223_372_036_854_775_808 {
        Some(-1 - (number - 1) as i64)
    } else {
        None
    }
}

fn added(minus: bool, x: i64, y: i64) -> Option<i64>
    ensures { result ≡ values.added minus x y }
{
    if minus {
        x.checked_sub(y)
    } else {
        x.checked_add(y)
    }
}

fn times(x: i64, y: i64) -> Option<i64>
    ensures { result ≡ values.if_integer (x *ℤ y) }
{
    x.checked_mul(y)
}

pub fn as_value<'a>(made: Option<i64>) -> Option<Val<'a>>
    ensures { option_map val_view result ≡ values.as_value made }
{
    match made {
        Some(z) => Some(Val::Int(z)),
        None => None,
    }
}

pub fn product<'a>(left: Option<Val<'a>>, right: Option<Val<'a>>) -> Option<Val<'a>>
    ensures { option_map val_view result ≡ values.product_of (option_map val_view left.entry) (option_map val_view right.entry) }
{
    match (left, right) {
        (Some(x), Some(y)) => as_value(times(integer_in(x), integer_in(y))),
        _ => None,
    }
}

pub fn sum<'a>(minus: bool, left: Option<Val<'a>>, right: Option<Val<'a>>) -> Option<Val<'a>>
    ensures { option_map val_view result ≡ values.sum_of minus (option_map val_view left.entry) (option_map val_view right.entry) }
{
    match (left, right) {
        (Some(x), Some(y)) => as_value(added(minus, integer_in(x), integer_in(y))),
        _ => None,
    }
}

fn holds(by: Comparison, found: Ordering) -> bool
    ensures { result ≡ values.holds by found }
{
    match by {
        Comparison::Equal => found.is_eq(),
        Comparison::NotEqual => !found.is_eq(),
        Comparison::Less => found.is_lt(),
        Comparison::LessEqual => found.is_le(),
        Comparison::Greater => found.is_gt(),
        Comparison::GreaterEqual => found.is_ge(),
    }
}

pub fn compared<'a>(by: Comparison, left: Option<Val<'a>>, right: Option<Val<'a>>) -> Option<bool>
    ensures { result ≡ values.compared_by by (option_map val_view left.entry) (option_map val_view right.entry) }
{
    match (left, right) {
        (Some(x), Some(y)) => Some(holds(by, order(x, y))),
        _ => None,
    }
}

pub fn both(left: Option<bool>, right: Option<bool>) -> Option<bool>
    ensures { result ≡ values.both_of left right }
{
    match (left, right) {
        (Some(x), Some(y)) => Some(x && y),
        _ => None,
    }
}

pub fn negated(condition: Option<bool>) -> Option<bool>
    ensures { result ≡ values.negation_of condition }
{
    match condition {
        Some(holds) => Some(!holds),
        None => None,
    }
}

fn least(x: i64, y: i64) -> i64
    ensures { result ≡ values.least x y }
{
    if x <= y { x } else { y }
}

fn greatest(x: i64, y: i64) -> i64
    ensures { result ≡ values.greatest x y }
{
    if x <= y { y } else { x }
}

pub fn combined(by: Oper, x: i64, y: i64) -> Option<i64>
    ensures { result ≡ values.combined by x y }
{
    match by {
        Oper::Sum => added(false, x, y),
        Oper::Product => times(x, y),
        Oper::Least => Some(least(x, y)),
        Oper::Greatest => Some(greatest(x, y)),
    }
}

/// An integer as it is spelled.
pub fn spelling(z: i64) -> Part
    ensures { settled.IsSpelledAs (asked result) (Some z) }
{
    if z >= 0 {
        Part::Literal(false, z as u64)
    } else {
        Part::Literal(true, z.unsigned_abs())
    }
}
