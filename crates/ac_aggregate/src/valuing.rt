//! What the parts of a question come to.
ghost use Rattle.std.specs.Prelude.{◌≡◌, ◌∷◌, map, None, Some, IfOk, option_copied, option_and_then};
ghost use Rattle.std.specs.Option.{option_map};
ghost use Rattle.ac_aggregate.specs.Answers.{val_view, bounds_view};
ghost use Rattle.ac_aggregate.specs.Generators.{generator, innermost};
ghost use Rattle.ac_calls.specs.Plains as of;
ghost use Rattle.ac_aggregate.specs.Plains as specs;
ghost use Rattle.ac_aggregate.specs.Values as values;
ghost use Rattle.ac_aggregate.specs.Values.{value_of, truth_of, values_of, element_of, object_in, all_kept, folded, stepped};
ghost use Rattle.ac_aggregate.specs.Views.{asked};

use crate::oper::Oper;
use crate::part::Part;
use crate::tools::{as_value, both, combined, compared, integer, negated, product, sum};
use crate::values::{Val, blank, integer_in, val_of};
use ac_base::NoMemory;
use ac_calls::{Plain, PlainRow};
use ac_syntax::Ident;
use std::alloc::Global;

/// A generator in scope and the value that it has.
#[derive(Clone, Copy)]
pub struct Bound<'a> {
    pub name: &'a Ident,
    pub value: Val<'a>,
}

/// How a reduction reduces, and what it has come to.
#[derive(Clone, Copy)]
pub struct Fold {
    by: Oper,
    from: i64,
}

/// The value of the innermost generator of the name, if there is one.
fn generator_value<'a>(generators: &[Bound<'a>], word: &[u8]) -> Option<Val<'a>>
    ensures { option_map val_view result ≡ innermost (bounds_view generators.now) word.now }
{
    for generator in generators {
        if generator.name.bytes() == word {
            return Some(generator.value);
        }
    }
    None
}

/// The generators in scope in an aggregate, whose own one is the innermost.
pub fn inside<'a>(
    alloc: Global,
    own: &'a Ident,
    value: Val<'a>,
    outer: &[Bound<'a>],
) -> Result<Vec<Bound<'a>>, NoMemory>
    ensures { IfOk result (λ made. bounds_view made.items ≡ generator own.now (val_view value.entry) ∷ bounds_view outer.now) }
{
    let mut made = Vec::new(alloc);
    made.push(Bound { name: own, value })?;
    for generator in outer {
        made.push(*generator)?;
    }
    Ok(made)
}

fn name_of(plain: &Plain) -> &[u8]
    ensures { result.now ≡ of.name_of plain.now }
{
    match plain {
        Plain::Int { name, .. } => name.bytes(),
        Plain::Str { name, .. } => name.bytes(),
        Plain::Object { name, .. } => name.bytes(),
    }
}

fn variable_of(plain: &Plain) -> Option<Val<'_>>
    ensures { option_map val_view result ≡ of.variable_of plain.now }
{
    match plain {
        Plain::Int { value, .. } => Some(Val::Int(*value)),
        Plain::Str { value, .. } => Some(Val::Text(value.bytes())),
        Plain::Object { .. } => None,
    }
}

fn rows_of(plain: &Plain) -> &[PlainRow]
    ensures { result.now ≡ of.rows_of plain.now }
{
    match plain {
        Plain::Int { .. } | Plain::Str { .. } => &[],
        Plain::Object { rows, .. } => rows.items(),
    }
}

/// The first variable or object of the name.
fn plain_named<'a>(plains: &'a [Plain], name: &[u8]) -> Option<&'a Plain>
    ensures { option_copied result ≡ specs.plain_named plains.now name.now }
{
    for plain in plains {
        if name_of(plain) == name {
            return Some(plain);
        }
    }
    None
}

fn variable<'a>(plains: &'a [Plain], name: &[u8]) -> Val<'a>
    ensures { val_view result ≡ specs.variable plains.now name.now }
{
    match plain_named(plains, name) {
        Some(plain) => match variable_of(plain) {
            Some(value) => value,
            None => blank(),
        },
        None => blank(),
    }
}

pub fn rows<'a>(plains: &'a [Plain], name: &[u8]) -> &'a [PlainRow]
    ensures { result.now ≡ specs.rows_where (specs.plain_named plains.now name.now) }
{
    match plain_named(plains, name) {
        Some(plain) => rows_of(plain),
        None => &[],
    }
}

/// What a name in an expression stands for: a generator before a variable.
fn named<'a>(plains: &'a [Plain], generators: &[Bound<'a>], word: &[u8]) -> Val<'a>
    ensures { val_view result ≡ values.value_named plains.now (innermost (bounds_view generators.now) word.now) word.now }
{
    match generator_value(generators, word) {
        Some(value) => value,
        None => variable(plains, word),
    }
}

/// What an expression comes to, unless a number in it lies outside the integers.
#[cycle(values)]
#[tactic(auto, unfolding(crate::specs::Values::value_of, crate::specs::Values::truth_of, crate::specs::Values::values_of))]
pub fn value<'a>(
    alloc: Global,
    plains: &'a [Plain],
    part: &'a Part,
    generators: &[Bound<'a>],
) -> Result<Option<Val<'a>>, NoMemory>
    ensures { IfOk result (λ v. option_map val_view v ≡ value_of plains.now (asked part.now) (bounds_view generators.now)) }
{
    match part {
        Part::Literal(minus, number) => Ok(as_value(integer(*minus, *number))),
        Part::Text(bytes) => Ok(Some(Val::Text(bytes.bytes()))),
        Part::Name(word) => Ok(Some(named(plains, generators, word.bytes()))),
        Part::Group(e) => value(alloc, plains, e, generators),
        Part::Product(l, r) => {
            let left = value(alloc, plains, l, generators)?;
            let right = value(alloc, plains, r, generators)?;
            Ok(product(left, right))
        }
        Part::Sum(l, minus, r) => {
            let left = value(alloc, plains, l, generators)?;
            let right = value(alloc, plains, r, generators)?;
            Ok(sum(*minus, left, right))
        }
        Part::Reduced(source, by, minus, number) => match integer(*minus, *number) {
            Some(from) => {
                let found = reduced(alloc, plains, source, Fold { by: *by, from }, generators)?;
                Ok(as_value(found))
            }
            None => Ok(None),
        },
        Part::All(_)
        | Part::Each(_, _, _, _)
        | Part::Always
        | Part::Compares(_, _, _)
        | Part::Both(_, _)
        | Part::Negated(_) => Ok(Some(blank())),
    }
}

/// Whether a condition holds, unless a number in it lies outside the integers.
#[cycle(values)]
#[tactic(auto, unfolding(crate::specs::Values::value_of, crate::specs::Values::truth_of, crate::specs::Values::values_of))]
fn truth<'a>(
    alloc: Global,
    plains: &'a [Plain],
    part: &'a Part,
    generators: &[Bound<'a>],
) -> Result<Option<bool>, NoMemory>
    ensures { IfOk result (λ t. t ≡ truth_of plains.now (asked part.now) (bounds_view generators.now)) }
{
    match part {
        Part::Compares(l, by, r) => {
            let left = value(alloc, plains, l, generators)?;
            let right = value(alloc, plains, r, generators)?;
            Ok(compared(*by, left, right))
        }
        Part::Both(l, r) => {
            let left = truth(alloc, plains, l, generators)?;
            let right = truth(alloc, plains, r, generators)?;
            Ok(both(left, right))
        }
        Part::Negated(c) => {
            let condition = truth(alloc, plains, c, generators)?;
            Ok(negated(condition))
        }
        Part::Literal(_, _)
        | Part::Text(_)
        | Part::Name(_)
        | Part::Group(_)
        | Part::Product(_, _)
        | Part::Sum(_, _, _)
        | Part::All(_)
        | Part::Each(_, _, _, _)
        | Part::Reduced(_, _, _, _)
        | Part::Always => Ok(Some(true)),
    }
}

fn some_given(value: Option<Val<'_>>) -> Option<Option<Val<'_>>>
    ensures { option_map (option_map val_view) result ≡ option_map Some (option_map val_view value.entry) }
{
    match value {
        Some(value) => Some(Some(value)),
        None => None,
    }
}

/// What one element of an aggregate gives: nothing where the condition doesn't hold.
#[cycle(values)]
#[tactic(auto, unfolding(crate::specs::Values::value_of, crate::specs::Values::truth_of, crate::specs::Values::values_of))]
pub fn element<'a>(
    alloc: Global,
    plains: &'a [Plain],
    source: &'a Part,
    value_at: Val<'a>,
    generators: &[Bound<'a>],
) -> Result<Option<Option<Val<'a>>>, NoMemory>
    ensures { IfOk result (λ v. option_map (option_map val_view) v
        ≡ element_of plains.now (asked source.now) (bounds_view generators.now) (val_view value_at.entry)) }
{
    match source {
        Part::Each(own, _, condition, gives) => {
            let inner = inside(alloc, own, value_at, generators)?;
            match truth(alloc, plains, condition, &inner)? {
                None => Ok(None),
                Some(false) => Ok(Some(None)),
                Some(true) => Ok(some_given(value(alloc, plains, gives, &inner)?)),
            }
        }
        Part::Literal(_, _)
        | Part::Text(_)
        | Part::Name(_)
        | Part::Group(_)
        | Part::Product(_, _)
        | Part::Sum(_, _, _)
        | Part::All(_)
        | Part::Reduced(_, _, _, _)
        | Part::Always
        | Part::Compares(_, _, _)
        | Part::Both(_, _)
        | Part::Negated(_) => Ok(Some(None)),
    }
}

/// The object of an aggregate.
pub fn object_of(source: &Part) -> &[u8]
    ensures { result.now ≡ object_in (asked source.now) }
{
    match source {
        Part::Each(_, object, _, _) => object.bytes(),
        Part::Literal(_, _)
        | Part::Text(_)
        | Part::Name(_)
        | Part::Group(_)
        | Part::Product(_, _)
        | Part::Sum(_, _, _)
        | Part::All(_)
        | Part::Reduced(_, _, _, _)
        | Part::Always
        | Part::Compares(_, _, _)
        | Part::Both(_, _)
        | Part::Negated(_) => &[],
    }
}

/// A fold with what one element gives, if it gives anything.
fn one_more(by: Oper, from: i64, given: Option<Option<Val<'_>>>) -> Option<i64>
    ensures { result ≡ stepped by from (option_map (option_map val_view) given.entry) }
{
    match given {
        None => None,
        Some(None) => Some(from),
        Some(Some(value)) => combined(by, from, integer_in(value)),
    }
}

/// The fold of what an aggregate gives.
#[cycle(values)]
#[tactic(auto, using(crate::proofs::Folds::one_more, crate::proofs::Folds::past))]
fn fold_each<'a>(
    alloc: Global,
    plains: &'a [Plain],
    source: &'a Part,
    fold: Fold,
    generators: &[Bound<'a>],
) -> Result<Option<i64>, NoMemory>
    ensures { IfOk result (λ z. z ≡ option_and_then (folded fold.by fold.from)
        (all_kept (map (λ v. element_of plains.now (asked source.now) (bounds_view generators.now) v) (specs.elements plains.now (object_in (asked source.now)))))) }
{
    let mut made = fold.from;
    let all = rows(plains, object_of(source));
    for row in all {
        let given = element(alloc, plains, source, val_of(&row.value), generators)?;
        let Some(more) = one_more(fold.by, made, given) else {
            return Ok(None);
        };
        made = more;
    }
    Ok(Some(made))
}

/// The fold of all elements of an object.
#[tactic(auto, using(crate::proofs::Folds::row_past))]
fn fold_all(rows: &[PlainRow], fold: Fold) -> Option<i64>
    ensures { result ≡ folded fold.by fold.from (map (λ r. r.value) rows.now) }
{
    let mut made = fold.from;
    for row in rows {
        let Some(more) = combined(fold.by, made, integer_in(val_of(&row.value))) else {
            return None;
        };
        made = more;
    }
    Some(made)
}

/// The fold of a source.
#[cycle(values)]
#[tactic(auto, unfolding(crate::specs::Values::value_of, crate::specs::Values::truth_of, crate::specs::Values::values_of))]
fn reduced<'a>(
    alloc: Global,
    plains: &'a [Plain],
    source: &'a Part,
    fold: Fold,
    generators: &[Bound<'a>],
) -> Result<Option<i64>, NoMemory>
    ensures { IfOk result (λ z. z ≡ option_and_then (folded fold.by fold.from) (values_of plains.now (asked source.now) (bounds_view generators.now))) }
{
    match source {
        Part::All(word) => Ok(fold_all(rows(plains, word.bytes()), fold)),
        Part::Each(_, _, _, _) => fold_each(alloc, plains, source, fold, generators),
        Part::Literal(_, _)
        | Part::Text(_)
        | Part::Name(_)
        | Part::Group(_)
        | Part::Product(_, _)
        | Part::Sum(_, _, _)
        | Part::Reduced(_, _, _, _)
        | Part::Always
        | Part::Compares(_, _, _)
        | Part::Both(_, _)
        | Part::Negated(_) => Ok(Some(fold.from)),
    }
}
