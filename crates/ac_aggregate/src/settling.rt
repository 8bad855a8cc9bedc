//! Questions whose closed reductions are made once, before the rest of the question is answered.
ghost use Rattle.std.specs.Prelude.{◌≡◌, true, IfOk};
ghost use Rattle.ac_aggregate.specs.Answers.{val_view, bounds_view};
ghost use Rattle.ac_aggregate.specs.Asked as what;
ghost use Rattle.ac_aggregate.specs.Settled as settled;
ghost use Rattle.ac_aggregate.specs.Settled.{names_of, names_none, StandsFor};
ghost use Rattle.ac_aggregate.specs.Values as values;
ghost use Rattle.ac_aggregate.specs.Views.{asked, asked_in};
ghost use Rattle.std.specs.Option.{option_map};

use crate::making::{both, compares, product, sum};
use crate::names::inside;
use crate::oper::Oper;
use crate::part::Part;
use crate::tools::spelling;
use crate::values::{Val, blank, integer_in};
use crate::valuing::{Bound, value};
use ac_base::NoMemory;
use ac_calls::Plain;
use ac_syntax::{Ident, StringBytes};
use std::alloc::Global;

fn is_among(generators: &[Ident], word: &[u8]) -> bool
    ensures { result ≡ settled.is_among generators.now word.now }
{
    generators.iter().any(|own| own.bytes() == word)
}

/// Whether none of these generators is named in a part.
fn names_none(part: &Part, generators: &[Ident]) -> bool
    ensures { result ≡ settled.names_none (asked part.now) generators.now }
{
    match part {
        Part::Literal(_, _) | Part::Text(_) | Part::All(_) | Part::Always => true,
        Part::Name(word) => !is_among(generators, word.bytes()),
        Part::Group(e) => names_none(e, generators),
        Part::Negated(c) => names_none(c, generators),
        Part::Reduced(source, _, _, _) => names_none(source, generators),
        Part::Product(l, r) => names_none(l, generators) && names_none(r, generators),
        Part::Sum(l, _, r) => names_none(l, generators) && names_none(r, generators),
        Part::Compares(l, _, r) => names_none(l, generators) && names_none(r, generators),
        Part::Both(l, r) => names_none(l, generators) && names_none(r, generators),
        Part::Each(_, _, c, e) => names_none(c, generators) && names_none(e, generators),
    }
}

/// These generators, with values that don't matter.
fn blanks(alloc: Global, generators: &[Ident]) -> Result<Vec<Bound<'_>>, NoMemory>
    ensures { IfOk result (λ made. names_of (bounds_view made.items) ≡ generators.now) }
{
    let mut made = Vec::new(alloc);
    for name in generators {
        made.push(Bound {
            name,
            value: blank(),
        })?;
    }
    Ok(made)
}

/// A part that comes to this number, or to none.
fn known(value: Option<Val<'_>>) -> Part
    ensures { settled.IsSpelledAs (asked result) (option_map values.integer_in (option_map val_view value.entry)) }
{
    match value {
        Some(value) => spelling(integer_in(value)),
        None => Part::Literal(false, 9_223_372_036_854_775_808),
    }
}

#[inline(never)]
fn literal(alloc: Global, minus: bool, number: u64) -> Result<Box<Part>, NoMemory>
    ensures { IfOk result (λ made. asked_in made ≡ what.literal minus number) }
{
    Ok(Box::new(alloc, Part::Literal(minus, number))?)
}

#[inline(never)]
fn text(alloc: Global, bytes: &StringBytes) -> Result<Box<Part>, NoMemory>
    ensures { IfOk result (λ made. asked_in made ≡ what.text bytes.now) }
{
    let bytes = bytes.copy(alloc)?;
    Ok(Box::new(alloc, Part::Text(bytes))?)
}

#[inline(never)]
fn name(alloc: Global, word: &Ident) -> Result<Box<Part>, NoMemory>
    ensures { IfOk result (λ made. asked_in made ≡ what.name word.now) }
{
    let word = word.copy(alloc)?;
    Ok(Box::new(alloc, Part::Name(word))?)
}

#[inline(never)]
fn all_of(alloc: Global, word: &Ident) -> Result<Box<Part>, NoMemory>
    ensures { IfOk result (λ made. asked_in made ≡ what.all_of word.now) }
{
    let word = word.copy(alloc)?;
    Ok(Box::new(alloc, Part::All(word))?)
}

#[inline(never)]
fn always(alloc: Global) -> Result<Box<Part>, NoMemory>
    ensures { IfOk result (λ made. asked_in made ≡ what.always) }
{
    Ok(Box::new(alloc, Part::Always)?)
}

#[inline(never)]
fn group(alloc: Global, e: Box<Part>) -> Result<Box<Part>, NoMemory>
    ensures { IfOk result (λ made. asked_in made ≡ what.group (asked_in e)) }
{
    Ok(Box::new(alloc, Part::Group(e))?)
}

#[inline(never)]
fn negated(alloc: Global, c: Box<Part>) -> Result<Box<Part>, NoMemory>
    ensures { IfOk result (λ made. asked_in made ≡ what.negated (asked_in c)) }
{
    Ok(Box::new(alloc, Part::Negated(c))?)
}

#[inline(never)]
fn each(
    alloc: Global,
    own: &Ident,
    object: &Ident,
    c: Box<Part>,
    e: Box<Part>,
) -> Result<Box<Part>, NoMemory>
    ensures { IfOk result (λ made. asked_in made ≡ what.each own.now object.now (asked_in c) (asked_in e)) }
{
    let own = own.copy(alloc)?;
    let object = object.copy(alloc)?;
    Ok(Box::new(alloc, Part::Each(own, object, c, e))?)
}

#[inline(never)]
fn reduction(
    alloc: Global,
    source: Box<Part>,
    by: Oper,
    minus: bool,
    number: u64,
) -> Result<Box<Part>, NoMemory>
    ensures { IfOk result (λ made. asked_in made ≡ what.reduced (asked_in source) by minus number) }
{
    Ok(Box::new(alloc, Part::Reduced(source, by, minus, number))?)
}

/// A reduction, or its number where it names none of the generators round it.
#[inline(never)]
fn once(
    alloc: Global,
    plains: &[Plain],
    part: &Part,
    made: Box<Part>,
    generators: &[Ident],
) -> Result<Box<Part>, NoMemory>
    requires reduced { settled.is_reduction (asked part.now) ≡ true }
    requires stands { StandsFor plains.now generators.now (asked_in made) (asked part.now) }
    ensures { IfOk result (λ found. StandsFor plains.now generators.now (asked_in found) (asked part.now)) }
{
    if !names_none(part, generators) {
        return Ok(made);
    }
    let blanks = blanks(alloc, generators)?;
    let made = known(value(alloc, plains, &made, &blanks)?);
    Ok(Box::new(alloc, made)?)
}

/// A part that stands for this one, in which each reduction that names no generator round it is a number.
#[tactic(auto, using(crate::proofs::Stands::itself))]
pub fn settle(
    alloc: Global,
    plains: &[Plain],
    part: &Part,
    generators: &[Ident],
) -> Result<Box<Part>, NoMemory>
    ensures { IfOk result (λ made. StandsFor plains.now generators.now (asked_in made) (asked part.now)) }
{
    match part {
        Part::Literal(minus, number) => literal(alloc, *minus, *number),
        Part::Text(bytes) => text(alloc, bytes),
        Part::Name(word) => name(alloc, word),
        Part::All(word) => all_of(alloc, word),
        Part::Always => always(alloc),
        Part::Group(e) => {
            let e = settle(alloc, plains, e, generators)?;
            group(alloc, e)
        }
        Part::Negated(c) => {
            let c = settle(alloc, plains, c, generators)?;
            negated(alloc, c)
        }
        Part::Product(l, r) => {
            let l = settle(alloc, plains, l, generators)?;
            let r = settle(alloc, plains, r, generators)?;
            product(alloc, l, r)
        }
        Part::Sum(l, minus, r) => {
            let l = settle(alloc, plains, l, generators)?;
            let r = settle(alloc, plains, r, generators)?;
            sum(alloc, l, *minus, r)
        }
        Part::Compares(l, by, r) => {
            let l = settle(alloc, plains, l, generators)?;
            let r = settle(alloc, plains, r, generators)?;
            compares(alloc, l, *by, r)
        }
        Part::Both(l, r) => {
            let l = settle(alloc, plains, l, generators)?;
            let r = settle(alloc, plains, r, generators)?;
            both(alloc, l, r)
        }
        Part::Each(own, object, c, e) => {
            let inner = inside(alloc, own, generators)?;
            let c = settle(alloc, plains, c, &inner)?;
            let e = settle(alloc, plains, e, &inner)?;
            each(alloc, own, object, c, e)
        }
        Part::Reduced(source, by, minus, number) => {
            let source = settle(alloc, plains, source, generators)?;
            let made = reduction(alloc, source, *by, *minus, *number)?;
            once(alloc, plains, part, made, generators)
        }
    }
}
