//! Answers to questions.
ghost use Rattle.std.specs.Prelude.{◌≡◌, [], map, IfOk, OnOk};
ghost use Rattle.std.specs.Option.{option_map};
ghost use Rattle.ac_aggregate.specs.Answers.{val_view, givens_view, answer_view};
ghost use Rattle.ac_aggregate.specs.Asking.{asked_by};
ghost use Rattle.ac_aggregate.specs.Plains as specs;
ghost use Rattle.ac_aggregate.specs.Values as values;
ghost use Rattle.ac_aggregate.specs.Values.{element_of, object_in, all_kept, ask_of};
ghost use Rattle.ac_aggregate.specs.Views.{asked};

use crate::part::Part;
use crate::question::Question;
use crate::settling::settle;
use crate::values::{Given, Val, Values, integer_in, keep, val_of};
use crate::valuing::{element, object_of, rows, value};
use ac_base::NoMemory;
use ac_calls::{Plain, Plains};
use std::alloc::Global;

/// What a question comes to.
#[derive(Drop)]
pub enum AskAnswer {
    Number(i64),
    Listing(Values),
    /// A number that is made lies outside the integers.
    Overflow,
}

/// Adds what an element gives, if it gives anything.
fn note(alloc: Global, made: &mut Vec<Given>, value: Option<Val<'_>>) -> Result<(), NoMemory>
    ensures { OnOk result (givens_view made.new.items ≡ values.with_given (givens_view made.old.items) (option_map val_view value.entry)) }
{
    match value {
        None => Ok(()),
        Some(value) => Ok(made.push(keep(alloc, value)?)?),
    }
}

/// All that an aggregate gives.
#[tactic(auto, using(crate::proofs::Folds::one_given, crate::proofs::Folds::from_none))]
fn listing<'a>(
    alloc: Global,
    plains: &'a [Plain],
    source: &'a Part,
) -> Result<Option<Vec<Given>>, NoMemory>
    ensures { IfOk result (λ vs. option_map (λ made. givens_view made.items) vs
        ≡ all_kept (map (λ v. element_of plains.now (asked source.now) [] v) (specs.elements plains.now (object_in (asked source.now))))) }
{
    let mut made = Vec::new(alloc);
    let all = rows(plains, object_of(source));
    for row in all {
        match element(alloc, plains, source, val_of(&row.value), &[])? {
            Some(value) => note(alloc, &mut made, value)?,
            None => return Ok(None),
        }
    }
    Ok(Some(made))
}

fn is_aggregate(part: &Part) -> bool
    ensures { result ≡ values.is_aggregate (asked part.now) }
{
    match part {
        Part::Each(_, _, _, _) => true,
        Part::Literal(_, _)
        | Part::Text(_)
        | Part::Name(_)
        | Part::Group(_)
        | Part::Product(_, _)
        | Part::Sum(_, _, _)
        | Part::All(_)
        | Part::Reduced(_, _, _, _)
        | Part::Always
        | Part::Compares(_, _, _)
        | Part::Both(_, _)
        | Part::Negated(_) => false,
    }
}

fn listed(made: Option<Vec<Given>>) -> AskAnswer
    ensures { answer_view result ≡ values.answers_listing (option_map (λ made. givens_view made.items) made) }
{
    match made {
        Some(items) => AskAnswer::Listing(Values::from_vec(items)),
        None => AskAnswer::Overflow,
    }
}

fn numbered(value: Option<Val<'_>>) -> AskAnswer
    ensures { answer_view result ≡ values.answers_number (option_map val_view value.entry) }
{
    match value {
        Some(value) => AskAnswer::Number(integer_in(value)),
        None => AskAnswer::Overflow,
    }
}

impl Question {
    /// What the question comes to where these are the variables and objects.
    #[tactic(auto, using(crate::proofs::Answered::listed_is, crate::proofs::Answered::numbered_is))]
    pub fn answer(&self, alloc: Global, plains: &Plains) -> Result<AskAnswer, NoMemory>
        ensures { IfOk result (λ answer. answer_view answer ≡ ask_of (asked_by self.now) plains.now) }
    {
        let made = settle(alloc, plains.items(), self.part(), &[])?;
        let part = &*made;
        if is_aggregate(part) {
            Ok(listed(listing(alloc, plains.items(), part)?))
        } else {
            Ok(numbered(value(alloc, plains.items(), part, &[])?))
        }
    }
}
