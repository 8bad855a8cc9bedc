//! The types of questions.
ghost use Rattle.std.specs.Prelude.{◌≡◌, ◌∷◌, IfOk};
ghost use Rattle.ac_rules.specs.Rules as rules;
ghost use Rattle.ac_aggregate.specs.Entries.{entries_view};
ghost use Rattle.ac_aggregate.specs.Generators.{generator, innermost};
ghost use Rattle.ac_aggregate.specs.Names as questions;
ghost use Rattle.ac_aggregate.specs.Typed.{typed_view};
ghost use Rattle.ac_aggregate.specs.Views.{asked};

use crate::part::Part;
use crate::scope::{Entry, elements_kind, variable_kind};
use crate::sort::Sort;
use ac_base::NoMemory;
use ac_syntax::{ElemKind, Ident};
use std::alloc::Global;

/// A generator and the type of its elements.
#[derive(Drop)]
pub struct Typed {
    pub name: Ident,
    pub kind: ElemKind,
}

/// The type of the innermost generator of the name, if there is one.
fn generator_kind(generators: &[Typed], word: &[u8]) -> Option<ElemKind>
    ensures { result ≡ innermost (typed_view generators.now) word.now }
{
    for generator in generators {
        if generator.name.bytes() == word {
            return Some(generator.kind);
        }
    }
    None
}

/// The generators in scope in an aggregate, whose own one is the innermost.
fn inside(
    alloc: Global,
    own: &Ident,
    kind: ElemKind,
    outer: &[Typed],
) -> Result<Vec<Typed>, NoMemory>
    ensures { IfOk result (λ made. typed_view made.items ≡ generator own.now kind ∷ typed_view outer.now) }
{
    let mut made = Vec::new(alloc);
    let name = own.copy(alloc)?;
    made.push(Typed { name, kind })?;
    for generator in outer {
        let name = generator.name.copy(alloc)?;
        let kind = generator.kind;
        made.push(Typed { name, kind })?;
    }
    Ok(made)
}

fn name_kind(scope: &[Entry<'_>], generators: &[Typed], word: &[u8]) -> Option<ElemKind>
    ensures { result ≡ questions.name_kind (entries_view scope.now) (innermost (typed_view generators.now) word.now) word.now }
{
    match generator_kind(generators, word) {
        Some(kind) => Some(kind),
        None => variable_kind(scope, word),
    }
}

fn object_kind(scope: &[Entry<'_>], generators: &[Typed], word: &[u8]) -> Option<ElemKind>
    ensures { result ≡ questions.object_kind (entries_view scope.now) (innermost (typed_view generators.now) word.now) word.now }
{
    match generator_kind(generators, word) {
        Some(_) => None,
        None => elements_kind(scope, word),
    }
}

fn is_elem(wanted: ElemKind, found: ElemKind) -> bool
    ensures { result ≡ rules.is_elem wanted found }
{
    found == wanted
}

fn is_integer(sort: Option<Sort>) -> bool
    ensures { result ≡ questions.is_integer sort }
{
    match sort {
        Some(Sort::One(kind)) => is_elem(ElemKind::Integer, kind),
        _ => false,
    }
}

fn are_integers(sort: Option<Sort>) -> bool
    ensures { result ≡ questions.are_integers sort }
{
    match sort {
        Some(Sort::Many(kind)) => is_elem(ElemKind::Integer, kind),
        _ => false,
    }
}

fn is_truth(sort: Option<Sort>) -> bool
    ensures { result ≡ questions.is_truth sort }
{
    matches!(sort, Some(Sort::Truth))
}

/// Whether both sides are values of one type.
fn is_comparable(left: Option<Sort>, right: Option<Sort>) -> bool
    ensures { result ≡ questions.is_comparable left right }
{
    match (left, right) {
        (Some(Sort::One(kind)), Some(Sort::One(other))) => is_elem(kind, other),
        _ => false,
    }
}

fn sort_where(is: bool, sort: Sort) -> Option<Sort>
    ensures { result ≡ questions.sort_where is sort }
{
    if is { Some(sort) } else { None }
}

/// What an aggregate gives, by its condition and by one element of it.
fn given_sort(condition: Option<Sort>, gives: Option<Sort>) -> Option<Sort>
    ensures { result ≡ questions.given_sort condition gives }
{
    match gives {
        Some(Sort::One(kind)) => sort_where(is_truth(condition), Sort::Many(kind)),
        _ => None,
    }
}

fn one_of(kind: Option<ElemKind>) -> Option<Sort>
    ensures { result ≡ questions.one_of kind }
{
    match kind {
        Some(kind) => Some(Sort::One(kind)),
        None => None,
    }
}

fn many_of(kind: Option<ElemKind>) -> Option<Sort>
    ensures { result ≡ questions.many_of kind }
{
    match kind {
        Some(kind) => Some(Sort::Many(kind)),
        None => None,
    }
}

/// Two operands of a sum or a product.
fn number_sort(left: Option<Sort>, right: Option<Sort>) -> Option<Sort>
    ensures { result ≡ questions.number_sort left right }
{
    sort_where(
        is_integer(left) && is_integer(right),
        Sort::One(ElemKind::Integer),
    )
}

/// Of which sort a part is, unless a type in it is wrong.
pub fn sort_of(
    alloc: Global,
    scope: &[Entry<'_>],
    part: &Part,
    generators: &[Typed],
) -> Result<Option<Sort>, NoMemory>
    ensures { IfOk result (λ sort. sort ≡ questions.sort_of (entries_view scope.now) (asked part.now) (typed_view generators.now)) }
{
    match part {
        Part::Literal(_, _) => Ok(Some(Sort::One(ElemKind::Integer))),
        Part::Text(_) => Ok(Some(Sort::One(ElemKind::Str))),
        Part::Always => Ok(Some(Sort::Truth)),
        Part::Name(word) => Ok(one_of(name_kind(scope, generators, word.bytes()))),
        Part::All(word) => Ok(many_of(object_kind(scope, generators, word.bytes()))),
        Part::Group(e) => sort_of(alloc, scope, e, generators),
        Part::Negated(c) => {
            let found = sort_of(alloc, scope, c, generators)?;
            Ok(sort_where(is_truth(found), Sort::Truth))
        }
        Part::Reduced(source, _, _, _) => {
            let found = sort_of(alloc, scope, source, generators)?;
            Ok(sort_where(are_integers(found), Sort::One(ElemKind::Integer)))
        }
        Part::Product(l, r) => {
            let left = sort_of(alloc, scope, l, generators)?;
            let right = sort_of(alloc, scope, r, generators)?;
            Ok(number_sort(left, right))
        }
        Part::Sum(l, _, r) => {
            let left = sort_of(alloc, scope, l, generators)?;
            let right = sort_of(alloc, scope, r, generators)?;
            Ok(number_sort(left, right))
        }
        Part::Compares(l, _, r) => {
            let left = sort_of(alloc, scope, l, generators)?;
            let right = sort_of(alloc, scope, r, generators)?;
            Ok(sort_where(is_comparable(left, right), Sort::Truth))
        }
        Part::Both(l, r) => {
            let left = sort_of(alloc, scope, l, generators)?;
            let right = sort_of(alloc, scope, r, generators)?;
            Ok(sort_where(is_truth(left) && is_truth(right), Sort::Truth))
        }
        Part::Each(own, object, c, e) => match object_kind(scope, generators, object.bytes()) {
            Some(kind) => {
                let inner = inside(alloc, own, kind, generators)?;
                let condition = sort_of(alloc, scope, c, &inner)?;
                let gives = sort_of(alloc, scope, e, &inner)?;
                Ok(given_sort(condition, gives))
            }
            None => Ok(None),
        },
    }
}
