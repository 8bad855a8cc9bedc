//! The names of questions: those that are used, and those of generators.
ghost use Rattle.std.specs.Prelude.{◌≡◌, ◌∷◌, IfOk};
ghost use Rattle.std.specs.List.{list_any};
ghost use Rattle.std.specs.Str.{bytes_eq};
ghost use Rattle.ac_aggregate.specs.Entries.{entries_view};
ghost use Rattle.ac_aggregate.specs.Names as questions;
ghost use Rattle.ac_aggregate.specs.Views.{asked};

use crate::part::Part;
use crate::scope::{Entry, is_in_scope};
use ac_base::NoMemory;
use ac_syntax::Ident;
use std::alloc::Global;

fn is_generator(generators: &[Ident], word: &[u8]) -> bool
    ensures { result ≡ list_any (bytes_eq word.now) generators.now }
{
    generators.iter().any(|own| word == own.bytes())
}

/// Whether a name is an outermost one, or that of a generator.
fn is_named(scope: &[Entry<'_>], generators: &[Ident], word: &[u8]) -> bool
    ensures { result ≡ questions.is_named (entries_view scope.now) generators.now word.now }
{
    is_generator(generators, word) || is_in_scope(scope, word)
}

/// The generators in scope in an aggregate, whose own one is the innermost.
#[inline(never)]
pub fn inside(alloc: Global, own: &Ident, generators: &[Ident]) -> Result<Vec<Ident>, NoMemory>
    ensures { IfOk result (λ made. made.items ≡ own.now ∷ generators.now) }
{
    let mut made = Vec::new(alloc);
    made.push(own.copy(alloc)?)?;
    for generator in generators {
        made.push(generator.copy(alloc)?)?;
    }
    Ok(made)
}

/// Whether each name that is used is known where it stands.
pub fn is_known(
    alloc: Global,
    scope: &[Entry<'_>],
    part: &Part,
    generators: &[Ident],
) -> Result<bool, NoMemory>
    ensures { IfOk result (λ is. is ≡ questions.is_known (entries_view scope.now) (asked part.now) generators.now) }
{
    match part {
        Part::Literal(_, _) | Part::Text(_) | Part::Always => Ok(true),
        Part::Name(word) => Ok(is_named(scope, generators, word.bytes())),
        Part::All(word) => Ok(is_named(scope, generators, word.bytes())),
        Part::Group(e) => is_known(alloc, scope, e, generators),
        Part::Negated(c) => is_known(alloc, scope, c, generators),
        Part::Reduced(source, _, _, _) => is_known(alloc, scope, source, generators),
        Part::Product(l, r) => {
            Ok(is_known(alloc, scope, l, generators)? && is_known(alloc, scope, r, generators)?)
        }
        Part::Sum(l, _, r) => {
            Ok(is_known(alloc, scope, l, generators)? && is_known(alloc, scope, r, generators)?)
        }
        Part::Compares(l, _, r) => {
            Ok(is_known(alloc, scope, l, generators)? && is_known(alloc, scope, r, generators)?)
        }
        Part::Both(l, r) => {
            Ok(is_known(alloc, scope, l, generators)? && is_known(alloc, scope, r, generators)?)
        }
        Part::Each(own, object, c, e) => {
            if !is_named(scope, generators, object.bytes()) {
                return Ok(false);
            }
            let inner = inside(alloc, own, generators)?;
            Ok(is_known(alloc, scope, c, &inner)? && is_known(alloc, scope, e, &inner)?)
        }
    }
}

/// Whether no generator has an outermost name, or that of a generator round it.
pub fn names_differ(
    alloc: Global,
    scope: &[Entry<'_>],
    part: &Part,
    generators: &[Ident],
) -> Result<bool, NoMemory>
    ensures { IfOk result (λ differ. differ ≡ questions.names_differ (entries_view scope.now) (asked part.now) generators.now) }
{
    match part {
        Part::Literal(_, _) | Part::Text(_) | Part::Name(_) | Part::All(_) | Part::Always => Ok(
            true,
        ),
        Part::Group(e) => names_differ(alloc, scope, e, generators),
        Part::Negated(c) => names_differ(alloc, scope, c, generators),
        Part::Reduced(source, _, _, _) => names_differ(alloc, scope, source, generators),
        Part::Product(l, r) => {
            Ok(
                names_differ(alloc, scope, l, generators)?
                    && names_differ(alloc, scope, r, generators)?,
            )
        }
        Part::Sum(l, _, r) => {
            Ok(
                names_differ(alloc, scope, l, generators)?
                    && names_differ(alloc, scope, r, generators)?,
            )
        }
        Part::Compares(l, _, r) => {
            Ok(
                names_differ(alloc, scope, l, generators)?
                    && names_differ(alloc, scope, r, generators)?,
            )
        }
        Part::Both(l, r) => {
            Ok(
                names_differ(alloc, scope, l, generators)?
                    && names_differ(alloc, scope, r, generators)?,
            )
        }
        Part::Each(own, _, c, e) => {
            if is_named(scope, generators, own.bytes()) {
                return Ok(false);
            }
            let inner = inside(alloc, own, generators)?;
            Ok(names_differ(alloc, scope, c, &inner)? && names_differ(alloc, scope, e, &inner)?)
        }
    }
}
