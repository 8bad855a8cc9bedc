//! What begins a block, from its first word on.
ghost use Rattle.std.specs.Prelude.{◌≡◌};
ghost use Rattle.std.specs.Option.{option_copied};
ghost use Rattle.ac_script.specs.Outcomes.{Reads, Finds};
ghost use Rattle.ac_script.specs.Views.{head_view};
ghost use Rattle.ac_script.specs.Heads as heads;

use crate::item::Head;
use crate::names::copy_any;
use crate::reader::{find_word, is, name, word};
use crate::stop::Stop;
use ac_syntax::{Ident, Placed, Token, ViewKind};
use std::alloc::Global;

/// Which block begins.
#[derive(Clone, Copy)]
pub enum Lead {
    For,
    Query,
    Update,
    UpdateKey,
    Reference,
    Stable,
    Declare,
    Tasks,
}

#[tactic(auto, unfolding(crate::specs::Heads::other_lead))]
fn other_lead(word: &[u8]) -> Option<Lead>
    ensures { result ≡ heads.other_lead word.now }
{
    if is(word, b"reference") {
        Some(Lead::Reference)
    } else if is(word, b"stable") {
        Some(Lead::Stable)
    } else if is(word, b"declare") {
        Some(Lead::Declare)
    } else if is(word, b"tasks") {
        Some(Lead::Tasks)
    } else {
        None
    }
}

#[tactic(auto, unfolding(crate::specs::Heads::lead_of))]
fn lead_of(word: &[u8]) -> Option<Lead>
    ensures { result ≡ heads.lead_of word.now }
{
    if is(word, b"for") {
        Some(Lead::For)
    } else if is(word, b"query") {
        Some(Lead::Query)
    } else if is(word, b"update") {
        Some(Lead::Update)
    } else if is(word, b"update_key") {
        Some(Lead::UpdateKey)
    } else {
        other_lead(word)
    }
}

/// The first word of a block.
pub fn find_lead(tokens: &[Placed]) -> Option<(Lead, &[Placed])>
    ensures { Finds (λ read. (read.0, read.1.now)) result tokens.now (heads.first_word tokens.now) }
{
    if let [
        Placed {
            token: Token::Word(found),
            ..
        },
        rest @ ..,
    ] = tokens
        && let Some(lead) = lead_of(found.bytes())
    {
        return Some((lead, rest));
    }
    None
}

fn elements_of(word: &[u8]) -> Option<bool>
    ensures { result ≡ heads.elements_of word.now }
{
    if is(word, b"of") {
        Some(true)
    } else if is(word, b"in") {
        Some(false)
    } else {
        None
    }
}

/// Whether the loop goes over the elements.
fn elements(tokens: &[Placed]) -> Result<(bool, &[Placed]), Stop<'_>>
    ensures { Reads (λ value. value) result (heads.elements tokens.now) }
{
    if let [
        Placed {
            token: Token::Word(found),
            ..
        },
        rest @ ..,
    ] = tokens
        && let Some(elements) = elements_of(found.bytes())
    {
        return Ok((elements, rest));
    }
    Err(Stop::At(tokens))
}

#[tactic(auto, unfolding(crate::specs::Heads::object_loop))]
fn object_loop(backward: bool, tokens: &[Placed]) -> Result<((bool, &Ident), &[Placed]), Stop<'_>>
    ensures { Reads (λ value. (value.0, value.1.now)) result (heads.object_loop backward tokens.now) }
{
    let (object, rest) = name(tokens)?;
    let rest = word(rest, b"loop")?;
    Ok(((backward, object), rest))
}

#[tactic(auto, unfolding(crate::specs::Heads::loop_end))]
fn loop_end(tokens: &[Placed]) -> Result<((bool, &Ident), &[Placed]), Stop<'_>>
    ensures { Reads (λ value. (value.0, value.1.now)) result (heads.loop_end tokens.now) }
{
    match find_word(tokens, b"reverse") {
        Some(rest) => object_loop(true, rest),
        None => object_loop(false, tokens),
    }
}

#[tactic(auto, unfolding(crate::specs::Heads::loop_head))]
fn loop_head(alloc: Global, line: u64, tokens: &[Placed]) -> Result<(Head, &[Placed]), Stop<'_>>
    ensures { Reads head_view result (heads.loop_head line tokens.now) }
{
    let (name, rest) = name(tokens)?;
    let (elements, rest) = elements(rest)?;
    let ((backward, object), rest) = loop_end(rest)?;
    let head = Head::Loop {
        line,
        name: name.copy(alloc)?,
        elements,
        backward,
        object: object.copy(alloc)?,
    };
    Ok((head, rest))
}

#[tactic(auto, unfolding(crate::specs::Heads::place_end))]
fn place_end<'a>(
    tokens: &'a [Placed],
    last: &[u8],
) -> Result<(Option<&'a Ident>, &'a [Placed]), Stop<'a>>
    ensures { Reads option_copied result (heads.place_end last.now tokens.now) }
{
    match find_word(tokens, b"at") {
        Some(rest) => {
            let (cursor, rest) = name(rest)?;
            Ok((Some(cursor), word(rest, last)?))
        }
        None => Ok((None, word(tokens, last)?)),
    }
}

#[tactic(auto, unfolding(crate::specs::Heads::view_head))]
fn view_head(
    alloc: Global,
    kind: ViewKind,
    line: u64,
    tokens: &[Placed],
) -> Result<(Head, &[Placed]), Stop<'_>>
    ensures { Reads head_view result (heads.view_head kind line tokens.now) }
{
    let (object, rest) = name(tokens)?;
    let (at, rest) = place_end(rest, b"as")?;
    let (name, rest) = name(rest)?;
    let rest = word(rest, b"do")?;
    let head = Head::View {
        line,
        kind,
        object: object.copy(alloc)?,
        at: copy_any(alloc, at)?,
        name: name.copy(alloc)?,
    };
    Ok((head, rest))
}

#[tactic(auto, unfolding(crate::specs::Heads::key_head))]
fn key_head(alloc: Global, line: u64, tokens: &[Placed]) -> Result<(Head, &[Placed]), Stop<'_>>
    ensures { Reads head_view result (heads.key_head line tokens.now) }
{
    let (object, rest) = name(tokens)?;
    let rest = word(rest, b"at")?;
    let (cursor, rest) = name(rest)?;
    let rest = word(rest, b"as")?;
    let (name, rest) = name(rest)?;
    let rest = word(rest, b"do")?;
    let head = Head::View {
        line,
        kind: ViewKind::UpdateKey,
        object: object.copy(alloc)?,
        at: Some(cursor.copy(alloc)?),
        name: name.copy(alloc)?,
    };
    Ok((head, rest))
}

#[tactic(auto, unfolding(crate::specs::Heads::reference_head))]
fn reference_head(
    alloc: Global,
    line: u64,
    tokens: &[Placed],
) -> Result<(Head, &[Placed]), Stop<'_>>
    ensures { Reads head_view result (heads.reference_head line tokens.now) }
{
    let (reference, rest) = name(tokens)?;
    let rest = word(rest, b"of")?;
    let (object, rest) = name(rest)?;
    let (at, rest) = place_end(rest, b"do")?;
    let head = Head::View {
        line,
        kind: ViewKind::Reference,
        object: object.copy(alloc)?,
        at: copy_any(alloc, at)?,
        name: reference.copy(alloc)?,
    };
    Ok((head, rest))
}

#[tactic(auto, unfolding(crate::specs::Heads::stable_head))]
fn stable_head(alloc: Global, line: u64, tokens: &[Placed]) -> Result<(Head, &[Placed]), Stop<'_>>
    ensures { Reads head_view result (heads.stable_head line tokens.now) }
{
    let (object, rest) = name(tokens)?;
    let rest = word(rest, b"do")?;
    let object = object.copy(alloc)?;
    Ok((Head::Stable { line, object }, rest))
}

/// What follows the first word of a block.
pub fn head(
    alloc: Global,
    lead: Lead,
    line: u64,
    tokens: &[Placed],
) -> Result<(Head, &[Placed]), Stop<'_>>
    ensures { Reads head_view result (heads.head lead line tokens.now) }
{
    match lead {
        Lead::For => loop_head(alloc, line, tokens),
        Lead::Query => view_head(alloc, ViewKind::Query, line, tokens),
        Lead::Update => view_head(alloc, ViewKind::Update, line, tokens),
        Lead::UpdateKey => key_head(alloc, line, tokens),
        Lead::Reference => reference_head(alloc, line, tokens),
        Lead::Stable => stable_head(alloc, line, tokens),
        Lead::Declare => Ok((Head::Declare { line }, tokens)),
        Lead::Tasks => Ok((Head::Tasks { line }, tokens)),
    }
}

/// What follows the word `task`.
#[tactic(auto, unfolding(crate::specs::Heads::task_head))]
pub fn task_head(alloc: Global, line: u64, tokens: &[Placed]) -> Result<(Head, &[Placed]), Stop<'_>>
    ensures { Reads head_view result (heads.task_head line tokens.now) }
{
    let (name, rest) = name(tokens)?;
    let rest = word(rest, b"is")?;
    let name = name.copy(alloc)?;
    Ok((Head::Task { line, name }, rest))
}
