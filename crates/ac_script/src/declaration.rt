//! Declarations, from the word `type` or the name and the colon on.
ghost use Rattle.std.specs.Prelude.{◌≡◌};
ghost use Rattle.ac_script.specs.Outcomes.{Reads};
ghost use Rattle.ac_script.specs.Declarations as declarations;

use crate::reader::{find_mark, find_word, is, mark, name, number, word};
use crate::stop::Stop;
use ac_syntax::{Decl, ElemKind, Ident, Kind, Mark, Placed, Token, TypeDef};
use std::alloc::Global;

fn elem_of(word: &[u8]) -> Option<ElemKind>
    ensures { result ≡ declarations.elem_of word.now }
{
    if is(word, b"integer") {
        Some(ElemKind::Integer)
    } else if is(word, b"string") {
        Some(ElemKind::Str)
    } else {
        None
    }
}

#[tactic(auto, unfolding(crate::specs::Declarations::other_kind))]
fn other_kind(word: &[u8]) -> Option<Kind>
    ensures { result ≡ declarations.other_kind word.now }
{
    if is(word, b"ordered_set") {
        Some(Kind::OrderedSet)
    } else if is(word, b"tree") {
        Some(Kind::Tree)
    } else if is(word, b"holder") {
        Some(Kind::Holder)
    } else if is(word, b"queue") {
        Some(Kind::Queue)
    } else if is(word, b"priority_queue") {
        Some(Kind::PriorityQueue)
    } else {
        None
    }
}

#[tactic(auto, unfolding(crate::specs::Declarations::kind_of))]
fn kind_of(word: &[u8]) -> Option<Kind>
    ensures { result ≡ declarations.kind_of word.now }
{
    if is(word, b"vector") {
        Some(Kind::Vector)
    } else if is(word, b"list") {
        Some(Kind::List)
    } else if is(word, b"hashed_map") {
        Some(Kind::HashedMap)
    } else if is(word, b"ordered_map") {
        Some(Kind::OrderedMap)
    } else if is(word, b"hashed_set") {
        Some(Kind::HashedSet)
    } else {
        other_kind(word)
    }
}

fn elem(tokens: &[Placed]) -> Result<(ElemKind, &[Placed]), Stop<'_>>
    ensures { Reads (λ value. value) result (declarations.elem tokens.now) }
{
    if let [
        Placed {
            token: Token::Word(found),
            ..
        },
        rest @ ..,
    ] = tokens
        && let Some(elem) = elem_of(found.bytes())
    {
        return Ok((elem, rest));
    }
    Err(Stop::At(tokens))
}

fn kind(tokens: &[Placed]) -> Result<(Kind, &[Placed]), Stop<'_>>
    ensures { Reads (λ value. value) result (declarations.kind tokens.now) }
{
    if let [
        Placed {
            token: Token::Word(found),
            ..
        },
        rest @ ..,
    ] = tokens
        && let Some(kind) = kind_of(found.bytes())
    {
        return Ok((kind, rest));
    }
    Err(Stop::At(tokens))
}

#[tactic(auto, unfolding(crate::specs::Declarations::bounded_kind))]
fn bounded_kind(tokens: &[Placed]) -> Result<((bool, Kind), &[Placed]), Stop<'_>>
    ensures { Reads (λ value. value) result (declarations.bounded_kind tokens.now) }
{
    match find_word(tokens, b"bounded") {
        Some(rest) => {
            let (kind, rest) = kind(rest)?;
            Ok(((true, kind), rest))
        }
        None => {
            let (kind, rest) = kind(tokens)?;
            Ok(((false, kind), rest))
        }
    }
}

#[tactic(auto, unfolding(crate::specs::Declarations::second_elem))]
fn second_elem(tokens: &[Placed]) -> Result<(Option<ElemKind>, &[Placed]), Stop<'_>>
    ensures { Reads (λ value. value) result (declarations.second_elem tokens.now) }
{
    match find_mark(tokens, Mark::Comma) {
        Some(rest) => {
            let (elem, rest) = elem(rest)?;
            Ok((Some(elem), mark(rest, Mark::Close)?))
        }
        None => Ok((None, mark(tokens, Mark::Close)?)),
    }
}

#[tactic(auto, unfolding(crate::specs::Declarations::keyed_end))]
fn keyed_end(tokens: &[Placed]) -> Result<(bool, &[Placed]), Stop<'_>>
    ensures { Reads (λ value. value) result (declarations.keyed_end tokens.now) }
{
    match find_word(tokens, b"keyed") {
        Some(rest) => Ok((true, mark(rest, Mark::Semicolon)?)),
        None => Ok((false, mark(tokens, Mark::Semicolon)?)),
    }
}

#[tactic(auto, unfolding(crate::specs::Declarations::type_def))]
fn type_def(tokens: &[Placed]) -> Result<(TypeDef, &[Placed]), Stop<'_>>
    ensures { Reads (λ value. value) result (declarations.type_def tokens.now) }
{
    let ((bounded, kind), rest) = bounded_kind(tokens)?;
    let rest = mark(rest, Mark::Open)?;
    let (first, rest) = elem(rest)?;
    let (second, rest) = second_elem(rest)?;
    let (keyed, rest) = keyed_end(rest)?;
    let def = TypeDef {
        bounded,
        kind,
        first,
        second,
        keyed,
    };
    Ok((def, rest))
}

/// What follows the word `type`.
#[tactic(auto, unfolding(crate::specs::Declarations::type_declaration))]
pub fn type_declaration(
    alloc: Global,
    line: u64,
    tokens: &[Placed],
) -> Result<(Decl, &[Placed]), Stop<'_>>
    ensures { Reads (λ value. value) result (declarations.type_declaration line tokens.now) }
{
    let (name, rest) = name(tokens)?;
    let rest = word(rest, b"is")?;
    let (def, rest) = type_def(rest)?;
    let name = name.copy(alloc)?;
    Ok((Decl::TypeDecl { line, name, def }, rest))
}

#[tactic(auto, unfolding(crate::specs::Declarations::capacity_end))]
fn capacity_end(tokens: &[Placed]) -> Result<(Option<u64>, &[Placed]), Stop<'_>>
    ensures { Reads (λ value. value) result (declarations.capacity_end tokens.now) }
{
    match find_mark(tokens, Mark::Open) {
        Some(rest) => {
            let (capacity, rest) = number(rest)?;
            let rest = mark(rest, Mark::Close)?;
            Ok((Some(capacity), mark(rest, Mark::Semicolon)?))
        }
        None => Ok((None, mark(tokens, Mark::Semicolon)?)),
    }
}

#[tactic(auto, unfolding(crate::specs::Declarations::integer_end))]
pub fn integer_end<'a>(
    alloc: Global,
    line: u64,
    name: &Ident,
    tokens: &'a [Placed],
) -> Result<(Decl, &'a [Placed]), Stop<'a>>
    ensures { Reads (λ value. value) result (declarations.integer_end line name.now tokens.now) }
{
    let rest = mark(tokens, Mark::Semicolon)?;
    let name = name.copy(alloc)?;
    Ok((Decl::IntVar { line, name }, rest))
}

#[tactic(auto, unfolding(crate::specs::Declarations::text_end))]
fn text_end<'a>(
    alloc: Global,
    line: u64,
    name: &Ident,
    tokens: &'a [Placed],
) -> Result<(Decl, &'a [Placed]), Stop<'a>>
    ensures { Reads (λ value. value) result (declarations.text_end line name.now tokens.now) }
{
    let rest = mark(tokens, Mark::Semicolon)?;
    let name = name.copy(alloc)?;
    Ok((Decl::TextVar { line, name }, rest))
}

#[tactic(auto, unfolding(crate::specs::Declarations::cursor_end))]
fn cursor_end<'a>(
    alloc: Global,
    line: u64,
    name: &Ident,
    of: &Ident,
    tokens: &'a [Placed],
) -> Result<(Decl, &'a [Placed]), Stop<'a>>
    ensures { Reads (λ value. value) result (declarations.cursor_end line name.now of.now tokens.now) }
{
    let rest = word(tokens, b"cursor")?;
    let rest = mark(rest, Mark::Semicolon)?;
    let name = name.copy(alloc)?;
    let of = of.copy(alloc)?;
    Ok((Decl::CursorVar { line, name, of }, rest))
}

#[tactic(auto, unfolding(crate::specs::Declarations::object_end))]
fn object_end<'a>(
    alloc: Global,
    line: u64,
    name: &Ident,
    of: &Ident,
    tokens: &'a [Placed],
) -> Result<(Decl, &'a [Placed]), Stop<'a>>
    ensures { Reads (λ value. value) result (declarations.object_end line name.now of.now tokens.now) }
{
    let (capacity, rest) = capacity_end(tokens)?;
    let object = Decl::Object {
        line,
        name: name.copy(alloc)?,
        of: of.copy(alloc)?,
        capacity,
    };
    Ok((object, rest))
}

#[tactic(auto, unfolding(crate::specs::Declarations::typed_end))]
fn typed_end<'a>(
    alloc: Global,
    line: u64,
    name: &Ident,
    of: &Ident,
    tokens: &'a [Placed],
) -> Result<(Decl, &'a [Placed]), Stop<'a>>
    ensures { Reads (λ value. value) result (declarations.typed_end line name.now of.now tokens.now) }
{
    match find_mark(tokens, Mark::Dot) {
        Some(rest) => cursor_end(alloc, line, name, of, rest),
        None => object_end(alloc, line, name, of, tokens),
    }
}

#[tactic(auto, unfolding(crate::specs::Declarations::typed))]
fn typed<'a>(
    alloc: Global,
    line: u64,
    declared: &Ident,
    tokens: &'a [Placed],
) -> Result<(Decl, &'a [Placed]), Stop<'a>>
    ensures { Reads (λ value. value) result (declarations.typed line declared.now tokens.now) }
{
    let (of, rest) = name(tokens)?;
    typed_end(alloc, line, declared, of, rest)
}

#[tactic(auto, unfolding(crate::specs::Declarations::text_or_typed))]
fn text_or_typed<'a>(
    alloc: Global,
    line: u64,
    name: &Ident,
    tokens: &'a [Placed],
) -> Result<(Decl, &'a [Placed]), Stop<'a>>
    ensures { Reads (λ value. value) result (declarations.text_or_typed line name.now tokens.now) }
{
    match find_word(tokens, b"string") {
        Some(rest) => text_end(alloc, line, name, rest),
        None => typed(alloc, line, name, tokens),
    }
}

/// What follows a name and a colon.
#[tactic(auto, unfolding(crate::specs::Declarations::declared))]
pub fn declared<'a>(
    alloc: Global,
    line: u64,
    name: &Ident,
    tokens: &'a [Placed],
) -> Result<(Decl, &'a [Placed]), Stop<'a>>
    ensures { Reads (λ value. value) result (declarations.declared line name.now tokens.now) }
{
    match find_word(tokens, b"integer") {
        Some(rest) => integer_end(alloc, line, name, rest),
        None => text_or_typed(alloc, line, name, tokens),
    }
}
