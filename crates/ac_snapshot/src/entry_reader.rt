//! Readers of types, of what stands behind one, and of entries.
ghost use Rattle.std.specs.Prelude.{◌≡◌, IfOk};
ghost use Rattle.std.specs.Str.{bytes_eq};
ghost use Rattle.ac_syntax.specs.Parts as parts;
ghost use Rattle.ac_snapshot.specs.Outcomes.{Finds};
ghost use Rattle.ac_snapshot.specs.EntryReaders as readers;

use crate::row_reader::listed;
use crate::value_reader::{after, integer, number, quoted, word, word_len};
use ac_base::NoMemory;
use ac_calls::{Plain, PlainRow, PlainRows};
use ac_printer::{elem_word, kind_word};
use ac_syntax::{ElemKind, Ident, Kind, TypeDef};
use std::alloc::Global;

/// What an object's line says between its name and its rows.
#[derive(Clone, Copy)]
pub struct Head {
    pub def: TypeDef,
    pub limit: Option<u64>,
    pub capacity: Option<u64>,
    pub peak: Option<u64>,
}

fn is_kind(word: &[u8], kind: Kind) -> bool
    ensures { result ≡ bytes_eq word.now (parts.kind_word kind) }
{
    word == kind_word(kind).as_bytes()
}

fn is_elem(word: &[u8], elem: ElemKind) -> bool
    ensures { result ≡ bytes_eq word.now (parts.elem_word elem) }
{
    word == elem_word(elem).as_bytes()
}

fn later_kind_of(word: &[u8]) -> Option<Kind>
    ensures { result ≡ readers.picked parts.kind_word readers.later_kinds word.now }
{
    if is_kind(word, Kind::OrderedSet) {
        Some(Kind::OrderedSet)
    } else if is_kind(word, Kind::Tree) {
        Some(Kind::Tree)
    } else if is_kind(word, Kind::Holder) {
        Some(Kind::Holder)
    } else if is_kind(word, Kind::Queue) {
        Some(Kind::Queue)
    } else if is_kind(word, Kind::PriorityQueue) {
        Some(Kind::PriorityQueue)
    } else {
        None
    }
}

fn kind_of(word: &[u8]) -> Option<Kind>
    ensures { result ≡ readers.kind_of word.now }
{
    if is_kind(word, Kind::Vector) {
        Some(Kind::Vector)
    } else if is_kind(word, Kind::List) {
        Some(Kind::List)
    } else if is_kind(word, Kind::HashedMap) {
        Some(Kind::HashedMap)
    } else if is_kind(word, Kind::OrderedMap) {
        Some(Kind::OrderedMap)
    } else if is_kind(word, Kind::HashedSet) {
        Some(Kind::HashedSet)
    } else {
        later_kind_of(word)
    }
}

fn elem_of(word: &[u8]) -> Option<ElemKind>
    ensures { result ≡ readers.elem_of word.now }
{
    if is_elem(word, ElemKind::Integer) {
        Some(ElemKind::Integer)
    } else if is_elem(word, ElemKind::Str) {
        Some(ElemKind::Str)
    } else {
        None
    }
}

fn kind(text: &[u8]) -> Option<(Kind, &[u8])>
    ensures { Finds (λ kind. kind) result (readers.kind text.now) }
{
    let (own, rest) = word(text)?;
    let kind = kind_of(own)?;
    Some((kind, rest))
}

fn elem(text: &[u8]) -> Option<(ElemKind, &[u8])>
    ensures { Finds (λ elem. elem) result (readers.elem text.now) }
{
    let (own, rest) = word(text)?;
    let elem = elem_of(own)?;
    Some((elem, rest))
}

/// Whether these bytes stand here.
fn flag<'a>(text: &'a [u8], wanted: &[u8]) -> Option<(bool, &'a [u8])>
    ensures { Finds (λ flag. flag) result (readers.flag wanted.now text.now) }
{
    match after(text, wanted) {
        Some(rest) => Some((true, rest)),
        None => Some((false, text)),
    }
}

fn second_elem(text: &[u8]) -> Option<(Option<ElemKind>, &[u8])>
    ensures { Finds (λ second. second) result (readers.second_elem text.now) }
{
    match after(text, b", ") {
        Some(rest) => {
            let (elem, rest) = elem(rest)?;
            Some((Some(elem), rest))
        }
        None => Some((None, text)),
    }
}

#[tactic(auto, unfolding(crate::specs::EntryReaders::type_def))]
fn type_def(text: &[u8]) -> Option<(TypeDef, &[u8])>
    ensures { Finds (λ def. def) result (readers.type_def text.now) }
{
    let (bounded, rest) = flag(text, b"bounded ")?;
    let (kind, rest) = kind(rest)?;
    let rest = after(rest, b" (")?;
    let (first, rest) = elem(rest)?;
    let (second, rest) = second_elem(rest)?;
    let rest = after(rest, b")")?;
    let (keyed, rest) = flag(rest, b" keyed")?;
    let def = TypeDef {
        bounded,
        kind,
        first,
        second,
        keyed,
    };
    Some((def, rest))
}

/// A number behind these bytes, where they stand here.
fn number_behind<'a>(text: &'a [u8], wanted: &[u8]) -> Option<(Option<u64>, &'a [u8])>
    ensures { Finds (λ n. n) result (readers.number_behind wanted.now text.now) }
{
    match after(text, wanted) {
        Some(rest) => {
            let (n, rest) = number(rest)?;
            Some((Some(n), rest))
        }
        None => Some((None, text)),
    }
}

#[tactic(auto, unfolding(crate::specs::EntryReaders::head))]
fn head_of(text: &[u8]) -> Option<(Head, &[u8])>
    ensures { Finds (λ head. head) result (readers.head text.now) }
{
    let (def, rest) = type_def(text)?;
    let (limit, rest) = number_behind(rest, b" limit ")?;
    let (capacity, rest) = number_behind(rest, b" capacity ")?;
    let (peak, rest) = number_behind(rest, b" peak ")?;
    let head = Head {
        def,
        limit,
        capacity,
        peak,
    };
    Some((head, rest))
}

fn ident(alloc: Global, name: &[u8]) -> Result<Ident, NoMemory>
    ensures { IfOk result (λ own. own ≡ name.now) }
{
    Ok(Ident::new(Vec::from_slice(alloc, name)?))
}

/// A name and the space behind it.
fn name(text: &[u8]) -> Option<(&[u8], &[u8])>
    ensures { Finds (λ name. name.now) result (readers.name text.now) }
{
    let (name, rest) = word(text)?;
    let rest = after(rest, b" ")?;
    Some((name, rest))
}

/// An integer and the end of its line.
fn integer_line(text: &[u8]) -> Option<(i64, &[u8])>
    ensures { Finds (λ z. z) result (readers.integer_line text.now) }
{
    let (z, rest) = integer(text)?;
    let rest = after(rest, b"\n")?;
    Some((z, rest))
}

fn integer_entry(alloc: Global, text: &[u8]) -> Result<Option<(Plain, &[u8])>, NoMemory>
    ensures { IfOk result (λ read. Finds (λ entry. entry) read (readers.integer_entry text.now)) }
{
    let Some((name, rest)) = name(text) else {
        return Ok(None);
    };
    let Some((value, rest)) = integer_line(rest) else {
        return Ok(None);
    };
    let name = ident(alloc, name)?;
    Ok(Some((Plain::Int { name, value }, rest)))
}

fn string_entry(alloc: Global, text: &[u8]) -> Result<Option<(Plain, &[u8])>, NoMemory>
    ensures { IfOk result (λ read. Finds (λ entry. entry) read (readers.string_entry text.now)) }
{
    let Some((name, rest)) = name(text) else {
        return Ok(None);
    };
    let Some((value, rest)) = quoted(alloc, rest)? else {
        return Ok(None);
    };
    let Some(rest) = after(rest, b"\n") else {
        return Ok(None);
    };
    let name = ident(alloc, name)?;
    Ok(Some((Plain::Str { name, value }, rest)))
}

/// A head and the space behind it.
fn object_head(text: &[u8]) -> Option<(Head, &[u8])>
    ensures { Finds (λ head. head) result (readers.object_head text.now) }
{
    let (head, rest) = head_of(text)?;
    let rest = after(rest, b" ")?;
    Some((head, rest))
}

fn object_of(alloc: Global, name: &[u8], head: Head, rows: Vec<PlainRow>) -> Result<Plain, NoMemory>
    ensures { IfOk result (λ entry. entry ≡ readers.object_of name.now head rows.items) }
{
    Ok(Plain::Object {
        name: ident(alloc, name)?,
        def: head.def,
        limit: head.limit,
        capacity: head.capacity,
        peak: head.peak,
        rows: PlainRows::from_vec(rows),
    })
}

fn object_entry(alloc: Global, text: &[u8]) -> Result<Option<(Plain, &[u8])>, NoMemory>
    ensures { IfOk result (λ read. Finds (λ entry. entry) read (readers.object_entry text.now)) }
{
    let Some((name, rest)) = name(text) else {
        return Ok(None);
    };
    let Some((head, rest)) = object_head(rest) else {
        return Ok(None);
    };
    let Some((rows, rest)) = listed(alloc, head.def, rest)? else {
        return Ok(None);
    };
    let Some(rest) = after(rest, b"\n") else {
        return Ok(None);
    };
    Ok(Some((object_of(alloc, name, head, rows)?, rest)))
}

/// The entry whose line is in front of a text.
#[tactic(auto, unfolding(crate::specs::EntryReaders::entry))]
pub fn entry(alloc: Global, text: &[u8]) -> Result<Option<(Plain, &[u8])>, NoMemory>
    ensures { IfOk result (λ read. Finds (λ entry. entry) read (readers.entry text.now)) }
{
    if let Some(rest) = after(text, b"integer ") {
        return integer_entry(alloc, rest);
    }
    if let Some(rest) = after(text, b"string ") {
        return string_entry(alloc, rest);
    }
    match after(text, b"object ") {
        Some(rest) => object_entry(alloc, rest),
        None => Ok(None),
    }
}

/// The name in an entry's line: the word behind the first space.
pub fn name_in(line: &[u8]) -> &[u8]
    ensures { result.now ≡ readers.name_in line.now }
{
    match after(line.split_at(word_len(line)).1, b" ") {
        Some(rest) => rest.split_at(word_len(rest)).0,
        None => b"",
    }
}
