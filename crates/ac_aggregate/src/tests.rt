use super::*;
use ac_base::{NoMemory, Value};
use ac_calls::{Plain, PlainRow, PlainRows, Plains};
use ac_syntax::{Decl, Decls, ElemKind, Ident, Kind, RefusalKind, TypeDef};
use std::alloc::Global;
use std::test::Fail;

fn ident(alloc: Global, bytes: &[u8]) -> Result<Ident, NoMemory> {
    Ok(Ident::new(Vec::from_slice(alloc, bytes)?))
}

const LISTS: TypeDef = TypeDef {
    bounded: false,
    kind: Kind::List,
    first: ElemKind::Integer,
    second: None,
    keyed: false,
};

/// A list `a` of integers, and an integer `n`.
fn decls(alloc: Global) -> Result<Decls, NoMemory> {
    let mut items = Vec::new(alloc);
    items.push(Decl::TypeDecl {
        line: 1,
        name: ident(alloc, b"l")?,
        def: LISTS,
    })?;
    items.push(Decl::Object {
        line: 1,
        name: ident(alloc, b"a")?,
        of: ident(alloc, b"l")?,
        capacity: None,
    })?;
    items.push(Decl::IntVar {
        line: 1,
        name: ident(alloc, b"n")?,
    })?;
    Ok(Decls::from_vec(items))
}

fn row(value: i64) -> PlainRow {
    PlainRow {
        depth: 0,
        key: None,
        value: Value::Int(value),
    }
}

/// The list has 5, 20 and 17, and the integer is 15.
fn plains(alloc: Global) -> Result<Plains, NoMemory> {
    let mut rows = Vec::new(alloc);
    rows.push(row(5))?;
    rows.push(row(20))?;
    rows.push(row(17))?;
    let mut items = Vec::new(alloc);
    items.push(Plain::Object {
        name: ident(alloc, b"a")?,
        def: LISTS,
        limit: None,
        capacity: None,
        peak: None,
        rows: PlainRows::from_vec(rows),
    })?;
    items.push(Plain::Int {
        name: ident(alloc, b"n")?,
        value: 15,
    })?;
    Ok(Plains::from_vec(items))
}

fn answer(alloc: Global, word: &[u8]) -> Result<AskAnswer, AskFault> {
    let decls = decls(alloc)?;
    let plains = plains(alloc)?;
    let question = Question::read(alloc, word, &decls)?;
    Ok(question.answer(alloc, &plains)?)
}

fn is_number(alloc: Global, word: &[u8], wanted: i64) -> bool {
    matches!(answer(alloc, word), Ok(AskAnswer::Number(found)) if found == wanted)
}

fn is_listing_of_two(alloc: Global, word: &[u8], first: i64, second: i64) -> bool {
    match answer(alloc, word) {
        Ok(AskAnswer::Listing(values)) => {
            matches!(values.items(), [Given::Int(x), Given::Int(y)] if *x == first && *y == second)
        }
        _ => false,
    }
}

fn is_refused(alloc: Global, word: &[u8], wanted: RefusalKind) -> bool {
    matches!(answer(alloc, word), Err(AskFault::Refused(kind)) if kind == wanted)
}

#[test]
fn lists_what_is_greater(rt: HostRuntime) -> Result<(), Fail> {
    assert!(rt; is_listing_of_two(rt.alloc(), b"[for E of A when E > n => E * 2]", 40, 34));
    Ok(())
}

#[test]
fn sums_a_list(rt: HostRuntime) -> Result<(), Fail> {
    assert!(rt; is_number(rt.alloc(), b"A'Reduce (\"+\", 0)", 42));
    Ok(())
}

#[test]
fn counts_those_above_the_mean(rt: HostRuntime) -> Result<(), Fail> {
    assert!(rt;
        is_number(
            rt.alloc(),
            b"[for E of A when E * 3 > A'Reduce (\"+\", 0) => 1]'Reduce (\"+\", 0)",
            2
        )
    );
    Ok(())
}

#[test]
fn refuses_an_unknown_name(rt: HostRuntime) -> Result<(), Fail> {
    assert!(rt; is_refused(rt.alloc(), b"[for E of Z => E]", RefusalKind::UnknownName));
    Ok(())
}
