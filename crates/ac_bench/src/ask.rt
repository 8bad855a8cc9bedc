use crate::list::scrambled;
use ac_aggregate::{AskAnswer, AskFault, Question};
use ac_base::{NoMemory, Value};
use ac_calls::{Plain, PlainRow, PlainRows, Plains};
use ac_script::parse;
use ac_syntax::{ElemKind, Ident, Kind, TypeDef};
use std::alloc::Global;

const SCRIPT: &[u8] = b"type T is vector (integer); V : T;";

pub const SUM: &str = "V'Reduce (\"+\", 0)";

pub const KEPT: &str = "[for E of V when E > 5 => E * 2]";

pub const GREATEST: &str = "[for E of V when E = V'Reduce (\"max\", 0) => E]";

fn rows_of(alloc: Global, rows: u64) -> Result<Vec<PlainRow>, NoMemory> {
    let mut made = Vec::new(alloc);
    for place in 0..rows {
        made.push(PlainRow {
            depth: 0,
            key: None,
            value: Value::Int(scrambled(place)),
        })?;
    }
    Ok(made)
}

/// A vector `V` of so many integers.
fn plains(alloc: Global, rows: u64) -> Result<Plains, NoMemory> {
    let mut made = Vec::new(alloc);
    made.push(Plain::Object {
        name: Ident::new(b"v".to_vec(alloc)?),
        def: TypeDef {
            bounded: false,
            kind: Kind::Vector,
            first: ElemKind::Integer,
            second: None,
            keyed: false,
        },
        limit: None,
        capacity: Some(1_048_576),
        peak: None,
        rows: PlainRows::from_vec(rows_of(alloc, rows)?),
    })?;
    Ok(Plains::from_vec(made))
}

/// How many values an answer has.
fn count_of(answer: &AskAnswer) -> u64 {
    match answer {
        AskAnswer::Number(_) => 1,
        AskAnswer::Listing(values) => values.items().len() as u64,
        AskAnswer::Overflow => 0,
    }
}

/// Answers a question about a vector of so many integers, so many times, and gives how many values the last answer had.
pub fn ask(alloc: Global, question: &str, rows: u64, rounds: u64) -> Result<u64, AskFault> {
    let Ok(script) = parse(alloc, SCRIPT) else {
        return Err(AskFault::NoMemory);
    };
    let question = Question::read(alloc, question.as_bytes(), &script.decls)?;
    let plains = plains(alloc, rows)?;
    let mut count = 0;
    for _round in 0..rounds {
        count = count_of(&question.answer(alloc, &plains)?);
    }
    Ok(count)
}
