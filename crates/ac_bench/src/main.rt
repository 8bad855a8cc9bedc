//! Workloads that `bench/` times. The words are a workload and a number of rounds, as `pool 1000000`, or a
//! workload with a number of rows and one of rounds, as `chain 1000 1000000`. Those of lists are `append`, `walk`,
//! `ends`, `sort` and `merge`; those of sets are `hashed`, `hashed_row` and `ordered`; those of questions about a vector
//! are `ask_sum`, `ask_kept` and `ask_greatest`.
#![tactic(auto)]

mod ask;
mod chain;
mod list;
mod pool;
mod sets;

use ac_base::NoMemory;
use std::process::ExitCode;
use std::rt::Env;
use std::{env, io};

fn words<R: Env + AllocGlobal>(rt: &R) -> io::Result<Vec<String>> {
    Ok(env::args(rt)?.skip(1).collect(rt.alloc())?)
}

/// A number among the words.
fn number(words: &[String], place: usize) -> Option<u64> {
    words.get(place)?.as_str().parse::<u64>().ok()
}

/// Runs the workload that the words name, and gives what it found, or `None` for other words.
fn run<R: AllocGlobal>(rt: &R, words: &[String]) -> io::Result<Option<u64>> {
    let (Some(workload), Some(first)) = (words.first(), number(words, 1)) else {
        return Ok(None);
    };
    match (workload.as_str(), number(words, 2)) {
        ("pool", None) => Ok(Some(pool::churn(rt.alloc(), first)?)),
        ("chain", Some(rounds)) => match chain::middle(rt.alloc(), first, rounds) {
            Ok(len) => Ok(Some(len)),
            Err(NoMemory) => Ok(None),
        },
        ("append", Some(rounds)) => Ok(list::append(rt.alloc(), first, rounds).ok()),
        ("walk", Some(rounds)) => Ok(list::walk(rt.alloc(), first, rounds).ok()),
        ("ends", Some(rounds)) => Ok(list::ends(rt.alloc(), first, rounds).ok()),
        ("sort", Some(rounds)) => Ok(list::sort(rt.alloc(), first, rounds).ok()),
        ("merge", Some(rounds)) => Ok(list::merge(rt.alloc(), first, rounds).ok()),
        ("hashed", Some(rounds)) => Ok(sets::hashed(rt.alloc(), first, rounds).ok()),
        ("hashed_row", Some(rounds)) => Ok(sets::hashed_row(rt.alloc(), first, rounds).ok()),
        ("ordered", Some(rounds)) => Ok(sets::ordered(rt.alloc(), first, rounds).ok()),
        ("ask_sum", Some(rounds)) => Ok(ask::ask(rt.alloc(), ask::SUM, first, rounds).ok()),
        ("ask_kept", Some(rounds)) => Ok(ask::ask(rt.alloc(), ask::KEPT, first, rounds).ok()),
        ("ask_greatest", Some(rounds)) => {
            Ok(ask::ask(rt.alloc(), ask::GREATEST, first, rounds).ok())
        }
        _ => Ok(None),
    }
}

fn main(rt: HostRuntime) -> io::Result<ExitCode> {
    let words = words(&rt)?;
    match run(&rt, &words)? {
        Some(found) => {
            println!(rt; "{found}")?;
            Ok(ExitCode::SUCCESS)
        }
        None => {
            eprintln!(rt;
                "usage: ac_bench pool ROUNDS, or ac_bench chain|append|walk|ends|sort|merge|hashed|hashed_row|ordered|ask_sum|ask_kept|ask_greatest ROWS ROUNDS"
            )?;
            Ok(ExitCode::from(2))
        }
    }
}
