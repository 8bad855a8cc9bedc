//! Ordinary use over a source of which each read fails in turn, and over a sink of which each write does.
use crate::outcome::{Ended, Given, end_of_run};
use crate::rows::lines_of;
use ac_top::FreeGate;
use std::alloc::Global;
use std::sync::Wait;
use std::test::Fail;
use std::thread::Threads;

/// A shop's stock.
const SCRIPT: &str =
    r#"-- a shop's stock / type Stock is hashed_map (string, integer); / type Names is ordered_set (string); / S : Stock; / N : Names; / K : string; / T : integer; / C : Stock.cursor; / S.Insert ("tea", 4); / S.Insert ("milk", 12); / S.Insert ("bread", 7); / update S at C as X do / X := X + 1; / end; / for I in S loop / K := S.Key (I); / N.Insert (K); / end loop; / for E of S loop / E := E + 10; / end loop; / C := S.Find ("milk"); / query S at C as Q do / T := Q; / S.Replace ("tea", 0); / end; / N.Print; / S.Print;"#;

const LINES: &str =
    r#"9: ok / 10: ok / 11: ok / 12: raised CONSTRAINT_ERROR (no element) / 16: "tea" / 17: ok / 16: "milk" / 17: ok / 16: "bread" / 17: ok / 20: 14 / 20: 22 / 20: 17 / 22: cursor / 24: 22 / 25: raised PROGRAM_ERROR (element tampering) / 27: ["bread", "milk", "tea"] / 28: ["tea" => 14, "milk" => 22, "bread" => 17]"#;

/// More calls than a run makes of the source, and of the sink.
const CALLS: u64 = 1000;

/// What a read gives at most, and what a write takes.
const READ: usize = 7;

const WRITE: usize = 5;

fn end_over<'a, R: Threads + Wait + Sync>(
    rt: &R,
    alloc: Global,
    script: &'a str,
    piece: usize,
    failing: (&'a [u64], &'a [u64]),
) -> Result<Ended, Fail> {
    let given = Given {
        words: "",
        script: script.as_bytes(),
        piece,
        failing,
    };
    end_of_run(rt, alloc, &given, &FreeGate)
}

/// Whether a failed read always ends the run with nothing written, until there are too few reads for the call that fails.
fn each_read_fails_in_turn<R: Threads + Wait + Sync>(rt: &R, alloc: Global) -> Result<bool, Fail> {
    let (script, lines) = (lines_of(alloc, SCRIPT)?, lines_of(alloc, LINES)?);
    for call in 1..=CALLS {
        let ended = end_over(rt, alloc, &script, READ, (&[call], &[]))?;
        if ended.status == 0 {
            return Ok(ended.is(0, lines.as_bytes()) && call > (script.len() / READ) as u64);
        }
        if !ended.is(3, b"") {
            return Ok(false);
        }
    }
    Ok(false)
}

/// Whether a failed write always ends the run with a prefix written, to which each write before it added.
fn each_write_fails_in_turn<R: Threads + Wait + Sync>(rt: &R, alloc: Global) -> Result<bool, Fail> {
    let (script, lines) = (lines_of(alloc, SCRIPT)?, lines_of(alloc, LINES)?);
    for call in 1..=CALLS {
        let ended = end_over(rt, alloc, &script, WRITE, (&[], &[call]))?;
        if ended.status == 0 {
            return Ok(ended.is(0, lines.as_bytes()) && call > (lines.len() / WRITE) as u64);
        }
        let text = ended.text.as_slice();
        if ended.status != 4
            || !lines.as_bytes().starts_with(text)
            || (text.len() as u64) < call - 1
        {
            return Ok(false);
        }
    }
    Ok(false)
}

#[test]
fn each_call_of_a_device_fails_in_turn(rt: HostRuntime) -> Result<(), Fail> {
    assert!(rt; each_read_fails_in_turn(&rt, rt.alloc())?);
    assert!(rt; each_write_fails_in_turn(&rt, rt.alloc())?);
    Ok(())
}
