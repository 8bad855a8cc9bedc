//! How a run ends over sources and sinks that move pieces, and over such as fail.
use crate::outcome::{Given, WHOLE, end_of_plain_run, end_of_run};
use ac_top::{FreeGate, Gate};
use std::alloc::Global;
use std::sync::Wait;
use std::test::Fail;
use std::thread::Threads;

const ONE_LIST: &[u8] =
    b"type L is list (integer);\nA : L;\nA.Append (5);\nA.Append (-7);\nA.Print;\n";

const ONE_LIST_LINES: &[u8] = b"3: ok\n4: ok\n5: [5, -7]\n";

const WRONG_TYPE: &[u8] = b"type L is list (integer);\nA : L;\nA.Append (\"7\");\n";

/// Whether an input ends with this status and writes just this, at once and byte after byte.
fn answers_in_pieces<R: Threads + Wait + Sync>(
    rt: &R,
    alloc: Global,
    script: &[u8],
    status: u8,
    text: &[u8],
) -> Result<bool, Fail> {
    let mut holds = true;
    for piece in [WHOLE, 1] {
        let given = Given {
            words: "",
            script,
            piece,
            failing: (&[], &[]),
        };
        holds &= end_of_run(rt, alloc, &given, &FreeGate)?.is(status, text);
    }
    Ok(holds)
}

#[test]
fn inputs_at_once_and_byte_after_byte(rt: HostRuntime) -> Result<(), Fail> {
    let rows: [(&[u8], u8, &[u8]); 3] = [
        (ONE_LIST, 0, ONE_LIST_LINES),
        (WRONG_TYPE, 1, b"line 3: wrong type\n"),
        (b"", 0, b""),
    ];
    for (script, status, text) in &rows {
        assert!(rt; answers_in_pieces(&rt, rt.alloc(), script, *status, text)?);
    }
    Ok(())
}

#[test]
fn the_longest_input_and_no_longer_one(rt: HostRuntime) -> Result<(), Fail> {
    let rows: [(usize, u8, &[u8]); 2] = [(1_048_576, 0, b""), (1_048_577, 1, b"input: limit\n")];
    for (len, status, text) in &rows {
        let input = vec![in rt.alloc(); b' '; *len]?;
        assert!(rt; answers_in_pieces(&rt, rt.alloc(), &input, *status, text)?);
    }
    Ok(())
}

const INNER_SCOPE: &[u8] =
    b"type L is list (integer);\nA : L;\nA.Append (5);\ndeclare\nB : L;\nbegin\nB.Append (7, 2);\nend;\n";

const HOLDER: &[u8] = b"type H is holder (integer);\nA : H;\nA.Replace_Element (5);\n";

const ODD_LAYOUT: &[u8] = b"TYPE L is list(Integer);A:L; -- x\nA.Append( - 007 );";

const ODD_LAYOUT_PRINTED: &[u8] = b"type l is list (integer); a : l;\na.append (-7);\n";

const LEFT_OPEN: &[u8] = b"type L is list (integer);\nA : L;\nfor C in A loop\n";

const UNKNOWN: &[u8] = b"A.Append (1);\n";

/// An audit is of what ran, and of the outermost objects.
#[test]
fn checks_and_audits(rt: HostRuntime) -> Result<(), Fail> {
    let rows: [(&str, &[u8], u8, &[u8]); 6] = [
        ("--check", ODD_LAYOUT, 0, ODD_LAYOUT_PRINTED),
        ("--check", LEFT_OPEN, 1, b"line 3: syntax\n"),
        ("--check", UNKNOWN, 1, b"line 1: unknown name\n"),
        ("--audit", INNER_SCOPE, 0, b"3: ok\n7: ok\nnodes 1\n"),
        ("--audit", HOLDER, 0, b"3: ok\nnodes 0\n"),
        ("--audit", WRONG_TYPE, 1, b"line 3: wrong type\n"),
    ];
    for (words, script, status, text) in &rows {
        let ended = end_of_plain_run(&rt, rt.alloc(), words, script)?;
        assert!(rt; ended.is(*status, text) && ended.left.is_empty(), "{words}");
    }
    FreeGate.before(1);
    Ok(())
}

/// Whether a run over a sink that takes pieces of this size, and fails at these calls, ends with a write fault and just this written.
fn breaks<'a, R: Threads + Wait + Sync>(
    rt: &R,
    alloc: Global,
    words: &'a str,
    script: &'a [u8],
    piece: usize,
    fails: &'a [u64],
    text: &[u8],
) -> Result<bool, Fail> {
    let given = Given {
        words,
        script,
        piece,
        failing: (&[], fails),
    };
    Ok(end_of_run(rt, alloc, &given, &FreeGate)?.is(4, text))
}

/// Each line that a run writes is one piece, handed over as soon as its command has run.
#[test]
fn a_run_ends_where_the_sink_fails(rt: HostRuntime) -> Result<(), Fail> {
    let rows: [(&str, &[u8], usize, &[u64], &[u8]); 6] = [
        ("", ONE_LIST, 4, &[2], b"3: o"),
        ("", ONE_LIST, WHOLE, &[3], b"3: ok\n4: ok\n"),
        ("--check", ONE_LIST, 4, &[2], b"type"),
        ("--check", UNKNOWN, 4, &[2], b"line"),
        ("--generate 3", ONE_LIST, 4, &[2], b"line"),
        ("--audit", ONE_LIST, WHOLE, &[4], ONE_LIST_LINES),
    ];
    for (words, script, piece, fails, text) in &rows {
        let holds = breaks(&rt, rt.alloc(), words, script, *piece, fails, text)?;
        assert!(rt; holds, "{words}");
    }
    Ok(())
}

#[test]
fn a_run_ends_where_the_source_fails(rt: HostRuntime) -> Result<(), Fail> {
    let given = Given {
        words: "",
        script: ONE_LIST,
        piece: WHOLE,
        failing: (&[1], &[]),
    };
    assert!(rt; end_of_run(&rt, rt.alloc(), &given, &FreeGate)?.is(3, b""));
    Ok(())
}
