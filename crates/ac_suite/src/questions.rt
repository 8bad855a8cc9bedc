//! Questions to the outermost scope of a script that ran.
//! A table is as in `rows`, but before `==> ` stands a question, and of what the run writes only the line of its answer.
use crate::outcome::end_of_asked_run;
use crate::rows::{is_row, lines_of, parts, with_whole_rows};
use std::alloc::Global;
use std::process::Abort;
use std::sync::Wait;
use std::test::Fail;
use std::thread::Threads;

/// A shop's stock.
const STOCK: &str =
    r#"-- a shop's stock / type Stock is hashed_map (string, integer); / type Names is ordered_set (string); / S : Stock; / N : Names; / K : string; / T : integer; / C : Stock.cursor; / S.Insert ("tea", 4); / S.Insert ("milk", 12); / S.Insert ("bread", 7); / update S at C as X do / X := X + 1; / end; / for I in S loop / K := S.Key (I); / N.Insert (K); / end loop; / for E of S loop / E := E + 10; / end loop; / C := S.Find ("milk"); / query S at C as Q do / T := Q; / S.Replace ("tea", 0); / end; / N.Print; / S.Print;"#;

const STOCK_LINES: &str =
    r#"9: ok / 10: ok / 11: ok / 12: raised CONSTRAINT_ERROR (no element) / 16: "tea" / 17: ok / 16: "milk" / 17: ok / 16: "bread" / 17: ok / 20: 14 / 20: 22 / 20: 17 / 22: cursor / 24: 22 / 25: raised PROGRAM_ERROR (element tampering) / 27: ["bread", "milk", "tea"] / 28: ["tea" => 14, "milk" => 22, "bread" => 17]"#;

/// An object of each other kind that has elements, one that has none, and a queue.
const KINDS: &str =
    r#"type V is vector (integer); / type L is bounded list (string); / type R is tree (integer); / type O is ordered_map (integer, string); / type H is hashed_set (integer); / type Q is queue (integer); / A : V; / B : L (3); / D : R; / F : O; / G : H; / J : Q; / W : V; / M : R.cursor; / A.Append (3); / A.Append (1); / A.Append (2); / B.Append ("x"); / B.Append ("a""b"); / M := D.Root; / D.Append_Child (M, 5); / D.Append_Child (M, 7); / M := D.First_Child (M); / D.Append_Child (M, 6); / F.Insert (2, "two"); / F.Insert (1, "one"); / G.Insert (9); / J.Enqueue (4); / A.Append (9223372036854775807);"#;

const KINDS_LINES: &str =
    "15: ok / 16: ok / 17: ok / 18: ok / 19: ok / 20: cursor / 21: ok / 22: ok / 23: cursor / 24: ok / 25: ok / 26: ok / 27: ok / 28: ok / 29: ok";

fn is_met<R: Threads + Wait + Sync>(
    rt: &R,
    alloc: Global,
    row: &str,
    script: &str,
    lines: &str,
) -> Result<bool, Fail> {
    let (question, status, answer) = parts(row);
    let mut wanted = String::new(alloc);
    if status == "0" {
        wanted.push_str(lines)?;
    }
    wanted.push_str(&lines_of(alloc, answer)?)?;
    let ended = end_of_asked_run(rt, alloc, question, script.as_bytes())?;
    Ok(status.parse::<u8>() == Ok(ended.status) && ended.text.as_slice() == wanted.as_bytes())
}

fn each_row_is_met<R: Threads + Wait + Abort + Sync>(
    rt: &R,
    alloc: Global,
    table: &str,
    script: &str,
    lines: &str,
) -> Result<(), Fail> {
    let (script, lines) = (lines_of(alloc, script)?, lines_of(alloc, lines)?);
    let rows = with_whole_rows(alloc, table)?;
    for row in rows.split('\n') {
        assert!(rt;
            !is_row(row) || is_met(rt, alloc, row, &script, &lines)?,
            "{row}"
        );
    }
    Ok(())
}

const ANSWERED: &str = r#"# what is kept, and what is made of it
[for E of S when E > 15 => E * 2] ==> 0 / ask: [44, 34]
S'Reduce ("+", 0) ==> 0 / ask: 53
[for E of N when E < "m" => E] ==> 0 / ask: ["bread"]
[for E of S when E > 100 => E] ==> 0 / ask: []
s'reduce ( "max" , 0 ) ==> 0 / ask: 22
S'Reduce ("min", 15) ==> 0 / ask: 14
[for E of S => E - T * 2 - 1] ==> 0 / ask: [-31, -23, -28]
[for E of S => (E - T) * 2] ==> 0 / ask: [-16, 0, -10]
[for E of N => "a""b"] ==> 0 / ask: ["a""b", "a""b", "a""b"]
[for E of N when E /= K and not (E = "tea") => E] ==> 0 / ask: ["milk"]
[for E of S => K] ==> 0 / ask: ["bread", "bread", "bread"]
# reductions in aggregates, and aggregates under reductions
[for E of S when E = S'Reduce ("max", 0) => E - T] ==> 0 / ask: [0]
[for E of S => [for F of S when F <= E => 1]'Reduce ("+", 0)] ==> 0 / ask: [1, 3, 2]
[for E of S when E < 15 and E + T > 30 => (E + T) * 2]'Reduce ("min", 100) ==> 0 / ask: 72
# past the integers: where a sum or a product is evaluated, and nowhere else
S'Reduce ("*", 9223372036854775807) ==> 0 / ask: raised CONSTRAINT_ERROR (overflow)
[for E of S => E + 9223372036854775807] ==> 0 / ask: raised CONSTRAINT_ERROR (overflow)
[for E of S when E < 0 => E + 9223372036854775807] ==> 0 / ask: []
[for E of S when E < 0 and E * 9223372036854775807 > 0 => E] ==> 0 / ask: raised CONSTRAINT_ERROR (overflow)
[for E of S => E - 30]'Reduce ("+", -9223372036854775800) ==> 0 / ask: raised CONSTRAINT_ERROR (overflow)
"#;

const REFUSED: &str = r#"# names of other sorts, and of none
[for E of Z => E] ==> 1 / ask: unknown name
[for E of S => Z] ==> 1 / ask: unknown name
[for E of T => E] ==> 1 / ask: wrong type
[for E of C => E] ==> 1 / ask: wrong type
[for E of Stock => E] ==> 1 / ask: wrong type
[for E of S => C] ==> 1 / ask: wrong type
[for E of S => S] ==> 1 / ask: wrong type
N'Reduce ("max", 0) ==> 1 / ask: wrong type
[for E of N when E = 3 => E] ==> 1 / ask: wrong type
[for E of N => E + 1] ==> 1 / ask: wrong type
[for T of S => T] ==> 1 / ask: twice
[for Stock of S => Stock] ==> 1 / ask: twice
# no questions
S ==> 1 / ask: syntax
S'Reduce ("MAX", 0) ==> 1 / ask: syntax
[for E of S => -E] ==> 1 / ask: syntax
[for E of S => E]; ==> 1 / ask: syntax
[for not of S => 1] ==> 1 / ask: syntax
[for E of S => E] # ==> 1 / ask: syntax
# syntax stands over each later reason
S'Reduce ("+", 9223372036854775808 ==> 1 / ask: syntax
Z'Reduce ("+", 0 ==> 1 / ask: syntax
N'Reduce ("+", 0 ==> 1 / ask: syntax
[for T of S => T ==> 1 / ask: syntax
# a limit over the last three
S'Reduce ("+", 9223372036854775808) ==> 1 / ask: limit
S'Reduce ("+", -9223372036854775809) ==> 1 / ask: limit
Z'Reduce ("+", 9223372036854775808) ==> 1 / ask: limit
N'Reduce ("+", 9223372036854775808) ==> 1 / ask: limit
[for T of S => 9223372036854775808] ==> 1 / ask: limit
# an unknown name over the last two
[for E of E => E + K] ==> 1 / ask: unknown name
[for E of N when E = 3 => Z] ==> 1 / ask: unknown name
[for T of S => Z] ==> 1 / ask: unknown name
# a wrong type over a name that stands twice
[for S of N => S'Reduce ("+", 0)] ==> 1 / ask: wrong type
[for T of S when T = K => T] ==> 1 / ask: wrong type
"#;

const OF_KINDS: &str = r#"# each kind in the order of its rows, of maps the elements
[for E of A when E < 4 => E] ==> 0 / ask: [3, 1, 2]
[for E of B => E] ==> 0 / ask: ["x", "a""b"]
[for E of D => E * 10] ==> 0 / ask: [50, 60, 70]
[for E of F => E] ==> 0 / ask: ["one", "two"]
G'Reduce ("*", 2) ==> 0 / ask: 18
[for E of W => E] ==> 0 / ask: []
W'Reduce ("max", -5) ==> 0 / ask: -5
A'Reduce ("max", 0) ==> 0 / ask: 9223372036854775807
A'Reduce ("+", 0) ==> 0 / ask: raised CONSTRAINT_ERROR (overflow)
[for E of D when E > [for N of A when N < 4 => N]'Reduce ("+", 0) => E] ==> 0 / ask: [7]
# a queue can't be asked
J'Reduce ("+", 0) ==> 1 / ask: wrong type
"#;

#[test]
fn questions_are_answered(rt: HostRuntime) -> Result<(), Fail> {
    each_row_is_met(&rt, rt.alloc(), ANSWERED, STOCK, STOCK_LINES)?;
    each_row_is_met(&rt, rt.alloc(), REFUSED, STOCK, STOCK_LINES)?;
    each_row_is_met(&rt, rt.alloc(), OF_KINDS, KINDS, KINDS_LINES)
}

/// More blanks than a question has bytes, and behind them what is refused for every other reason.
#[test]
fn a_long_text_is_refused_for_its_length(rt: HostRuntime) -> Result<(), Fail> {
    let alloc = rt.alloc();
    let script = lines_of(alloc, STOCK)?;
    let mut question = String::new(alloc);
    for _blank in 0..4_080 {
        question.push_str(" ")?;
    }
    question.push_str("[for T of Z => T + K + 9223372036854775808")?;
    let ended = end_of_asked_run(&rt, alloc, &question, script.as_bytes())?;
    assert!(rt; ended.is(1, b"ask: limit\n"));
    Ok(())
}
