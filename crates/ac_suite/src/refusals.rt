//! Refused scripts and taken ones, each through `--check`.
//! A table is as in `rows`, but behind `==> ` stands the line of the refusal, or `taken`.
use crate::outcome::end_of_plain_run;
use crate::rows::{is_row, lines_of, with_whole_rows};
use itoa::Buffer;
use std::alloc::Global;
use std::process::Abort;
use std::sync::Wait;
use std::test::Fail;
use std::thread::Threads;

const TAKEN: &[u8] = b"taken\n";

/// Whether a script is refused with this line, or taken.
fn is_answered<R: Threads + Wait + Sync>(
    rt: &R,
    alloc: Global,
    script: &[u8],
    wanted: &[u8],
) -> Result<bool, Fail> {
    let ended = end_of_plain_run(rt, alloc, "--check", script)?;
    if wanted == TAKEN {
        return Ok(ended.status == 0);
    }
    Ok(ended.is(1, wanted))
}

fn is_met<R: Threads + Wait + Sync>(rt: &R, alloc: Global, row: &str) -> Result<bool, Fail> {
    let Some((script, answer)) = row.split_once("==> ") else {
        return Ok(false);
    };
    let script = lines_of(alloc, script.trim_end())?;
    let wanted = lines_of(alloc, answer)?;
    is_answered(rt, alloc, script.as_bytes(), wanted.as_bytes())
}

fn each_row_is_met<R: Threads + Wait + Abort + Sync>(
    rt: &R,
    alloc: Global,
    table: &str,
) -> Result<(), Fail> {
    let rows = with_whole_rows(alloc, table)?;
    for row in rows.split('\n') {
        assert!(rt; !is_row(row) || is_met(rt, alloc, row)?, "{row}");
    }
    Ok(())
}

const ROWS: &str = r#"# no script begins so
type L is list (integer); / A : L; / for C in A loop ==> line 3: syntax
A.Append (12a); ==> line 1: syntax
X := "abc ==> line 1: syntax
; ==> line 1: syntax
tasks ==> line 1: syntax
type Q is bounded queue (integer); / A : Q (1); / tasks / A.Enqueue (1); / end tasks; ==> line 4: syntax
end; ==> line 1: syntax
type L is list (integer); / type L ==> line 2: syntax
A.Append (1) / A.Print; ==> line 2: syntax
A.Append (); ==> line 1: syntax
A := - X; ==> line 1: syntax
A := B + C; ==> line 1: syntax
N : integer (5); ==> line 1: syntax
declare / X : integer; / begin / X := 1; ==> line 4: syntax
stable A do / end loop; ==> line 2: syntax
for C in A loop / end; ==> line 2: syntax
A.Print; / N : integer; ==> line 2: syntax
update_key A as X do ==> line 1: syntax
query A at C X do ==> line 1: syntax
type L is bounded (integer); ==> line 1: syntax
type list is list (integer); ==> line 1: syntax
# limits of the text
N : integer; / N := 9223372036854775807; ==> taken
N : integer; / N := 9223372036854775808; ==> line 2: limit
N : integer; / N := -9223372036854775808; ==> taken
N : integer; / N := -9223372036854775809; ==> line 2: limit
N : integer; / N := N - 9223372036854775807; ==> taken
N : integer; / N := N - 9223372036854775808; ==> line 2: limit
type L is bounded list (integer); / A : L (9223372036854775808); ==> line 2: limit
) 99999999999999999999; ==> line 1: syntax
# limits of names and of room
type L is bounded list (integer); / A : L (1000000); ==> taken
type L is bounded list (integer); / A : L (1000001); ==> line 2: limit
type L is bounded list (integer); / A : L (600000); / B : L (400000); ==> taken
type L is bounded list (integer); / A : L (600000); / B : L (400001); ==> line 3: limit
type L is bounded list (integer); / declare / A : L (600000); / begin / end; / declare / B : L (400001); / begin / end; ==> line 7: limit
# names that are not in scope
A.Append (1); ==> line 1: unknown name
A : L; ==> line 1: unknown name
A : A; ==> line 1: unknown name
C : L.cursor; ==> line 1: unknown name
type L is list (integer); / A : L; / A.Append (X); ==> line 3: unknown name
type L is list (integer); / A : L; / X := A.Length; ==> line 3: unknown name
for C in A loop / end loop; ==> line 1: unknown name
stable A do / end; ==> line 1: unknown name
X := 1; ==> line 1: unknown name
N : integer; / N := M + 1; ==> line 2: unknown name
type L is list (integer); / A : L; / query A at C as X do / end; ==> line 3: unknown name
declare / X : integer; / begin / X := 1; / end; / X := 2; ==> line 6: unknown name
type L is list (integer); / A : L; / for C in A loop / A.Element (C); / end loop; / A.Element (C); ==> line 6: unknown name
type L is list (integer); / A : L; / C : L.cursor; / query A at C as X do / A.Contains (X); / end; / A.Contains (X); ==> line 7: unknown name
# rules of types
type W is queue (string); ==> line 1: wrong type
type T is vector (integer); / A : T; / A.Splice (no_element, A); ==> line 3: wrong type
type L is list (integer, integer); ==> line 1: wrong type
type L is list (integer) keyed; ==> line 1: wrong type
type L is list (integer); / A : L (5); ==> line 2: wrong type
type L is bounded list (integer); / A : L; ==> line 2: wrong type
N : integer; / A : N; ==> line 2: wrong type
N : integer; / C : N.cursor; ==> line 2: wrong type
type L is list (integer); / A : L; / A.Append (1); ==> taken
type L is list (integer); / A : L; / A.Append ("x"); ==> line 3: wrong type
type L is list (string); / A : L; / A.Append ("x", 2); ==> taken
type L is list (integer); / A : L; / A.Append (1, 2, 3); ==> line 3: wrong type
type L is list (integer); / A : L; / A.Frob; ==> line 3: wrong type
type L is list (integer); / A : L; / A.Capacity; ==> line 3: wrong type
type L is list (integer); / A : L; / C : L.cursor; / A.Delete (C); ==> taken
type L is list (integer); / A : L; / A.Delete (no_element); ==> line 3: wrong type
type L is list (integer); / A : L; / for C in A loop / A.Delete (C); / end loop; ==> line 4: wrong type
type L is list (integer); / A : L; / for C in reverse A loop / A.Element (C); / end loop; ==> taken
type L is list (integer); / A : L; / N : integer; / N := A.Length; ==> taken
type L is list (integer); / A : L; / N : integer; / N := A.Is_Empty; ==> line 4: wrong type
type L is list (integer); / A : L; / N : integer; / N := A.First; ==> line 4: wrong type
# rules of types of calls
type L is list (integer); / A : L; / C : L.cursor; / C := A.First; ==> taken
type L is list (integer); / A : L; / C : L.cursor; / C := no_element; ==> taken
type L is list (integer); / A : L; / C : L.cursor; / C := A.Length; ==> line 4: wrong type
type L is list (integer); / A : L; / S : string; / S := A.First_Element; ==> line 4: wrong type
N : integer; / N := "x"; ==> line 2: wrong type
S : string; / S := S + 1; ==> line 2: wrong type
N : integer; / N := N + 1; ==> taken
type L is list (integer); / A : L; / A := 1; ==> line 3: wrong type
N : integer; / N.Append (1); ==> line 2: wrong type
type L is list (integer); / type M is list (integer); / A : L; / C : M.cursor; / A.Element (C); ==> line 5: wrong type
type L is list (integer); / A : L; / B : L; / A.Splice (no_element, B); ==> taken
type L is list (integer); / type M is list (integer); / A : L; / B : M; / A.Splice (no_element, B); ==> line 5: wrong type
N : integer; / for C in N loop / end loop; ==> line 2: wrong type
N : integer; / stable N do / end; ==> line 2: wrong type
type L is list (integer); / A : L; / C : L.cursor; / query A at C as X do / X := 1; / end; ==> line 5: wrong type
type L is list (integer); / A : L; / C : L.cursor; / update A at C as X do / X := X + 1; / end; ==> taken
type L is list (integer); / A : L; / C : L.cursor; / reference X of A at C do / X := 1; / end; ==> taken
type L is list (integer); / A : L; / update A as X do / end; ==> line 3: wrong type
type L is list (integer); / A : L; / C : L.cursor; / update_key A at C as X do / end; ==> line 4: wrong type
type L is list (integer); / A : L; / for E of A loop / E := 1; / end loop; ==> taken
# names declared twice
N : integer; / N : string; ==> line 2: twice
type L is list (integer); / L : L; ==> line 2: twice
type L is list (integer); / A : L; / for A in A loop / end loop; ==> line 3: twice
N : integer; / declare / N : integer; / begin / end; ==> line 3: twice
type L is list (integer); / A : L; / C : L.cursor; / N : integer; / query A at C as N do / end; ==> line 5: twice
declare / X : integer; / begin / end; / declare / X : integer; / begin / end; ==> taken
# the first of two faults
type L is list (integer); / A : L; / A.Append (X, Y); / A.Frob; ==> line 3: unknown name
type L is list (integer); / A : L; / A : N; ==> line 3: unknown name
N : integer; / N : N; ==> line 2: wrong type
"#;

#[test]
fn scripts_are_refused_or_taken(rt: HostRuntime) -> Result<(), Fail> {
    each_row_is_met(&rt, rt.alloc(), ROWS)
}

/// A front, a piece as often as this, and an end.
pub(crate) fn repeated(
    alloc: Global,
    front: &[u8],
    piece: &[u8],
    count: usize,
    end: &[u8],
) -> Result<Vec<u8>, Fail> {
    let mut script = front.to_vec(alloc)?;
    for _ in 0..count {
        script.extend_from_slice(piece)?;
    }
    script.extend_from_slice(end)?;
    Ok(script)
}

/// A thousand names, and an end.
fn thousand_names(alloc: Global, end: &[u8]) -> Result<Vec<u8>, Fail> {
    let mut script = Vec::new(alloc);
    for number in 1..=1000u64 {
        script.extend_from_slice(b"n")?;
        script.extend_from_slice(Buffer::new().format(number).as_bytes())?;
        script.extend_from_slice(b" : integer;\n")?;
    }
    script.extend_from_slice(end)?;
    Ok(script)
}

const LIST: &[u8] = b"type L is list (integer);\nA : L;\n";

const TASK: &[u8] = b"tasks\ntask T is\nX : integer;\nbegin\n";

#[test]
fn limits_of_length_and_of_depth(rt: HostRuntime) -> Result<(), Fail> {
    let ends = repeated(rt.alloc(), b"", b"end;\n", 16, b"")?;
    let rows: [(&[u8], &[u8], usize, &[u8], &[u8]); 8] = [
        (b"", b"x", 64, b" : integer;\n", TAKEN),
        (b"", b"x", 65, b" : integer;\n", b"line 1: limit\n"),
        (b"S : string;\nS := \"", b"x", 1000, b"\";\n", TAKEN),
        (
            b"S : string;\nS := \"",
            b"x",
            1001,
            b"\";\n",
            b"line 2: limit\n",
        ),
        (LIST, b"stable A do\n", 16, &ends, TAKEN),
        (LIST, b"stable A do\n", 17, b"", b"line 19: limit\n"),
        (TASK, b"X := X;\n", 1000, b"end;\nend tasks;\n", TAKEN),
        (TASK, b"X := X;\n", 1001, b"", b"line 1005: limit\n"),
    ];
    for (front, piece, count, end, wanted) in &rows {
        let script = repeated(rt.alloc(), front, piece, *count, end)?;
        assert!(rt; is_answered(&rt, rt.alloc(), &script, wanted)?);
    }
    Ok(())
}

#[test]
fn a_thousand_names(rt: HostRuntime) -> Result<(), Fail> {
    let rows: [(&[u8], &[u8]); 3] = [
        (b"", TAKEN),
        (b"n1001 : integer;\n", b"line 1001: limit\n"),
        (b"n1 : integer;\n", b"line 1001: twice\n"),
    ];
    for (end, wanted) in &rows {
        let script = thousand_names(rt.alloc(), end)?;
        assert!(rt; is_answered(&rt, rt.alloc(), &script, wanted)?);
    }
    Ok(())
}
