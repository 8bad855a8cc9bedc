//! Worked rows of the script language: whole scripts, from their bytes to their bytes.
//!
//! Each module has a table in one text. A line of it is a row: the lines of a script with ` / ` between them, `==> ` and the status
//! with which the run ends, and the lines that it writes, each behind a ` / `. A line that begins with two blanks goes on with the row
//! above it, and a line that begins with `# ` says what the rows below it show.
use crate::outcome::end_of_plain_run;
use std::alloc::Global;
use std::process::Abort;
use std::sync::Wait;
use std::test::Fail;
use std::thread::Threads;

/// The table with each row in one line.
pub(crate) fn with_whole_rows(alloc: Global, table: &str) -> Result<String, Fail> {
    Ok(table.replace(alloc, "\n  ", " ")?)
}

/// Whether a line is a row, and not empty or what rows show.
pub(crate) fn is_row(line: &str) -> bool {
    !line.is_empty() && !line.starts_with("# ")
}

/// The lines that a row has ` / ` between, each with its end.
pub(crate) fn lines_of(alloc: Global, text: &str) -> Result<String, Fail> {
    let mut lines = text.replace(alloc, " / ", "\n")?;
    if !lines.is_empty() {
        lines.push('\n')?;
    }
    Ok(lines)
}

/// What stands before `==> ` in a row, and behind it: the status, and the lines.
pub(crate) fn parts(row: &str) -> (&str, &str, &str) {
    let (left, answer) = row.split_once("==> ").unwrap_or((row, ""));
    let (status, lines) = answer.split_once(" / ").unwrap_or((answer, ""));
    (left.trim_end(), status, lines)
}

fn is_met<R: Threads + Wait + Sync>(rt: &R, alloc: Global, row: &str) -> Result<bool, Fail> {
    let (script, status, lines) = parts(row);
    let script = lines_of(alloc, script)?;
    let wanted = lines_of(alloc, lines)?;
    let ended = end_of_plain_run(rt, alloc, "", script.as_bytes())?;
    Ok(status.parse::<u8>() == Ok(ended.status) && ended.text.as_slice() == wanted.as_bytes())
}

pub(crate) fn each_row_is_met<R: Threads + Wait + Abort + Sync>(
    rt: &R,
    alloc: Global,
    table: &str,
) -> Result<(), Fail> {
    let rows = with_whole_rows(alloc, table)?;
    for row in rows.split('\n') {
        assert!(rt; !is_row(row) || is_met(rt, alloc, row)?, "{row}");
    }
    Ok(())
}

const ROWS: &str = r#"# elements are appended and printed
==> 0
type L is list (integer); / A : L; / A.Append (5); / A.Append (7, 2); / A.Print; ==> 0 / 3: ok / 4: ok / 5: [5, 7, 7]
type L is list (integer); / A : L; / A.Append (5); / A.Append (-7); / A.Print; ==> 0 / 3: ok / 4: ok / 5: [5, -7]
# loops hold their guards
type L is list (integer); / A : L; / A.Append (1, 2); / for C in A loop / A.Append (1); / end loop; / A.Append (1); ==> 0 / 3: ok / 5: raised PROGRAM_ERROR (cursor tampering) / 5: raised PROGRAM_ERROR (cursor tampering) / 7: ok
type L is list (integer); / A : L; / B : L; / C : L.cursor; / A.Append (1); / B.Append (2); / C := B.First; / A.Element (C); / for D in A loop / A.Insert (C, 1); / end loop; / A.Insert (C, 1); ==> 0 / 5: ok / 6: ok / 7: cursor / 8: raised PROGRAM_ERROR (foreign cursor) / 10: raised PROGRAM_ERROR (cursor tampering) / 12: raised PROGRAM_ERROR (foreign cursor)
# the deepest block holds the guards of all around it
type L is list (integer); / A : L; / stable A do / stable A do / stable A do / stable A do / stable A do / stable A do / stable A do / stable A do / stable A do / stable A do / stable A do / stable A do / stable A do / stable A do / stable A do / stable A do / A.Append (1); / end; / end; / end; / end; / end; / end; / end; / end; / end; / end; / end; / end; / end; / end; / end; / end; ==> 0 / 19: raised PROGRAM_ERROR (element tampering)
# a slot is used again
type L is list (integer); / A : L; / C : L.cursor; / D : L.cursor; / A.Append (1); / C := A.First; / D := C; / A.Delete (C); / A.Append (2); / A.Element (D); / A.Has_Element (D); / A.Element (C); ==> 0 / 5: ok / 6: cursor / 7: cursor / 8: ok / 9: ok / 10: raised PROGRAM_ERROR (dead cursor) / 11: false / 12: raised CONSTRAINT_ERROR (no element)
# elements move between lists
type L is list (integer); / A : L; / B : L; / C : L.cursor; / D : L.cursor; / A.Append (1); / A.Append (2); / B.Append (9); / C := A.First; / D := C; / B.Splice (no_element, A, C); / B.Element (C); / A.Element (D); / A.Print; / B.Print; ==> 0 / 6: ok / 7: ok / 8: ok / 9: cursor / 10: cursor / 11: ok / 12: 1 / 13: raised PROGRAM_ERROR (dead cursor) / 14: [2] / 15: [9, 1]
type L is list (integer); / A : L; / B : L; / A.Append (3); / A.Append (1); / B.Append (2); / A.Merge (A); / A.Merge (B); / A.Print; / A.Sort; / A.Print; / B.Length; ==> 0 / 4: ok / 5: ok / 6: ok / 7: raised PROGRAM_ERROR (same container) / 8: ok / 9: [2, 3, 1] / 10: ok / 11: [1, 2, 3] / 12: 0
# names go with their block
type L is list (integer); / A : L; / C : L.cursor; / declare / B : L; / begin / B.Append (1); / C := B.First; / end; / A.Element (C); ==> 0 / 7: ok / 8: cursor / 10: raised PROGRAM_ERROR (foreign cursor)
type L is list (integer); / A : L; / A.Append (1); / stable A do / A.Clear; / for E of A loop / E := 7; / end loop; / end; / A.Print; ==> 0 / 3: ok / 5: raised PROGRAM_ERROR (element tampering) / 7: 7 / 10: [7]
# views are the element
type L is list (integer); / A : L; / C : L.cursor; / D : L.cursor; / A.Append (1); / A.Append (2); / A.Append (3); / C := A.First; / D := A.Last; / A.Swap_Links (C, D); / A.Print; / A.Element (C); / C := A.Previous (C); ==> 0 / 5: ok / 6: ok / 7: ok / 8: cursor / 9: cursor / 10: ok / 11: [3, 2, 1] / 12: 1 / 13: cursor
type B is bounded list (string); / A : B (2); / C : B.cursor; / A.Append ("x"); / A.Append ("x"); / A.Append ("y"); / A.Print; / C := A.Reverse_Find ("x"); / C := A.Next (C); / C := A.First; / A.Splice (C, C); / A.Print; ==> 0 / 4: ok / 5: ok / 6: raised CAPACITY_ERROR (full) / 7: ["x", "x"] / 8: cursor / 9: no_element / 10: cursor / 11: ok / 12: ["x", "x"]
# scripts are refused by their line
N : integer; / N := -9223372036854775808; / N := N - 1; / N := 9223372036854775808; ==> 1 / line 4: limit
N : integer; / N := -9223372036854775808; / N := N - 1; ==> 0 / 2: -9223372036854775808 / 3: raised CONSTRAINT_ERROR (overflow)
type L is list (integer); / A : L; / for C in A loop ==> 1 / line 3: syntax
A.Append (1); ==> 1 / line 1: unknown name
type L is list (integer); / A : L; / stable A do / stable A do / stable A do / stable A do / stable A do / stable A do / stable A do / stable A do / stable A do / stable A do / stable A do / stable A do / stable A do / stable A do / stable A do / stable A do / stable A do ==> 1 / line 19: limit
type L is list (integer); / A : L; / stable A do / A.Append (1); / end; / A.Append (1); ==> 0 / 4: raised PROGRAM_ERROR (element tampering) / 6: ok
type T is queue (string); ==> 1 / line 1: wrong type
# calls that put
type L is list (integer); / A : L; / C : L.cursor; / P : L.cursor; / A.Append (1); / A.Append (2, 2); / A.Prepend (3); / A.Prepend (4, 2); / C := A.Last; / A.Insert (C, 5); / A.Insert (no_element, 6, 2); / A.Insert (C, 7, P); / A.Element (P); / A.Insert (C, 8, P, 0); / A.Element (P); / A.Append (9, -1); / A.Print; / A.Length; / A.Is_Empty;
  ==> 0 / 5: ok / 6: ok / 7: ok / 8: ok / 9: cursor / 10: ok / 11: ok / 12: ok / 13: 7 / 14: ok / 15: 2 / 16: raised CONSTRAINT_ERROR (length) / 17: [4, 4, 3, 1, 2, 5, 7, 2, 6, 6] / 18: 10 / 19: false
# calls that take
type L is list (integer); / A : L; / Q : L.cursor; / A.Append (1); / A.Append (2); / A.Append (3, 4); / A.Delete_First; / A.Delete_Last (2); / A.Print; / Q := A.First; / Q := A.Next (Q); / A.Delete (Q); / A.Has_Element (Q); / A.Print; / Q := A.First; / A.Delete (Q, 9); / A.Print; / A.Delete_First (5); / A.Delete (Q); / A.First_Element; / A.Append (4); / A.Clear; / A.Last;
  ==> 0 / 4: ok / 5: ok / 6: ok / 7: ok / 8: ok / 9: [2, 3, 3] / 10: cursor / 11: cursor / 12: ok / 13: false / 14: [2, 3] / 15: cursor / 16: ok / 17: [] / 18: ok / 19: raised CONSTRAINT_ERROR (no element) / 20: raised CONSTRAINT_ERROR (empty) / 21: ok / 22: ok / 23: no_element
# calls that look
type L is list (string); / A : L; / C : L.cursor; / D : L.cursor; / A.Append ("ash"); / A.Append ("elm"); / A.Append ("ash"); / A.First_Element; / A.Last_Element; / C := A.Find ("ash"); / D := A.Reverse_Find ("ash"); / C := A.Next (C); / A.Element (C); / C := A.Find ("ash", C); / A.Previous (C); / C := A.Next (C); / C := A.Find ("oak"); / A.Contains ("oak"); / A.Contains ("elm"); /
  A.Has_Element (D); / A.Replace_Element (D, "a""b"); / A.Print; / D := A.Previous (D); / D := A.Reverse_Find ("ash", D); / A.Element (D);
  ==> 0 / 5: ok / 6: ok / 7: ok / 8: "ash" / 9: "ash" / 10: cursor / 11: cursor / 12: cursor / 13: "elm" / 14: cursor / 15: cursor / 16: no_element / 17: no_element / 18: false / 19: true / 20: true / 21: ok / 22: ["ash", "elm", "a""b"] / 23: cursor / 24: cursor / 25: "ash"
# calls that order
type L is list (integer); / A : L; / C : L.cursor; / D : L.cursor; / A.Append (3); / A.Append (1); / A.Append (2); / C := A.First; / D := A.Last; / A.Swap (C, D); / A.Element (C); / A.Print; / A.Swap_Links (C, D); / A.Print; / A.Element (C); / A.Is_Sorted; / A.Sort; / A.Is_Sorted; / A.Print; / A.Element (C); / A.Reverse_Elements; / A.Print; / A.Splice (no_element, C); / A.Print;
  ==> 0 / 5: ok / 6: ok / 7: ok / 8: cursor / 9: cursor / 10: ok / 11: 2 / 12: [2, 1, 3] / 13: ok / 14: [3, 1, 2] / 15: 2 / 16: false / 17: ok / 18: true / 19: [1, 2, 3] / 20: 2 / 21: ok / 22: [3, 2, 1] / 23: ok / 24: [3, 1, 2]
# calls with another list
type L is list (integer); / A : L; / B : L; / Q : L.cursor; / A.Append (1); / A.Append (4); / B.Append (2); / B.Append (3); / A.Equal (B); / A.Assign (B); / A.Equal (B); / A.Move (B); / B.Is_Empty; / B.Append (5); / A.Merge (B); / A.Print; / B.Append (6); / B.Append (7); / Q := B.First; / A.Splice (no_element, B, Q); / A.Element (Q); / A.Splice (Q, B); / A.Print; / B.Print; / A.Assign (A); /
  A.Move (A); / A.Equal (A); / A.Splice (Q, A); / A.Merge (A); / A.Length;
  ==> 0 / 5: ok / 6: ok / 7: ok / 8: ok / 9: false / 10: ok / 11: true / 12: ok / 13: true / 14: ok / 15: ok / 16: [2, 3, 5] / 17: ok / 18: ok / 19: cursor / 20: ok / 21: 6 / 22: ok / 23: [2, 3, 5, 7, 6] / 24: [] / 25: ok / 26: ok / 27: true / 28: ok / 29: raised PROGRAM_ERROR (same container) / 30: 5
# blocks and assignments
type L is list (integer); / A : L; / X : integer; / S : string; / C : L.cursor; / A.Append (1); / A.Append (2); / for C2 in reverse A loop / X := A.Element (C2); / end loop; / for E of reverse A loop / X := E; / E := X + 5; / end loop; / C := A.First; / update A at C as V do / V := V - 9; / A.Replace_Element (C, 0); / end; / reference V of A at C do / V := 7; / end; / query A at C as V do /
  X := V; / A.Swap (C, C); / end; / C := no_element; / query A at C as V do / X := V; / end; / S := "a"; / X := X + 9223372036854775807; / A.Print;
  ==> 0 / 6: ok / 7: ok / 9: 2 / 9: 1 / 12: 2 / 13: 7 / 12: 1 / 13: 6 / 15: cursor / 17: -3 / 18: raised PROGRAM_ERROR (element tampering) / 21: 7 / 24: 7 / 25: raised PROGRAM_ERROR (element tampering) / 27: no_element / 28: raised CONSTRAINT_ERROR (no element) / 31: "a" / 32: raised CONSTRAINT_ERROR (overflow) / 33: [7, 7]
# a bounded list has room for its limit alone
type L is bounded list (integer); / A : L (2); / B : L (3); / A.Append (10, 3); / A.Append (10); / A.Append (20); / A.Prepend (10); / A.Prepend (10, -1); / B.Append (30, 3); / A.Assign (B); / A.Print; / A.Clear; / A.Append (40, 2); / A.Print;
  ==> 0 / 4: raised CAPACITY_ERROR (full) / 5: ok / 6: ok / 7: raised CAPACITY_ERROR (full) / 8: raised CONSTRAINT_ERROR (length) / 9: ok / 10: raised CAPACITY_ERROR (full) / 11: [10, 20] / 12: ok / 13: ok / 14: [40, 40]
# level elements keep their order
type L is list (integer); / A : L; / B : L; / C : L.cursor; / D : L.cursor; / A.Append (30); / A.Append (10); / A.Append (30); / A.Append (20); / C := A.First; / A.Sort; / A.Print; / D := A.Next (C); / A.Next (D); / B.Append (20); / B.Append (30); / A.Merge (B); / A.Print; / D := A.Next (D); / A.Element (D); / A.Next (D); / B.Is_Empty; / A.Merge (B); / A.Length;
  ==> 0 / 6: ok / 7: ok / 8: ok / 9: ok / 10: cursor / 11: ok / 12: [10, 20, 30, 30] / 13: cursor / 14: no_element / 15: ok / 16: ok / 17: ok / 18: [10, 20, 20, 30, 30, 30] / 19: cursor / 20: 30 / 21: no_element / 22: true / 23: ok / 24: 6
# a splice of one within its list, and before a foreign cursor
type L is list (integer); / A : L; / B : L; / C : L.cursor; / D : L.cursor; / A.Append (10); / A.Append (20); / C := A.First; / D := A.Last; / A.Splice (C, A, D); / A.Print; / A.Element (D); / A.Splice (D, D); / A.Splice (C, D); / A.Print; / B.Append (30); / C := B.First; / A.Splice (C, B); / D := A.Last; / A.Splice (D, B); / A.Print;
  ==> 0 / 6: ok / 7: ok / 8: cursor / 9: cursor / 10: ok / 11: [20, 10] / 12: 20 / 13: ok / 14: ok / 15: [20, 10] / 16: ok / 17: cursor / 18: raised PROGRAM_ERROR (foreign cursor) / 19: cursor / 20: ok / 21: [20, 30, 10]
# a dead cursor stays dead
type L is list (integer); / A : L; / C : L.cursor; / A.Append (10); / C := A.First; / A.Clear; / A.Append (20); / A.Has_Element (C); / C := A.Next (C); / A.Element (C); ==> 0 / 4: ok / 5: cursor / 6: ok / 7: ok / 8: false / 9: raised PROGRAM_ERROR (dead cursor) / 10: raised PROGRAM_ERROR (dead cursor)
"#;

#[test]
fn lists_in_scripts(rt: HostRuntime) -> Result<(), Fail> {
    each_row_is_met(&rt, rt.alloc(), ROWS)
}
