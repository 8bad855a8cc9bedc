//! What the words after the program's name ask for.
//! A table is as in `rows`, but before `==> ` stand the words. The source holds the same script each time.
use crate::outcome::end_of_plain_run;
use crate::rows::{is_row, lines_of, parts, with_whole_rows};
use std::alloc::Global;
use std::process::Abort;
use std::sync::Wait;
use std::test::Fail;
use std::thread::Threads;

const SCRIPT: &str = "type L is list (integer);
A : L;
A.Append (5);
A.Append (7, 2);
A.Print;
";

/// Whether these words end with the status of the answer, and write just the lines behind it.
fn is_met<R: Threads + Wait + Sync>(
    rt: &R,
    alloc: Global,
    row: &str,
    left: &str,
) -> Result<bool, Fail> {
    let (words, status, lines) = parts(row);
    let wanted = lines_of(alloc, lines)?;
    let ended = end_of_plain_run(rt, alloc, words, SCRIPT.as_bytes())?;
    Ok(
        status.parse::<u8>() == Ok(ended.status)
            && ended.text.as_slice() == wanted.as_bytes()
            && ended.left.as_slice() == left.as_bytes(),
    )
}

/// Whether each row holds, with this left of the script at the source.
fn each_row_is_met<R: Threads + Wait + Abort + Sync>(
    rt: &R,
    alloc: Global,
    table: &str,
    left: &str,
) -> Result<(), Fail> {
    let rows = with_whole_rows(alloc, table)?;
    for row in rows.split('\n') {
        assert!(rt; !is_row(row) || is_met(rt, alloc, row, left)?, "{row}");
    }
    Ok(())
}

const READING: &str = "# words that read the script
==> 0 / 3: ok / 4: ok / 5: [5, 7, 7]
-- ==> 0 / 3: ok / 4: ok / 5: [5, 7, 7]
--audit ==> 0 / 3: ok / 4: ok / 5: [5, 7, 7] / nodes 3
--check ==> 0 / type l is list (integer); / a : l; / a.append (5); / a.append (7, 2); / a.print;
--audit --check ==> 0 / type l is list (integer); / a : l; / a.append (5); / a.append (7, 2); / a.print;
";

const NOT_READING: &str = "# words that read nothing
--generate 3 ==> 0 / lines 15 / 15: 3 / 16: 1 / 17: 3 / 18: 3
--generate 1 ==> 0 / lines 9 / 15: 1 / 16: 1 / 17: 1 / 18: 1
--check --generate 2000 ==> 0 / lines 6006 / 15: 2000 / 16: 1 / 17: 2000 / 18: 2000
--generate 500 ==> 0 / lines 1506 / 15: 500 / 16: 1 / 17: 500 / 18: 500
--generate=+003 --audit ==> 0 / lines 15 / 15: 3 / 16: 1 / 17: 3 / 18: 3
# words that are refused
--bad ==> 2
more ==> 2
--help ==> 2
-h ==> 2
--generate ==> 2
--generate 0 ==> 2
--generate 200001 ==> 2
--generate x ==> 2
--generate -3 ==> 2
--generate 3 --generate 3 ==> 2
--generate 3 --bad ==> 2
--check --check ==> 2
--check=true ==> 2
--audit more ==> 2
";

#[test]
fn words_ask_for_a_run(rt: HostRuntime) -> Result<(), Fail> {
    each_row_is_met(&rt, rt.alloc(), READING, "")?;
    each_row_is_met(&rt, rt.alloc(), NOT_READING, SCRIPT)
}
