//! A run of 1,400,002 lines, whose text stands in memory, and a node with a million children: what read every row at each step wouldn't
//! end in a test's time.

use crate::outcome::WHOLE;
use crate::rows::{each_row_is_met, lines_of};
use ac_io::{GrowSink, MemorySource};
use ac_top::{FreeGate, run};
use std::alloc::Global;
use std::sync::Wait;
use std::test::Fail;
use std::thread::Threads;

const SEARCHES: &str =
    "type V is vector (integer); / type S is ordered_set (integer); / A : V; / B : S; / C : S.cursor; / N : integer; / A.Append (0, 200000); / for I in A loop / N := N + 1; / B.Insert (N); / end loop; / for I in A loop / C := B.Find (N); / B.Contains (N); / C := B.Floor (N); / C := B.Ceiling (N); / N := N - 1; / end loop; / B.Length;";

const FIRST: &str = "7: ok / 9: 1 / 10: ok";

const LAST: &str = "13: cursor / 14: true / 15: cursor / 16: cursor / 17: 0 / 19: 200000";

/// Whether a script runs to its end with so many lines, and these the first and the last.
fn runs_to<R: Threads + Wait + Sync>(
    rt: &R,
    alloc: Global,
    script: &str,
    lines: usize,
    ends: (&str, &str),
) -> Result<bool, Fail> {
    let (first, last) = (lines_of(alloc, ends.0)?, lines_of(alloc, ends.1)?);
    let script = lines_of(alloc, script)?.as_bytes().to_vec(alloc)?;
    let mut source = MemorySource::new(script, WHOLE, Vec::new(alloc));
    let mut sink = GrowSink::new(alloc);
    let ended = run(rt, alloc, &[], &mut source, &mut sink, &FreeGate);
    let text = sink.bytes();
    Ok(
        ended.number() == 0
            && text.iter().filter(|byte| **byte == b'\n').count() == lines
            && text.starts_with(first.as_bytes())
            && text.ends_with(last.as_bytes()),
    )
}

#[test]
fn each_of_many_keys_is_sought_four_times(rt: HostRuntime) -> Result<(), Fail> {
    assert!(rt; runs_to(&rt, rt.alloc(), SEARCHES, 1_400_002, (FIRST, LAST))?);
    Ok(())
}

const A_MILLION_CHILDREN: &str =
    "type T is tree (integer); / A : T; / R : T.cursor; / C : T.cursor; / R := A.Root; / A.Append_Child (R, 1); / C := A.First_Child (R); / A.Append_Child (C, 7, 999999); / A.Splice_Children (R, no_element, C); / A.Child_Count (R); / A.Is_Leaf (C); / A.Clear; / A.Node_Count;
  ==> 0 / 5: cursor / 6: ok / 7: cursor / 8: ok / 9: ok / 10: 1000000 / 11: true / 12: ok / 13: 1
";

#[test]
fn a_million_children_go_at_once(rt: HostRuntime) -> Result<(), Fail> {
    each_row_is_met(&rt, rt.alloc(), A_MILLION_CHILDREN)
}
