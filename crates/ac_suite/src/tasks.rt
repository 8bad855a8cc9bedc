//! Worked rows of blocks of tasks, and a run whose gate holds one worker until the other comes.
use crate::outcome::{Given, WHOLE, end_of_run};
use crate::rows::{each_row_is_met, lines_of};
use ac_top::{FreeGate, Gate};
use std::alloc::Global;
use std::process::Abort;
use std::sync::Wait;
use std::sync::atomic::{AtomicU64, Ordering};
use std::test::Fail;
use std::thread::Threads;

const ROWS: &str = "# worked rows of tasks
type Q is queue (integer); / A : Q; / tasks / task T1 is / X : integer; / begin / X := A.Dequeue; / end; / task T2 is / X : integer; / begin / X := A.Dequeue; / end; / end tasks; / A.Peak_Use; ==> 0 / 7: t1: stalled / 12: t2: stalled / 15: 0
type Q is bounded queue (integer); / A : Q (1); / tasks / task T is / X : integer; / begin / X := 9223372036854775807; / X := X + 1; / A.Enqueue (X); / A.Enqueue (2); / end; / end tasks; / A.Dequeue; ==> 0 / 7: t: 9223372036854775807 / 8: t: raised CONSTRAINT_ERROR (overflow) / 9: t: ok / 10: t: stalled / 13: 9223372036854775807
# calls in tasks
type P is priority_queue (integer); / type Q is bounded queue (integer); / A : P; / B : Q (1); / N : integer; / A.Enqueue (700); / tasks / task V is / X : integer; / Y : integer; / begin / Y := X - 3; / X := A.Dequeue; / X := A.Dequeue_Only_High_Priority (5); / A.Enqueue (X); / A.Enqueue (Y); / X := A.Current_Use; / Y := A.Peak_Use; / A.Enqueue (-9223372036854775808); / Y := Y + 2; /
  B.Enqueue (Y); / X := B.Dequeue; / B.Dequeue; / X := 1; / end; / end tasks; / A.Print; / B.Peak_Use; / B.Enqueue (N); / B.Print;
  ==> 0 / 6: ok / 12: v: -3 / 13: v: 700 / 14: v: false / 15: v: ok / 16: v: ok / 17: v: 2 / 18: v: 2 / 19: v: ok / 20: v: 4 / 21: v: ok / 22: v: 4 / 23: v: stalled / 27: [700, -3, -9223372036854775808] / 28: 1 / 29: ok / 30: [0]
type Q is queue (integer); / type L is list (integer); / A : Q; / B : L; / B.Append (0, 2); / for C in B loop / tasks / task U is / begin / A.Enqueue (1); / A.Peak_Use; / end; / end tasks; / A.Print; / B.Clear; / end loop; / declare / D : Q; / begin / tasks / task W is / X : integer; / begin / X := A.Dequeue; / D.Enqueue (X); / D.Enqueue (5); / end; / end tasks; / D.Print; / end; / A.Print;
  ==> 0 / 5: ok / 10: u: ok / 11: u: 1 / 14: [1] / 15: raised PROGRAM_ERROR (cursor tampering) / 10: u: ok / 11: u: 2 / 14: [1, 1] / 15: raised PROGRAM_ERROR (cursor tampering) / 24: w: 1 / 25: w: ok / 26: w: ok / 29: [1, 5] / 31: [1]
type Q is queue (integer); / A : Q; / tasks / task T is / X : integer; / begin / A.Enqueue (1); / A.Dequeue; / X := A.Current_Use; / X := A.Peak_Use; / A.Enqueue (X); / end; / end tasks; / A.Current_Use; / A.Peak_Use; ==> 0 / 7: t: ok / 8: t: 1 / 9: t: 0 / 10: t: 1 / 11: t: ok / 14: 1 / 15: 1
# refused tasks
type Q is queue (integer); / A : Q; / tasks / task T is / begin / A.Print; / end; / end tasks; ==> 1 / line 6: wrong type
type Q is queue (integer); / A : Q; / N : integer; / tasks / task T is / begin / N := A.Dequeue; / end; / end tasks; ==> 1 / line 7: wrong type
type Q is queue (integer); / A : Q; / tasks / task T is / begin / A.Dequeue; ==> 1 / line 6: syntax
";

#[test]
fn tasks_in_scripts(rt: HostRuntime) -> Result<(), Fail> {
    each_row_is_met(&rt, rt.alloc(), ROWS)
}

/// One task puts 1 and 2 into a queue of this limit, the other takes two items out.
const THROUGH_ONE: &str =
    "type Q is bounded queue (integer); / A : Q (1); / tasks / task P is / begin / A.Enqueue (1); / A.Enqueue (2); / end; / task C is / begin / A.Dequeue; / A.Dequeue; / end; / end tasks; / A.Peak_Use; / A.Dequeue;";

const THROUGH_ONE_LINES: &str = "6: p: ok / 11: c: 1 / 7: p: ok / 12: c: 2 / 15: 1 / 16: stalled";

const THROUGH_TWO: &str =
    "type Q is bounded queue (integer); / A : Q (2); / tasks / task P is / begin / A.Enqueue (1); / A.Enqueue (2); / end; / task C is / begin / A.Dequeue; / A.Dequeue; / end; / end tasks;";

const BY_TURNS: &str = "6: p: ok / 11: c: 1 / 7: p: ok / 12: c: 2";

const ONE_AFTER_THE_OTHER: &str = "6: p: ok / 7: p: ok / 11: c: 1 / 12: c: 2";

/// Whether a script runs to its end, and writes the one text or the other.
fn writes_either<R: Threads + Wait + Sync, G: Gate + Sync>(
    rt: &R,
    alloc: Global,
    script: &str,
    gate: &G,
    wanted: (&str, &str),
) -> Result<bool, Fail> {
    let script = lines_of(alloc, script)?;
    let one = lines_of(alloc, wanted.0)?;
    let other = lines_of(alloc, wanted.1)?;
    let given = Given {
        words: "",
        script: script.as_bytes(),
        piece: WHOLE,
        failing: (&[], &[]),
    };
    let ended = end_of_run(rt, alloc, &given, gate)?;
    Ok(ended.is(0, one.as_bytes()) || ended.is(0, other.as_bytes()))
}

fn each_run_is_explained<R: Threads + Wait + Abort + Sync>(
    rt: &R,
    alloc: Global,
) -> Result<(), Fail> {
    for _ in 0..20 {
        assert!(rt; writes_either(rt, alloc, THROUGH_ONE, &FreeGate, (THROUGH_ONE_LINES, ""))?);
        assert!(rt;
            writes_either(
                rt,
                alloc,
                THROUGH_TWO,
                &FreeGate,
                (BY_TURNS, ONE_AFTER_THE_OTHER)
            )?
        );
    }
    Ok(())
}

#[test]
fn two_tasks_share_a_queue(rt: HostRuntime) -> Result<(), Fail> {
    each_run_is_explained(&rt, rt.alloc())
}

const LOOKS: u64 = 100_000_000;

/// A gate at which the first two workers meet: the second is held until the first has come to it, the first until the second has
/// come twice, which it does after a turn. So they meet only in two threads.
#[derive(Drop)]
struct Meeting {
    first: AtomicU64,
    second: AtomicU64,
    missed: AtomicU64,
}

impl Meeting {
    fn new() -> Meeting {
        Meeting {
            first: AtomicU64::new(0),
            second: AtomicU64::new(0),
            missed: AtomicU64::new(0),
        }
    }

    /// Whether both workers came, and neither was held to the end of its looks.
    fn was_held(&self) -> bool {
        let first = self.first.load(Ordering::SeqCst);
        let second = self.second.load(Ordering::SeqCst);
        first > 0 && second > 0 && self.missed.load(Ordering::SeqCst) == 0
    }
}

impl Gate for Meeting {
    fn before(&self, worker: u64) {
        let met = match worker {
            1 => self.first.fetch_add(1, Ordering::SeqCst) > 0 || comes_to(&self.second, 2),
            2 => self.second.fetch_add(1, Ordering::SeqCst) > 0 || comes_to(&self.first, 1),
            _ => true,
        };
        if !met {
            self.missed.fetch_add(1, Ordering::SeqCst);
        }
    }
}

/// Looks until so many came, and no longer than so many looks.
fn comes_to(came: &AtomicU64, wanted: u64) -> bool {
    for _ in 0..LOOKS {
        if came.load(Ordering::SeqCst) >= wanted {
            return true;
        }
    }
    false
}

/// A run that turned all tasks in one thread, or went round the workers, would fail here.
#[test]
fn a_worker_goes_on_while_another_is_held(rt: HostRuntime) -> Result<(), Fail> {
    let gate = Meeting::new();
    assert!(rt; writes_either(&rt, rt.alloc(), THROUGH_ONE, &gate, (THROUGH_ONE_LINES, ""))?);
    assert!(rt; gate.was_held());
    Ok(())
}
