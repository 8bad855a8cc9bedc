//! Worked rows of queues outside blocks of tasks, and rows for their calls.
use crate::rows::each_row_is_met;
use std::test::Fail;

const ROWS: &str = "# worked rows of queues
type Q is priority_queue (integer); / A : Q; / A.Enqueue (150); / A.Enqueue (210); / A.Enqueue (199); / A.Dequeue_Only_High_Priority (3); / A.Dequeue; / A.Print; / A.Dequeue_Only_High_Priority (1); ==> 0 / 3: ok / 4: ok / 5: ok / 6: false / 7: 210 / 8: [150, 199] / 9: 150
type Q is bounded queue (integer); / A : Q (2); / N : integer; / A.Dequeue; / A.Enqueue (4); / A.Enqueue (5); / A.Enqueue (6); / A.Print; / N := A.Dequeue; / A.Current_Use; / A.Peak_Use; / A.Dequeue; / N := A.Dequeue; / A.Enqueue (N); / A.Print; ==> 0 / 4: stalled / 5: ok / 6: ok / 7: stalled / 8: [4, 5] / 9: 4 / 10: 1 / 11: 2 / 12: 5 / 13: stalled / 14: ok / 15: [4]
# calls of queues
type P is priority_queue (integer); / A : P; / N : integer; / N := A.Dequeue_Only_High_Priority (-5); / N := 7; / A.Enqueue (-250); / A.Enqueue (-199); / A.Enqueue (99); / A.Enqueue (-99); / A.Enqueue (100); / A.Print; / N := A.Dequeue_Only_High_Priority (1); / N := A.Dequeue_Only_High_Priority (1); / A.Enqueue (N); / A.Print; / A.Current_Use; / A.Peak_Use; / N := A.Dequeue; / N := A.Dequeue; /
  N := A.Dequeue; / A.Dequeue_Only_High_Priority (-1); / A.Dequeue_Only_High_Priority (-1); / A.Dequeue_Only_High_Priority (-2);
  ==> 0 / 4: false / 5: 7 / 6: ok / 7: ok / 8: ok / 9: ok / 10: ok / 11: [100, 99, -99, -199, -250] / 12: 100 / 13: false / 14: ok / 15: [100, 99, -99, -199, -250] / 16: 5 / 17: 5 / 18: 100 / 19: 99 / 20: -99 / 21: -199 / 22: false / 23: -250
type Q is queue (integer); / type L is list (integer); / A : Q; / B : L; / C : L.cursor; / B.Append (3); / B.Append (8); / for D in B loop / A.Peak_Use; / update B at D as X do / A.Enqueue (X); / A.Enqueue (X); / X := A.Dequeue; / end; / end loop; / A.Print; / B.Print; / declare / E : Q; / begin / E.Enqueue (1); / E.Print; / end; / A.Peak_Use;
  ==> 0 / 6: ok / 7: ok / 9: 0 / 11: ok / 12: ok / 13: 3 / 9: 2 / 11: ok / 12: ok / 13: 3 / 16: [8, 8] / 17: [3, 3] / 21: ok / 22: [1] / 24: 3
";

#[test]
fn queues_in_scripts(rt: HostRuntime) -> Result<(), Fail> {
    each_row_is_met(&rt, rt.alloc(), ROWS)
}
