//! Scripts whose exceptions propagate.
use crate::rows::each_row_is_met;
use std::test::Fail;

const ROWS: &str = r#"# an exception leaves a loop, and the next one ends the script
pragma Propagate; / type L is list (integer); / A : L; / A.Append (1); / begin / for C in A loop / A.Append (2); / A.Length; / end loop; / exception / when PROGRAM_ERROR => / A.Append (3); / end; / A.Print; / A.Element (no_element); / A.Print; ==> 0 / 4: ok / 7: raised PROGRAM_ERROR (cursor tampering) / 12: ok / 14: [1, 3] / 15: raised CONSTRAINT_ERROR (no element)
# a copy is dropped where its block is left
pragma Propagate; / type S is ordered_set (string) keyed; / A : S; / C : S.cursor; / A.Insert ("a=1"); / C := A.First; / begin / update_key A at C as X do / X := "a=2"; / A.Clear; / end; / exception / when others => / A.Print; / A.Clear; / end; / A.Length; ==> 0 / 5: ok / 6: cursor / 9: "a=2" / 10: raised PROGRAM_ERROR (cursor tampering) / 14: ["a=1"] / 15: ok / 17: 0
pragma propagate; / type s is hashed_set (string) keyed; / a : s; / c : s.cursor; / a.insert ("a=1"); / c := a.first; / update_key a at c as x do / x := "b=2"; / a.delete ("z"); / end; / a.print; ==> 0 / 5: ok / 6: cursor / 8: "b=2" / 9: raised PROGRAM_ERROR (cursor tampering)
# heads, ends and views that raise
pragma propagate; / type l is list (integer); / a : l; / c : l.cursor; / begin / query a at c as q do / a.length; / end; / a.length; / exception / when constraint_error => a.append (1); / end; / a.print; ==> 0 / 6: raised CONSTRAINT_ERROR (no element) / 11: ok / 13: [1]
pragma propagate; / type s is hashed_set (string) keyed; / a : s; / c : s.cursor; / a.insert ("a=1"); / c := a.first; / begin / update_key a at c as x do / x := "b=2"; / end; / a.length; / exception / when constraint_error => a.clear; / when program_error => a.print; / end; ==> 0 / 5: ok / 6: cursor / 9: "b=2" / 8: raised PROGRAM_ERROR (key changed) / 14: []
pragma propagate; / type h is bounded holder (string); / a : h (2); / a.replace_element ("ab"); / begin / update a as x do / x := "abc"; / a.is_empty; / end; / exception when program_error => a.element; / end; ==> 0 / 4: ok / 7: raised PROGRAM_ERROR (element too large) / 10: "ab"
pragma propagate; / type l is bounded list (integer); / a : l (1); / begin / a.append (1, 2); / exception / when program_error => a.append (7); / when capacity_error => a.append (8); / end; / a.print; ==> 0 / 5: raised CAPACITY_ERROR (full) / 8: ok / 10: [8]
# all kinds of blocks are left at once
pragma propagate; / type l is list (integer); / type s is ordered_set (string) keyed; / type h is holder (integer); / a : l; / k : s; / g : h; / c : s.cursor; / d : l.cursor; / a.append (1, 3); / k.insert ("a=1"); / c := k.first; / d := a.first; / g.replace_element (5); / begin / for e of reverse a loop / for i in a loop / query a at d as q do / update a at d as u do / reference r of a at d do / stable a do / update_key k at c as x do / update g as y do /
  declare b : l; begin / b.append (1); / x := "b=1"; / y := 7; / u := 9; / a.append (1); / end; / end; / end; / end; / end; / end; / end; / end loop; / end loop; / exception / when others => a.print; / end; / a.append (4); / k.clear; / g.clear; / a.print; / k.print; ==> 0 / 10: ok / 11: ok / 12: cursor / 13: cursor / 14: ok / 25: ok / 26: "b=1" / 27: 7 / 28: 9 / 29: raised PROGRAM_ERROR (cursor tampering) / 40: [9, 1, 1] / 42: ok / 43: ok / 44: ok / 45: [9, 1, 1, 4] / 46: []
pragma propagate; / type l is list (integer); / a : l; / b : l; / a.append (1, 3); / for c in a loop / begin / for e of b loop / b.clear; / end loop; / b.append (1); / exception / when program_error => b.length; / end; / end loop; / a.append (2); / b.clear; / a.print; ==> 0 / 5: ok / 11: ok / 9: raised PROGRAM_ERROR (cursor tampering) / 13: 1 / 9: raised PROGRAM_ERROR (cursor tampering) / 13: 1 / 16: ok / 17: ok / 18: [1, 1, 1, 2]
# what raises nothing
pragma propagate; / type q is queue (integer); / a : q; / begin / a.dequeue; / a.enqueue (1); / exception when others => a.enqueue (2); / end; / a.print; ==> 0 / 5: stalled / 6: ok / 9: [1]
pragma propagate; / type q is priority_queue (integer); / a : q; / begin / tasks / task t is / n : integer; / begin / n := 9223372036854775807; / n := n + 1; / a.enqueue (n); / end; / end tasks; / a.print; / exception when others => a.enqueue (2); / end; ==> 0 / 9: t: 9223372036854775807 / 10: t: raised CONSTRAINT_ERROR (overflow) / 11: t: ok / 14: [9223372036854775807]
pragma propagate; / type q is queue (integer); / a : q; / begin / a.dequeue; / tasks / task t is / begin / a.enqueue (1); / end; / end tasks; / declare / type l is list (integer); / b : l; / begin / b.first_element; / tasks / task u is / begin / a.enqueue (2); / end; / end tasks; / end; / exception when others => / tasks / task v is / begin / a.enqueue (3); / end; / end tasks; / end; / a.print;
  ==> 0 / 5: stalled / 9: t: ok / 16: raised CONSTRAINT_ERROR (empty) / 28: v: ok / 32: [1, 3]
# blocks with handlers that are refused
type L is list (integer); / A : L; / A.Append (1); / begin / for C in A loop / A.Append (2); / A.Length; / end loop; / exception / when PROGRAM_ERROR => / A.Append (3); / end; / A.Print; / A.Element (no_element); / A.Print; ==> 1 / line 4: syntax
pragma Propagate; / begin / exception / when CAPACITY_ERROR => / when CAPACITY_ERROR => / end; ==> 1 / line 5: twice
pragma propagate; / begin end; ==> 1 / line 2: syntax
pragma propagate; / begin exception end; ==> 1 / line 2: syntax
pragma propagate; / begin exception when storage_error => end; ==> 1 / line 2: syntax
pragma propagate; / begin exception when others => when program_error => end; ==> 1 / line 2: syntax
pragma propagate; / begin exception when others => when others => end; ==> 1 / line 2: syntax
pragma propagate; / begin exception when program_error => begin exception when program_error => end; when constraint_error => when program_error => end; ==> 1 / line 2: twice
pragma propagate; / begin exception when others = > end; ==> 1 / line 2: syntax
pragma propagate; / begin / begin / begin / begin / begin / begin / begin / begin / begin / begin / begin / begin / begin / begin / begin / begin / begin / exception when others => / end; / exception when others => / end; / exception when others => / end; / exception when others => / end; / exception when others => / end; / exception when others => / end; / exception when others => / end; / exception when others => / end; / exception when others => / end; /
  exception when others => / end; / exception when others => / end; / exception when others => / end; / exception when others => / end; / exception when others => / end; / exception when others => / end; / exception when others => / end; / exception when others => / end; ==> 1 / line 18: limit
# the pragma and its words
when : integer; / when := 2; ==> 0 / 2: 2
type l is list (integer); / pragma propagate; ==> 1 / line 2: syntax
pragma propagate ==> 1 / line 1: syntax
pragma propagate; / others : integer; ==> 1 / line 2: syntax
pragma propagate; / type l is list (integer); / a : l; / a.when; ==> 1 / line 4: syntax
pragma propagates; ==> 1 / line 1: syntax
pragma propagate; / pragma propagate; ==> 1 / line 2: syntax
"#;

#[test]
fn exceptions_in_scripts_propagate(rt: HostRuntime) -> Result<(), Fail> {
    each_row_is_met(&rt, rt.alloc(), ROWS)
}
