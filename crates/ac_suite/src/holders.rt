//! Worked rows of holders, and a row for each of their calls.
use crate::rows::each_row_is_met;
use std::test::Fail;

const ROWS: &str = r#"# worked rows of holders
type H is bounded holder (string); / A : H (3); / A.Element; / A.Replace_Element ("abcd"); / A.Replace_Element ("abc"); / update A as X do / X := "a""b"; / A.Clear; / end; / A.Print; ==> 0 / 3: raised CONSTRAINT_ERROR (empty) / 4: raised PROGRAM_ERROR (element too large) / 5: ok / 7: "a""b" / 8: raised PROGRAM_ERROR (element tampering) / 10: ["a""b"]
type H is holder (integer); / A : H; / B : H; / A.Equal (B); / A.Replace_Element (4); / query A as X do / A.Swap (B); / B.Swap (A); / end; / A.Swap (B); / B.Print; / query A as X do / A.Clear; / end; ==> 0 / 4: true / 5: ok / 7: raised PROGRAM_ERROR (element tampering) / 8: raised PROGRAM_ERROR (element tampering) / 10: ok / 11: [4] / 12: raised CONSTRAINT_ERROR (empty)
# calls of holders
type H is holder (integer); / A : H; / B : H; / X : integer; / A.Is_Empty; / X := A.Element; / A.Replace_Element (-7); / A.Is_Empty; / X := A.Element; / A.Print; / B.Print; / A.Equal (B); / B.Equal (A); / B.Assign (A); / A.Equal (B); / B.Replace_Element (X); / B.Replace_Element (9); / A.Equal (B); / B.Clear; / B.Clear; / B.Is_Empty; / A.Assign (B); / A.Print; / A.Element;
  ==> 0 / 5: true / 6: raised CONSTRAINT_ERROR (empty) / 7: ok / 8: false / 9: -7 / 10: [-7] / 11: [] / 12: false / 13: false / 14: ok / 15: true / 16: ok / 17: ok / 18: false / 19: ok / 20: ok / 21: true / 22: ok / 23: [] / 24: raised CONSTRAINT_ERROR (empty)
type H is holder (string); / A : H; / B : H; / S : string; / A.Move (B); / B.Replace_Element ("say ""so"""); / A.Move (B); / A.Print; / B.Print; / A.Move (B); / A.Print; / A.Replace_Element ("x"); / A.Swap (B); / A.Is_Empty; / S := B.Element; / A.Replace_Element (S); / A.Equal (B); / A.Replace_Element (""); / A.Swap (B); / A.Print; / B.Print; / A.Equal (B);
  ==> 0 / 5: ok / 6: ok / 7: ok / 8: ["say ""so"""] / 9: [] / 10: ok / 11: [] / 12: ok / 13: ok / 14: true / 15: "x" / 16: ok / 17: true / 18: ok / 19: ok / 20: ["x"] / 21: [""] / 22: false
type H is holder (string); / A : H; / A.Assign (A); / A.Equal (A); / A.Replace_Element ("x"); / A.Assign (A); / A.Move (A); / A.Swap (A); / A.Equal (A); / A.Print; ==> 0 / 3: ok / 4: true / 5: ok / 6: ok / 7: ok / 8: ok / 9: true / 10: ["x"]
# limits in bytes
type H is bounded holder (string); / A : H (3); / B : H (9); / B.Replace_Element ("abcd"); / A.Assign (B); / A.Move (B); / A.Swap (B); / B.Swap (A); / A.Print; / B.Print; / A.Replace_Element ("xyz"); / A.Swap (B); / B.Element; / B.Assign (A); / B.Print; / A.Move (B); / A.Print; / B.Is_Empty;
  ==> 0 / 4: ok / 5: raised PROGRAM_ERROR (element too large) / 6: raised PROGRAM_ERROR (element too large) / 7: raised PROGRAM_ERROR (element too large) / 8: raised PROGRAM_ERROR (element too large) / 9: [] / 10: ["abcd"] / 11: ok / 12: raised PROGRAM_ERROR (element too large) / 13: "abcd" / 14: ok / 15: ["xyz"] / 16: ok / 17: ["xyz"] / 18: true
type H is bounded holder (integer); / A : H (7); / B : H (8); / A.Replace_Element (0); / B.Replace_Element (0); / A.Swap (B); / A.Assign (B); / A.Is_Empty; / update A as X do / X := 1; / end; / B.Print;
  ==> 0 / 4: raised PROGRAM_ERROR (element too large) / 5: ok / 6: raised PROGRAM_ERROR (element too large) / 7: raised PROGRAM_ERROR (element too large) / 8: true / 9: raised CONSTRAINT_ERROR (empty) / 12: [0]
type H is bounded holder (string); / A : H (0); / A.Replace_Element (""); / A.Replace_Element ("x"); / A.Print; ==> 0 / 3: ok / 4: raised PROGRAM_ERROR (element too large) / 5: [""]
# views of holders
type H is bounded holder (string); / A : H (3); / B : H (9); / S : string; / A.Replace_Element ("abc"); / B.Replace_Element ("abcd"); / update A as X do / S := X; / X := "abcd"; / X := B.Element; / S := X; / X := ""; / X := S; / X := "ab"; / A.Element; / A.Equal (B); / end; / S := A.Element;
  ==> 0 / 5: ok / 6: ok / 8: "abc" / 9: raised PROGRAM_ERROR (element too large) / 10: raised PROGRAM_ERROR (element too large) / 11: "abc" / 12: "" / 13: "abc" / 14: "ab" / 15: "ab" / 16: false / 18: "ab"
type H is holder (string); / A : H; / B : H; / S : string; / A.Replace_Element ("a"); / query A as X do / S := X; / A.Replace_Element ("z"); / A.Clear; / A.Assign (B); / A.Move (B); / A.Swap (B); / A.Assign (A); / A.Move (A); / A.Swap (A); / B.Move (A); / B.Swap (A); / B.Assign (A); / A.Is_Empty; / A.Equal (B); / A.Print; / end; / A.Clear; / A.Is_Empty;
  ==> 0 / 5: ok / 7: "a" / 8: raised PROGRAM_ERROR (element tampering) / 9: raised PROGRAM_ERROR (element tampering) / 10: raised PROGRAM_ERROR (element tampering) / 11: raised PROGRAM_ERROR (element tampering) / 12: raised PROGRAM_ERROR (element tampering) / 13: raised PROGRAM_ERROR (element tampering) / 14: raised PROGRAM_ERROR (element tampering) / 15: raised PROGRAM_ERROR (element tampering) /
  16: raised PROGRAM_ERROR (element tampering) / 17: raised PROGRAM_ERROR (element tampering) / 18: ok / 19: false / 20: true / 21: ["a"] / 23: ok / 24: true
type H is holder (integer); / A : H; / N : integer; / A.Replace_Element (9223372036854775806); / reference X of A do / X := X + 1; / X := X + 1; / query A as Y do / X := X - 7; / N := Y; / A.Clear; / end; / A.Clear; / end; / reference X of A do / N := 5; / X := N; / end; / A.Print; / A.Clear; / reference X of A do / X := 1; / end; / update A as X do / X := 1; / end;
  ==> 0 / 4: ok / 6: 9223372036854775807 / 7: raised CONSTRAINT_ERROR (overflow) / 9: 9223372036854775800 / 10: 9223372036854775800 / 11: raised PROGRAM_ERROR (element tampering) / 13: raised PROGRAM_ERROR (element tampering) / 16: 5 / 17: 5 / 19: [5] / 20: ok / 21: raised CONSTRAINT_ERROR (empty) / 24: raised CONSTRAINT_ERROR (empty)
type H is holder (integer); / type L is list (integer); / A : H; / L1 : L; / L1.Append (3, 2); / declare / B : H; / begin / A.Assign (B); / B.Replace_Element (1); / A.Swap (B); / B.Is_Empty; / for E of L1 loop / update A as X do / X := X + 4; / E := X; / end; / end loop; / end; / A.Print; / L1.Print;
  ==> 0 / 5: ok / 9: ok / 10: ok / 11: ok / 12: true / 15: 5 / 16: 5 / 15: 9 / 16: 9 / 20: [9] / 21: [5, 9]
# refused with holders
type H is holder (integer, integer); ==> 1 / line 1: wrong type
type H is holder (string) keyed; ==> 1 / line 1: wrong type
type H is bounded holder (integer); / A : H; ==> 1 / line 2: wrong type
type H is holder (integer); / A : H (8); ==> 1 / line 2: wrong type
type H is holder (integer); / C : H.cursor; ==> 1 / line 2: wrong type
type H is holder (integer); / A : H; / A.Replace_Element ("x"); ==> 1 / line 3: wrong type
type H is holder (integer); / A : H; / A.Append (1); ==> 1 / line 3: wrong type
type H is holder (integer); / type I is holder (integer); / A : H; / B : I; / A.Swap (B); ==> 1 / line 5: wrong type
type H is holder (integer); / A : H; / for E of A loop / A.Clear; / end loop; ==> 1 / line 3: wrong type
type H is holder (integer); / A : H; / stable A do / A.Clear; / end; ==> 1 / line 3: wrong type
type H is holder (integer); / A : H; / query A as X do / X := 1; / end; ==> 1 / line 4: wrong type
type H is holder (integer); / type L is list (integer); / A : H; / C : L.cursor; / query A at C as X do / A.Clear; / end; ==> 1 / line 5: wrong type
type H is holder (string); / A : H; / C : H; / update_key A at C as X do / A.Clear; / end; ==> 1 / line 4: wrong type
"#;

#[test]
fn holders_in_scripts(rt: HostRuntime) -> Result<(), Fail> {
    each_row_is_met(&rt, rt.alloc(), ROWS)
}
