//! Worked rows of vectors, and a row for each of their calls.
use crate::rows::each_row_is_met;
use std::test::Fail;

const ROWS: &str = r#"# worked rows of vectors
type T is vector (integer); / V : T; / V.Append (8); / for C in V loop / V.Replace_Element (C, 9); / end loop; / for E of V loop / V.Replace_Element (1, 4); / V.Append (4); / E := 6; / end loop; / V.Print; ==> 0 / 3: ok / 5: ok / 8: raised PROGRAM_ERROR (element tampering) / 9: raised PROGRAM_ERROR (cursor tampering) / 10: 6 / 12: [6]
type T is vector (integer); / V : T; / V.Append (1); / V.Append (2, 2); / V.Delete (4, 5); / V.Delete (5, 0); / V.Delete (2, 9); / V.Print; / V.Element (2); / V.Last_Index; / V.Capacity; ==> 0 / 3: ok / 4: ok / 5: ok / 6: raised CONSTRAINT_ERROR (index) / 7: ok / 8: [1] / 9: raised CONSTRAINT_ERROR (index) / 10: 1 / 11: 8
type T is vector (integer); / V : T; / C : T.cursor; / V.Append (10); / V.Append (20); / C := V.To_Cursor (2); / V.Insert (1, 5); / V.Element (C); / V.To_Index (C); / V.Swap (1, 3); / V.Element (C); ==> 0 / 4: ok / 5: ok / 6: cursor / 7: ok / 8: 20 / 9: 3 / 10: ok / 11: 5
type T is bounded vector (integer); / B : T (3); / B.Append (1, 2); / B.Append (9, 2); / B.Print; / B.Append (9); / B.Capacity; / B.Reserve_Capacity (4); ==> 0 / 3: ok / 4: raised CAPACITY_ERROR (full) / 5: [1, 1] / 6: ok / 7: 3 / 8: raised CAPACITY_ERROR (full)
type T is vector (integer); / V : T; / V.Append (1); / V.Append (2); / V.Append_Vector (V); / V.Print; / V.Set_Length (6); / V.Set_Length (5); / V.Print; / V.Find_Index (2, 0); / V.Reverse_Find_Index (2, 3); ==> 0 / 3: ok / 4: ok / 5: ok / 6: [1, 2, 1, 2] / 7: ok / 8: ok / 9: [1, 2, 1, 2, 0] / 10: raised CONSTRAINT_ERROR (index) / 11: 2
# a vector at its greatest length
type T is vector (integer); / V : T; / V.Append (0, 1000000); / V.Append (0); / V.Append (0, -1); / V.Length; ==> 0 / 3: ok / 4: raised CONSTRAINT_ERROR (length) / 5: raised CONSTRAINT_ERROR (length) / 6: 1000000
# calls that put
type T is vector (integer); / A : T; / C : T.cursor; / P : T.cursor; / A.Append (1); / A.Append (2, 2); / A.Prepend (3); / A.Prepend (4, 2); / C := A.Last; / A.Insert (C, 5); / A.Insert (no_element, 6, 2); / A.Insert (C, 7, P); / A.Element (P); / A.Insert (1, 8); / A.Insert (12, 9, 2); / A.Insert (15, 0); / A.Element (C); / A.To_Index (C); / A.Set_Length (3); / A.Has_Element (C); /
  A.Set_Length (4); / A.Print; / A.Capacity; / A.Reserve_Capacity (17); / A.Capacity; / A.Reserve_Capacity (-1); / A.First_Index; / A.Last_Index;
  ==> 0 / 5: ok / 6: ok / 7: ok / 8: ok / 9: cursor / 10: ok / 11: ok / 12: ok / 13: 7 / 14: ok / 15: ok / 16: raised CONSTRAINT_ERROR (index) / 17: 2 / 18: 9 / 19: ok / 20: false / 21: ok / 22: [8, 4, 4, 0] / 23: 16 / 24: ok / 25: 32 / 26: raised CONSTRAINT_ERROR (length) / 27: 1 / 28: 4
# calls with another vector
type T is vector (integer); / A : T; / B : T; / P : T.cursor; / Q : T.cursor; / A.Append (1); / A.Append (4); / B.Append (2); / B.Append (3); / A.Equal (B); / A.Insert_Vector (2, B); / Q := A.Last; / A.Insert_Vector (Q, B); / A.Insert_Vector (Q, B, P); / A.To_Index (P); / A.Insert_Vector (no_element, B); / A.Prepend_Vector (B); / A.Append_Vector (B); / A.Print; / A.Element (Q); /
  A.Insert_Vector (16, B); / A.Assign (B); / A.Equal (B); / A.Has_Element (Q); / A.Prepend_Vector (A); / A.Insert_Vector (2, A); / A.Print; / A.Clear; / A.Append (1); / A.Append (5); / Q := A.First; / A.Merge (B); / A.Print; / B.Is_Empty; / A.Element (Q); / A.Merge (A); / B.Merge (B); / B.Move (A); / A.Length; / B.Print; / B.Move (B); / B.Assign (B); / B.Equal (B);
  ==> 0 / 6: ok / 7: ok / 8: ok / 9: ok / 10: false / 11: ok / 12: cursor / 13: ok / 14: ok / 15: 6 / 16: ok / 17: ok / 18: ok / 19: [2, 3, 1, 2, 3, 2, 3, 2, 3, 4, 2, 3, 2, 3] / 20: 4 / 21: raised CONSTRAINT_ERROR (index) / 22: ok / 23: true / 24: false / 25: ok / 26: ok / 27: [2, 2, 3, 2, 3, 3, 2, 3] / 28: ok / 29: ok / 30: ok / 31: cursor / 32: ok / 33: [1, 2, 3, 5] / 34: true / 35: 1 /
  36: raised PROGRAM_ERROR (same container) / 37: ok / 38: ok / 39: 0 / 40: [1, 2, 3, 5] / 41: ok / 42: ok / 43: true
# calls by index
type T is vector (string); / A : T; / C : T.cursor; / D : T.cursor; / A.Append ("ash"); / A.Append ("elm"); / A.Append ("ash"); / A.Element (2); / A.Element (4); / A.Element (0); / A.Replace_Element (3, "fir"); / A.Replace_Element (4, "fir"); / A.Swap (1, 2); / A.Swap (1, 4); / C := A.To_Cursor (1); / A.Element (C); / A.To_Cursor (4); / A.To_Index (no_element); / A.Find_Index ("ash"); /
  A.Find_Index ("ash", 3); / A.Find_Index ("ash", 0); / A.Reverse_Find_Index ("ash"); / A.Reverse_Find_Index ("ash", 1); / A.Reverse_Find_Index ("fir", 9); / A.Sort; / A.Element (C); / A.Is_Sorted; / A.Reverse_Elements; / A.Element (C); / D := A.Find ("ash"); / A.To_Index (D); / D := A.Reverse_Find ("elm"); / A.Swap (C, D); / A.Print; / A.Contains ("oak"); / A.First_Element; / A.Last_Element;
  ==> 0 / 5: ok / 6: ok / 7: ok / 8: "elm" / 9: raised CONSTRAINT_ERROR (index) / 10: raised CONSTRAINT_ERROR (index) / 11: ok / 12: raised CONSTRAINT_ERROR (index) / 13: ok / 14: raised CONSTRAINT_ERROR (index) / 15: cursor / 16: "elm" / 17: no_element / 18: 0 / 19: 2 / 20: 0 / 21: raised CONSTRAINT_ERROR (index) / 22: 2 / 23: 0 / 24: 3 / 25: ok / 26: "ash" / 27: true / 28: ok / 29: "fir" /
  30: cursor / 31: 3 / 32: cursor / 33: ok / 34: ["elm", "fir", "ash"] / 35: false / 36: "elm" / 37: "ash"
# calls that take
type T is vector (string); / A : T; / C : T.cursor; / D : T.cursor; / A.Append ("elm"); / A.Append ("fir"); / A.Append ("ash"); / D := A.To_Cursor (2); / C := A.Next (D); / A.Replace_Element (C, "oak"); / C := A.Previous (D); / A.Delete (C); / A.Has_Element (C); / A.Element (D); / A.Print; / A.Delete (2, 5); / A.Delete (2); / A.Delete (3); / A.Delete_First; / A.Delete_Last; / A.First_Element; /
  A.Is_Empty; / A.Set_Length (2); / A.Print; / A.Length;
  ==> 0 / 5: ok / 6: ok / 7: ok / 8: cursor / 9: cursor / 10: ok / 11: cursor / 12: ok / 13: false / 14: "fir" / 15: ["fir", "oak"] / 16: ok / 17: ok / 18: raised CONSTRAINT_ERROR (index) / 19: ok / 20: ok / 21: raised CONSTRAINT_ERROR (empty) / 22: true / 23: ok / 24: ["", ""] / 25: 2
# blocks over vectors
type T is vector (integer); / A : T; / X : integer; / C : T.cursor; / A.Append (1); / A.Append (2); / for D in reverse A loop / X := A.Element (D); / end loop; / for E of A loop / E := E + 5; / end loop; / C := A.Last; / update A at C as V do / V := V - 9; / A.Swap (1, 2); / end; / stable A do / A.Set_Length (0); / A.Replace_Element (1, 3); / end; / A.Print;
  ==> 0 / 5: ok / 6: ok / 8: 2 / 8: 1 / 11: 6 / 11: 7 / 13: cursor / 15: -2 / 16: raised PROGRAM_ERROR (element tampering) / 19: raised PROGRAM_ERROR (element tampering) / 20: raised PROGRAM_ERROR (element tampering) / 22: [6, -2]
# values are sorted under names in place, and a merge takes a tie from the target
type T is vector (integer); / A : T; / B : T; / C : T.cursor; / D : T.cursor; / A.Append (10); / A.Append (20); / A.Append (30); / A.Append (5); / C := A.First; / A.Sort; / A.Print; / A.Element (C); / D := A.To_Cursor (3); / B.Append (7); / B.Append (20); / A.Merge (B); / A.Print; / A.To_Index (D); / B.Is_Empty;
  ==> 0 / 6: ok / 7: ok / 8: ok / 9: ok / 10: cursor / 11: ok / 12: [5, 10, 20, 30] / 13: 5 / 14: cursor / 15: ok / 16: ok / 17: ok / 18: [5, 7, 10, 20, 20, 30] / 19: 4 / 20: true
"#;

#[test]
fn vectors_in_scripts(rt: HostRuntime) -> Result<(), Fail> {
    each_row_is_met(&rt, rt.alloc(), ROWS)
}
