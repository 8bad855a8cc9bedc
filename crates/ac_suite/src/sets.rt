//! A row for each call of hashed and ordered sets, and the reasons for which it is refused.
use crate::rows::each_row_is_met;
use std::test::Fail;

const ROWS: &str = r#"# bounded sets at their limits
type S is bounded ordered_set (integer); / A : S (2); / B : S (3); / A.Insert (5); / A.Insert (1); / A.Insert (3); / A.Insert (5); / A.Include (3); / A.Include (5); / B.Assign (A); / B.Insert (3); / A.Assign (B); / A.Move (B); / B.Length; / B.Assign (B); / B.Delete_First; / A.Assign (B); / A.Print; / A.Move (B); / B.Print;
  ==> 0 / 4: ok / 5: ok / 6: raised CAPACITY_ERROR (full) / 7: raised CONSTRAINT_ERROR (key present) / 8: raised CAPACITY_ERROR (full) / 9: ok / 10: ok / 11: ok / 12: raised CAPACITY_ERROR (full) / 13: raised CAPACITY_ERROR (full) / 14: 3 / 15: ok / 16: ok / 17: ok / 18: [3, 5] / 19: ok / 20: []
type S is bounded hashed_set (string); / A : S (1); / P : S.cursor; / A.Insert ("a", P); / A.Insert ("b", P); / A.Insert ("a", P); / A.Replace_Element (P, "b"); / A.Capacity; / A.Reserve_Capacity (2); / A.Print; ==> 0 / 4: true / 5: raised CAPACITY_ERROR (full) / 6: false / 7: ok / 8: 1 / 9: raised CAPACITY_ERROR (full) / 10: ["b"]
# calls of hashed sets
type S is hashed_set (string); / A : S; / P : S.cursor; / A.Insert ("elm"); / A.Insert ("ash"); / A.Insert ("elm"); / A.Insert ("fir", P); / A.Element (P); / A.Insert ("ash", P); / A.Element (P); / A.Include ("ash"); / A.Include ("oak"); / A.Replace ("elm"); / A.Replace ("yew"); / A.Replace_Element (P, "oak"); / A.Replace_Element (P, "ash"); / A.Replace_Element (P, "ivy"); / A.Element (P); /
  A.Contains ("ash"); / A.Contains ("oak"); / A.Print; / A.Exclude ("elm"); / A.Exclude ("elm"); / A.Delete ("elm"); / A.Delete ("fir"); / A.Delete (P); / A.Has_Element (P); / P := A.Find ("oak"); / P := A.Find ("fir"); / A.Length;
  ==> 0 / 4: ok / 5: ok / 6: raised CONSTRAINT_ERROR (key present) / 7: true / 8: "fir" / 9: false / 10: "ash" / 11: ok / 12: ok / 13: ok / 14: raised CONSTRAINT_ERROR (key absent) / 15: raised PROGRAM_ERROR (duplicate) / 16: ok / 17: ok / 18: "ivy" / 19: false / 20: true / 21: ["elm", "ivy", "fir", "oak"] / 22: ok / 23: ok / 24: raised CONSTRAINT_ERROR (key absent) / 25: ok / 26: ok / 27: false /
  28: cursor / 29: no_element / 30: 1
# walks and room of hashed sets
type S is hashed_set (integer); / A : S; / B : S; / C : S.cursor; / A.First; / A.Reserve_Capacity (10); / A.Insert (7); / A.Insert (-2); / A.Capacity; / C := A.First; / A.Element (C); / C := A.Next (C); / A.Element (C); / C := A.Next (C); / A.Next (C); / B.Insert (-2); / A.Equal (B); / B.Insert (7); / A.Equal (B); / B.Replace_Element (C, 5); / C := B.First; / B.Replace_Element (C, 5); /
  A.Equal (B); / A.Move (B); / B.Capacity; / A.Print; / A.Has_Element (C); / A.Clear; / A.Is_Empty;
  ==> 0 / 5: no_element / 6: ok / 7: ok / 8: ok / 9: 16 / 10: cursor / 11: 7 / 12: cursor / 13: -2 / 14: no_element / 15: no_element / 16: ok / 17: false / 18: ok / 19: true / 20: raised CONSTRAINT_ERROR (no element) / 21: cursor / 22: ok / 23: false / 24: ok / 25: 8 / 26: [5, 7] / 27: false / 28: ok / 29: true
# capacity of hashed sets
type D is list (integer); / type S is hashed_set (integer); / Drive : D; / A : S; / B : S; / N : integer; / Drive.Append (0, 9); / for I in Drive loop / N := N + 1; / A.Include (N); / A.Capacity; / end loop; / A.Exclude (1); / A.Capacity; / B.Assign (A); / B.Capacity; / B.Move (A); / A.Capacity; / A.Reserve_Capacity (17); / A.Capacity; / B.Print;
  ==> 0 / 7: ok / 9: 1 / 10: ok / 11: 8 / 9: 2 / 10: ok / 11: 8 / 9: 3 / 10: ok / 11: 8 / 9: 4 / 10: ok / 11: 8 / 9: 5 / 10: ok / 11: 8 / 9: 6 / 10: ok / 11: 8 / 9: 7 / 10: ok / 11: 8 / 9: 8 / 10: ok / 11: 8 / 9: 9 / 10: ok / 11: 16 / 13: ok / 14: 16 / 15: ok / 16: 8 / 17: ok / 18: 16 / 19: ok / 20: 32 / 21: [2, 3, 4, 5, 6, 7, 8, 9]
# calls of ordered sets by item
type S is ordered_set (integer); / A : S; / P : S.cursor; / A.Insert (20); / A.Insert (-5); / A.Insert (20); / A.Insert (7, P); / A.Element (P); / A.Insert (20, P); / A.Element (P); / A.Replace_Element (P, 7); / A.Replace_Element (P, -9); / A.Print; / A.Element (P); / P := A.Next (P); / A.Replace_Element (P, -5); / A.Include (7); / A.Include (3); / A.Replace (3); / A.Replace (4); / A.Exclude (7); /
  A.Exclude (7); / A.Delete (7); / A.Delete (-9); / A.Delete (P); / A.Delete (P); / P := A.Find (3); / A.Find (-5); / A.Contains (3); / A.Contains (4);
  ==> 0 / 4: ok / 5: ok / 6: raised CONSTRAINT_ERROR (key present) / 7: true / 8: 7 / 9: false / 10: 20 / 11: raised PROGRAM_ERROR (duplicate) / 12: ok / 13: [-9, -5, 7] / 14: -9 / 15: cursor / 16: ok / 17: ok / 18: ok / 19: ok / 20: raised CONSTRAINT_ERROR (key absent) / 21: ok / 22: ok / 23: raised CONSTRAINT_ERROR (key absent) / 24: ok / 25: ok / 26: raised CONSTRAINT_ERROR (no element) /
  27: cursor / 28: no_element / 29: true / 30: false
# calls of ordered sets by order
type S is ordered_set (string); / A : S; / C : S.cursor; / A.First_Element; / A.Last_Element; / A.Delete_First; / A.Delete_Last; / A.Last; / A.Floor ("b"); / A.Insert ("b"); / A.Insert ("a"); / A.Insert ("B"); / A.Insert ("ab"); / A.Print; / A.First_Element; / A.Last_Element; / C := A.Floor ("aa"); / A.Element (C); / C := A.Ceiling ("aa"); / A.Element (C); / C := A.Previous (C); / A.Element (C); /
  C := A.Last; / A.Next (C); / C := A.Ceiling ("b"); / A.Element (C); / A.Ceiling ("c"); / A.Delete_First; / A.Delete_Last; / A.Print;
  ==> 0 / 4: raised CONSTRAINT_ERROR (empty) / 5: raised CONSTRAINT_ERROR (empty) / 6: ok / 7: ok / 8: no_element / 9: no_element / 10: ok / 11: ok / 12: ok / 13: ok / 14: ["B", "a", "ab", "b"] / 15: "B" / 16: "b" / 17: cursor / 18: "a" / 19: cursor / 20: "ab" / 21: cursor / 22: "a" / 23: cursor / 24: no_element / 25: cursor / 26: "b" / 27: no_element / 28: ok / 29: ok / 30: ["a", "ab"]
# cursors of sets
type S is ordered_set (integer); / A : S; / B : S; / C : S.cursor; / A.Insert (1); / B.Insert (1); / C := B.First; / A.Element (C); / A.Replace_Element (C, 2); / A.Next (C); / A.Previous (C); / A.Delete (C); / A.Has_Element (C); / B.Exclude (1); / B.Insert (1); / B.Element (C); / B.Replace_Element (C, 2); / B.Next (C); / B.Previous (C); / B.Delete (C); / B.Has_Element (C); / C := no_element; /
  B.Element (C); / B.Replace_Element (C, 2); / B.Delete (C); / B.Previous (C);
  ==> 0 / 5: ok / 6: ok / 7: cursor / 8: raised PROGRAM_ERROR (foreign cursor) / 9: raised PROGRAM_ERROR (foreign cursor) / 10: raised PROGRAM_ERROR (foreign cursor) / 11: raised PROGRAM_ERROR (foreign cursor) / 12: raised PROGRAM_ERROR (foreign cursor) / 13: false / 14: ok / 15: ok / 16: raised PROGRAM_ERROR (dead cursor) / 17: raised PROGRAM_ERROR (dead cursor) /
  18: raised PROGRAM_ERROR (dead cursor) / 19: raised PROGRAM_ERROR (dead cursor) / 20: raised PROGRAM_ERROR (dead cursor) / 21: false / 22: no_element / 23: raised CONSTRAINT_ERROR (no element) / 24: raised CONSTRAINT_ERROR (no element) / 25: raised CONSTRAINT_ERROR (no element) / 26: no_element
# assign move and equal of sets
type S is hashed_set (string); / A : S; / B : S; / A.Insert ("x"); / A.Insert ("y"); / B.Assign (A); / B.Equal (A); / B.Insert ("z"); / A.Equal (B); / A.Move (B); / A.Print; / B.Print; / A.Assign (A); / A.Move (A); / A.Equal (A); ==> 0 / 4: ok / 5: ok / 6: ok / 7: true / 8: ok / 9: false / 10: ok / 11: ["x", "y", "z"] / 12: [] / 13: ok / 14: ok / 15: true
type S is ordered_set (integer); / A : S; / B : S; / C : S.cursor; / A.Insert (2); / A.Insert (1); / C := A.First; / B.Insert (1); / A.Equal (B); / A.Assign (B); / A.Equal (B); / A.Has_Element (C); / B.Move (A); / A.Is_Empty; / B.Move (B); / B.Print; ==> 0 / 5: ok / 6: ok / 7: cursor / 8: ok / 9: false / 10: ok / 11: true / 12: false / 13: ok / 14: true / 15: ok / 16: [1]
# guards of loops over sets
type S is hashed_set (integer); / A : S; / B : S; / P : S.cursor; / A.Insert (1); / P := A.First; / for E of A loop / A.Clear; / A.Assign (A); / A.Move (B); / B.Move (A); / B.Assign (A); / A.Insert (1); / A.Insert (2, P); / A.Include (1); / A.Replace (1); / A.Replace_Element (no_element, 1); / A.Exclude (9); / A.Delete (9); / A.Delete (P); / A.Reserve_Capacity (0); / A.Contains (E); / A.Equal (B); /
  end loop; / A.Replace_Element (P, 2); / A.Print;
  ==> 0 / 5: ok / 6: cursor / 8: raised PROGRAM_ERROR (cursor tampering) / 9: raised PROGRAM_ERROR (cursor tampering) / 10: raised PROGRAM_ERROR (cursor tampering) / 11: raised PROGRAM_ERROR (cursor tampering) / 12: ok / 13: raised PROGRAM_ERROR (cursor tampering) / 14: raised PROGRAM_ERROR (cursor tampering) / 15: raised PROGRAM_ERROR (cursor tampering) /
  16: raised PROGRAM_ERROR (cursor tampering) / 17: raised PROGRAM_ERROR (cursor tampering) / 18: raised PROGRAM_ERROR (cursor tampering) / 19: raised PROGRAM_ERROR (cursor tampering) / 20: raised PROGRAM_ERROR (cursor tampering) / 21: raised PROGRAM_ERROR (cursor tampering) / 22: true / 23: true / 25: ok / 26: [2]
# a set has guards of one kind
type S is ordered_set (string); / A : S; / P : S.cursor; / T : string; / A.Insert ("a"); / P := A.First; / stable A do / A.Replace ("a"); / A.Delete_First; / A.Delete_Last; / A.First_Element; / end; / query A at P as X do / T := X; / A.Insert ("b"); / A.Replace_Element (P, "c"); / end; / for C in A loop / A.Exclude ("b"); / end loop; / for C in reverse A loop / A.Replace ("b"); / end loop; /
  A.Replace_Element (P, "c"); / A.Print;
  ==> 0 / 5: ok / 6: cursor / 8: raised PROGRAM_ERROR (cursor tampering) / 9: raised PROGRAM_ERROR (cursor tampering) / 10: raised PROGRAM_ERROR (cursor tampering) / 11: "a" / 14: "a" / 15: raised PROGRAM_ERROR (cursor tampering) / 16: raised PROGRAM_ERROR (cursor tampering) / 19: raised PROGRAM_ERROR (cursor tampering) / 22: raised PROGRAM_ERROR (cursor tampering) / 24: ok / 25: ["c"]
# equal hashes are told apart
type S is hashed_set (string); / A : S; / C : S.cursor; / A.Insert ("AaAa"); / A.Insert ("AaBB"); / A.Insert ("BBAa"); / A.Contains ("BBBB"); / A.Exclude ("AaBB"); / A.Insert ("BBBB", C); / A.Length; / A.Contains ("BBBB"); / A.Contains ("AaBB"); / A.Replace_Element (C, "AaAa"); / A.Replace_Element (C, "AaBB"); / A.Print;
  ==> 0 / 4: ok / 5: ok / 6: ok / 7: false / 8: ok / 9: true / 10: 3 / 11: true / 12: false / 13: raised PROGRAM_ERROR (duplicate) / 14: ok / 15: ["AaAa", "BBAa", "AaBB"]
"#;

#[test]
fn sets_in_scripts(rt: HostRuntime) -> Result<(), Fail> {
    each_row_is_met(&rt, rt.alloc(), ROWS)
}
