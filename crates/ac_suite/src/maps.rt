//! A row for each call of hashed and ordered maps, and the reasons for which it is refused.
use crate::rows::each_row_is_met;
use std::test::Fail;

const ROWS: &str = r#"# calls of hashed maps that put
type M is hashed_map (integer, string); / A : M; / P : M.cursor; / Q : M.cursor; / A.Insert (3, "c"); / A.Insert (-1, "a"); / A.Insert (3, "x"); / A.Insert (2, "b", P); / A.Element (P); / A.Insert (3, "y", P); / A.Key (P); / A.Element (P); / A.Include (-1, "z"); / A.Include (4, "d"); / A.Replace (2, "w"); / A.Replace (5, "w"); / A.Element (2); / A.Element (5); / A.Replace_Element (P, "v"); /
  A.Replace_Element (Q, "u"); / A.Contains (4); / A.Contains (5); / A.Length; / A.Print;
  ==> 0 / 5: ok / 6: ok / 7: raised CONSTRAINT_ERROR (key present) / 8: true / 9: "b" / 10: false / 11: 3 / 12: "c" / 13: ok / 14: ok / 15: ok / 16: raised CONSTRAINT_ERROR (key absent) / 17: "w" / 18: raised CONSTRAINT_ERROR (key absent) / 19: ok / 20: raised CONSTRAINT_ERROR (no element) / 21: true / 22: false / 23: 4 / 24: [3 => "v", -1 => "z", 2 => "w", 4 => "d"]
# calls of hashed maps that look and take
type M is hashed_map (string, integer); / A : M; / C : M.cursor; / D : M.cursor; / A.Is_Empty; / A.First; / A.Insert ("ash", 1); / A.Insert ("elm", 2); / A.Insert ("fir", 3); / A.Insert ("", 4); / C := A.First; / A.Key (C); / D := A.Next (C); / A.Key (D); / A.Delete (D); / A.Next (D); / D := A.Next (C); / A.Element (D); / A.Exclude ("ash"); / A.Exclude ("ash"); / A.Has_Element (C); /
  A.Delete ("elm"); / A.Delete ("fir"); / C := A.Find (""); / A.Find ("fir"); / C := A.Next (C); / A.Is_Empty; / A.Print; / A.Clear; / A.Print;
  ==> 0 / 5: true / 6: no_element / 7: ok / 8: ok / 9: ok / 10: ok / 11: cursor / 12: "ash" / 13: cursor / 14: "elm" / 15: ok / 16: no_element / 17: cursor / 18: 3 / 19: ok / 20: ok / 21: false / 22: raised CONSTRAINT_ERROR (key absent) / 23: ok / 24: cursor / 25: no_element / 26: no_element / 27: false / 28: ["" => 4] / 29: ok / 30: []
# calls of ordered maps by key
type M is ordered_map (integer, integer); / A : M; / P : M.cursor; / A.Insert (5, 50); / A.Insert (-3, 30); / A.Insert (5, 1); / A.Insert (0, 10, P); / A.Key (P); / A.Insert (-3, 9, P); / A.Element (P); / A.Include (5, 51); / A.Include (7, 70); / A.Replace (0, 11); / A.Replace (1, 11); / A.Element (0); / A.Element (1); / A.Replace_Element (P, 31); / A.Print; / A.Exclude (7); / A.Exclude (7); /
  A.Delete (5); / A.Delete (5); / A.Delete (P); / A.Has_Element (P); / P := A.Find (0); / P := A.Find (1); / A.Contains (0); / A.Contains (1); / A.Print; / A.Clear;
  ==> 0 / 4: ok / 5: ok / 6: raised CONSTRAINT_ERROR (key present) / 7: true / 8: 0 / 9: false / 10: 30 / 11: ok / 12: ok / 13: ok / 14: raised CONSTRAINT_ERROR (key absent) / 15: 11 / 16: raised CONSTRAINT_ERROR (key absent) / 17: ok / 18: [-3 => 31, 0 => 11, 5 => 51, 7 => 70] / 19: ok / 20: ok / 21: ok / 22: raised CONSTRAINT_ERROR (key absent) / 23: ok / 24: false / 25: cursor / 26: no_element /
  27: true / 28: false / 29: [0 => 11] / 30: ok
# calls of ordered maps by order
type M is ordered_map (string, string); / A : M; / C : M.cursor; / A.First; / A.First_Key; / A.Last_Key; / A.First_Element; / A.Last_Element; / A.Delete_First; / A.Delete_Last; / A.Insert ("fir", "green"); / A.Insert ("ash", "grey"); / A.Insert ("oak", "dark"); / A.Insert ("elm", "brown"); / A.First_Key; / A.Last_Key; / A.First_Element; / A.Last_Element; / C := A.Next (C); / C := A.First; /
  C := A.Next (C); / A.Element (C); / C := A.Previous (C); / C := A.Previous (C); / C := A.Last; / A.Next (C); / A.Key (C); / A.Delete_First; / A.Delete_Last; / A.Print;
  ==> 0 / 4: no_element / 5: raised CONSTRAINT_ERROR (empty) / 6: raised CONSTRAINT_ERROR (empty) / 7: raised CONSTRAINT_ERROR (empty) / 8: raised CONSTRAINT_ERROR (empty) / 9: ok / 10: ok / 11: ok / 12: ok / 13: ok / 14: ok / 15: "ash" / 16: "oak" / 17: "grey" / 18: "dark" / 19: no_element / 20: cursor / 21: cursor / 22: "brown" / 23: cursor / 24: no_element / 25: cursor / 26: no_element /
  27: "oak" / 28: ok / 29: ok / 30: ["elm" => "brown", "fir" => "green"]
# four keys of a hashed map with one hash
type M is hashed_map (string, integer); / A : M; / A.Insert ("AaAa", 1); / A.Insert ("AaBB", 2); / A.Insert ("BBAa", 3); / A.Insert ("BBBB", 4); / A.Insert ("BBAa", 5); / A.Delete ("AaBB"); / A.Element ("BBBB"); / A.Contains ("AaBB"); / A.Print;
  ==> 0 / 3: ok / 4: ok / 5: ok / 6: ok / 7: raised CONSTRAINT_ERROR (key present) / 8: ok / 9: 4 / 10: false / 11: ["AaAa" => 1, "BBAa" => 3, "BBBB" => 4]
# floor and ceiling of ordered maps
type M is ordered_map (string, integer); / A : M; / C : M.cursor; / A.Floor ("b"); / A.Ceiling ("b"); / A.Insert ("elm", 2); / A.Insert ("ash", 1); / A.Insert ("fir", 3); / C := A.Floor ("f"); / A.Key (C); / C := A.Floor ("fir"); / A.Key (C); / C := A.Floor ("zz"); / A.Element (C); / C := A.Ceiling ("a"); / A.Key (C); / C := A.Ceiling ("elm"); / A.Element (C); / C := A.Ceiling ("elm "); /
  A.Element (C); / A.Floor ("as"); / A.Ceiling ("g");
  ==> 0 / 4: no_element / 5: no_element / 6: ok / 7: ok / 8: ok / 9: cursor / 10: "elm" / 11: cursor / 12: "fir" / 13: cursor / 14: 3 / 15: cursor / 16: "ash" / 17: cursor / 18: 2 / 19: cursor / 20: 3 / 21: no_element / 22: no_element
# cursors of another map
type M is ordered_map (integer, string); / A : M; / B : M; / C : M.cursor; / A.Insert (1, "a"); / B.Insert (1, "b"); / C := B.First; / A.Key (C); / A.Element (C); / A.Replace_Element (C, "x"); / A.Next (C); / A.Previous (C); / A.Delete (C); / A.Has_Element (C); / B.Has_Element (C); / B.Key (C); / C := no_element; / A.Key (C); / A.Element (C); / A.Delete (C); / A.Next (C); / A.Previous (C); /
  A.Has_Element (C); / A.Print;
  ==> 0 / 5: ok / 6: ok / 7: cursor / 8: raised PROGRAM_ERROR (foreign cursor) / 9: raised PROGRAM_ERROR (foreign cursor) / 10: raised PROGRAM_ERROR (foreign cursor) / 11: raised PROGRAM_ERROR (foreign cursor) / 12: raised PROGRAM_ERROR (foreign cursor) / 13: raised PROGRAM_ERROR (foreign cursor) / 14: false / 15: true / 16: 1 / 17: no_element / 18: raised CONSTRAINT_ERROR (no element) /
  19: raised CONSTRAINT_ERROR (no element) / 20: raised CONSTRAINT_ERROR (no element) / 21: no_element / 22: no_element / 23: false / 24: [1 => "a"]
# dead cursors of maps
type M is hashed_map (integer, integer); / A : M; / C : M.cursor; / D : M.cursor; / X : integer; / A.Insert (1, 10); / C := A.First; / D := C; / A.Delete (C); / A.Insert (1, 11); / A.Key (C); / A.Key (D); / A.Element (D); / A.Replace_Element (D, 5); / A.Next (D); / A.Delete (D); / A.Has_Element (D); / query A at D as Q do / X := Q; / end; / D := A.First; / A.Include (1, 12); / A.Replace (1, 13); /
  A.Element (D); / A.Clear; / A.Element (D);
  ==> 0 / 6: ok / 7: cursor / 8: cursor / 9: ok / 10: ok / 11: raised CONSTRAINT_ERROR (no element) / 12: raised PROGRAM_ERROR (dead cursor) / 13: raised PROGRAM_ERROR (dead cursor) / 14: raised PROGRAM_ERROR (dead cursor) / 15: raised PROGRAM_ERROR (dead cursor) / 16: raised PROGRAM_ERROR (dead cursor) / 17: false / 18: raised PROGRAM_ERROR (dead cursor) / 21: cursor / 22: ok / 23: ok / 24: 13 /
  25: ok / 26: raised PROGRAM_ERROR (dead cursor)
# assign and move of hashed maps
type M is hashed_map (integer, integer); / A : M; / B : M; / C : M.cursor; / A.Insert (1, 10); / A.Insert (2, 20); / B.Insert (2, 20); / B.Insert (1, 10); / A.Equal (B); / B.Replace (1, 11); / A.Equal (B); / B.Exclude (1); / A.Equal (B); / C := A.First; / A.Assign (B); / A.Has_Element (C); / B.Insert (3, 30); / A.Print; / C := B.First; / A.Move (B); / B.Has_Element (C); / A.Print; / B.Is_Empty; /
  C := A.First; / A.Assign (A); / A.Move (A); / A.Equal (A); / A.Element (C); / B.Equal (A);
  ==> 0 / 5: ok / 6: ok / 7: ok / 8: ok / 9: true / 10: ok / 11: false / 12: ok / 13: false / 14: cursor / 15: ok / 16: false / 17: ok / 18: [2 => 20] / 19: cursor / 20: ok / 21: false / 22: [2 => 20, 3 => 30] / 23: true / 24: cursor / 25: ok / 26: ok / 27: true / 28: 20 / 29: false
# assign and move of ordered maps
type M is ordered_map (string, integer); / A : M; / B : M; / A.Insert ("b", 2); / A.Insert ("a", 1); / B.Insert ("a", 1); / A.Equal (B); / B.Insert ("b", 3); / A.Equal (B); / B.Include ("b", 2); / A.Equal (B); / B.Insert ("c", 3); / A.Assign (B); / B.Clear; / A.Print; / B.Insert ("d", 4); / B.Move (A); / A.Length; / B.Print; / B.Assign (B); / B.Move (B); / B.Equal (B); / B.Assign (A); /
  B.Is_Empty; / A.Equal (B);
  ==> 0 / 4: ok / 5: ok / 6: ok / 7: false / 8: ok / 9: false / 10: ok / 11: true / 12: ok / 13: ok / 14: ok / 15: ["a" => 1, "b" => 2, "c" => 3] / 16: ok / 17: ok / 18: 0 / 19: ["a" => 1, "b" => 2, "c" => 3] / 20: ok / 21: ok / 22: true / 23: ok / 24: true / 25: true
# capacity of hashed maps
type M is hashed_map (integer, integer); / A : M; / B : M; / A.Capacity; / A.Reserve_Capacity (0); / A.Capacity; / A.Reserve_Capacity (9); / A.Capacity; / A.Reserve_Capacity (3); / A.Capacity; / A.Reserve_Capacity (-1); / A.Reserve_Capacity (1000001); / B.Insert (1, 1); / B.Capacity; / B.Insert (1, 1); / B.Delete (1); / B.Capacity; / A.Insert (1, 1); / for C in A loop / A.Reserve_Capacity (1); /
  A.Capacity; / end loop; / B.Assign (A); / B.Capacity; / B.Move (A); / A.Capacity; / B.Clear; / B.Capacity;
  ==> 0 / 4: 0 / 5: ok / 6: 0 / 7: ok / 8: 16 / 9: ok / 10: 16 / 11: raised CONSTRAINT_ERROR (length) / 12: raised CONSTRAINT_ERROR (length) / 13: ok / 14: 8 / 15: raised CONSTRAINT_ERROR (key present) / 16: ok / 17: 8 / 18: ok / 20: raised PROGRAM_ERROR (cursor tampering) / 21: 16 / 23: ok / 24: 8 / 25: ok / 26: 16 / 27: ok / 28: 8
# a bounded map at its limit
type M is bounded hashed_map (string, string); / A : M (2); / P : M.cursor; / A.Capacity; / A.Insert ("a", "1"); / A.Insert ("b", "2"); / A.Insert ("c", "3"); / A.Insert ("a", "3"); / A.Insert ("c", "3", P); / A.Insert ("b", "3", P); / A.Element (P); / A.Include ("c", "3"); / A.Include ("a", "4"); / A.Reserve_Capacity (2); / A.Reserve_Capacity (3); / A.Reserve_Capacity (-1); / A.Capacity; /
  A.Delete (P); / A.Insert ("c", "3"); / A.Print;
  ==> 0 / 4: 2 / 5: ok / 6: ok / 7: raised CAPACITY_ERROR (full) / 8: raised CONSTRAINT_ERROR (key present) / 9: raised CAPACITY_ERROR (full) / 10: false / 11: "2" / 12: raised CAPACITY_ERROR (full) / 13: ok / 14: ok / 15: raised CAPACITY_ERROR (full) / 16: raised CONSTRAINT_ERROR (length) / 17: 2 / 18: ok / 19: ok / 20: ["a" => "4", "c" => "3"]
type M is bounded ordered_map (integer, integer); / A : M (0); / A.Insert (1, 1); / A.Include (1, 1); / A.Print; ==> 0 / 3: raised CAPACITY_ERROR (full) / 4: raised CAPACITY_ERROR (full) / 5: []
# guards of loops over maps
type M is hashed_map (integer, integer); / A : M; / B : M; / P : M.cursor; / A.Insert (1, 10); / B.Insert (1, 10); / P := A.First; / for C in A loop / A.Clear; / A.Assign (A); / A.Assign (B); / A.Move (B); / B.Move (A); / B.Assign (A); / A.Insert (1, 1); / A.Insert (2, 2, P); / A.Include (1, 1); / A.Exclude (9); / A.Delete (9); / A.Delete (P); / A.Replace (1, 11); / A.Replace_Element (C, 12); /
  A.Element (P); / A.Equal (B); / end loop; / A.Delete (P);
  ==> 0 / 5: ok / 6: ok / 7: cursor / 9: raised PROGRAM_ERROR (cursor tampering) / 10: raised PROGRAM_ERROR (cursor tampering) / 11: raised PROGRAM_ERROR (cursor tampering) / 12: raised PROGRAM_ERROR (cursor tampering) / 13: raised PROGRAM_ERROR (cursor tampering) / 14: ok / 15: raised PROGRAM_ERROR (cursor tampering) / 16: raised PROGRAM_ERROR (cursor tampering) /
  17: raised PROGRAM_ERROR (cursor tampering) / 18: raised PROGRAM_ERROR (cursor tampering) / 19: raised PROGRAM_ERROR (cursor tampering) / 20: raised PROGRAM_ERROR (cursor tampering) / 21: ok / 22: ok / 23: 12 / 24: false / 26: ok
# guards of stable maps
type M is ordered_map (integer, integer); / A : M; / P : M.cursor; / A.Insert (1, 10); / P := A.First; / stable A do / A.Clear; / A.Move (A); / A.Insert (1, 1); / A.Insert (1, 1, P); / A.Include (2, 2); / A.Replace (9, 9); / A.Replace_Element (no_element, 9); / A.Exclude (1); / A.Delete (1); / A.Delete (P); / A.Delete_First; / A.Delete_Last; / A.Floor (5); / for E of A loop / A.Replace (1, 2); /
  A.Insert (2, 2); / E := 11; / end loop; / end; / A.Replace (1, 12); / A.Print;
  ==> 0 / 4: ok / 5: cursor / 7: raised PROGRAM_ERROR (element tampering) / 8: raised PROGRAM_ERROR (element tampering) / 9: raised PROGRAM_ERROR (element tampering) / 10: raised PROGRAM_ERROR (element tampering) / 11: raised PROGRAM_ERROR (element tampering) / 12: raised PROGRAM_ERROR (element tampering) / 13: raised PROGRAM_ERROR (element tampering) / 14: raised PROGRAM_ERROR (element tampering) /
  15: raised PROGRAM_ERROR (element tampering) / 16: raised PROGRAM_ERROR (element tampering) / 17: raised PROGRAM_ERROR (element tampering) / 18: raised PROGRAM_ERROR (element tampering) / 19: cursor / 21: raised PROGRAM_ERROR (element tampering) / 22: raised PROGRAM_ERROR (cursor tampering) / 23: 11 / 26: ok / 27: [1 => 12]
# guards of two maps
type M is hashed_map (string, string); / A : M; / B : M; / B.Insert ("a ""b""", ""); / stable A do / for C in B loop / A.Move (B); / B.Move (A); / A.Assign (B); / B.Assign (A); / B.Equal (A); / B.Replace ("a ""b""", "c"); / end loop; / end; / A.Move (B); / B.Print; / A.Print;
  ==> 0 / 4: ok / 7: raised PROGRAM_ERROR (element tampering) / 8: raised PROGRAM_ERROR (cursor tampering) / 9: raised PROGRAM_ERROR (element tampering) / 10: raised PROGRAM_ERROR (cursor tampering) / 11: false / 12: ok / 15: ok / 16: [] / 17: ["a ""b""" => "c"]
"#;

#[test]
fn maps_in_scripts(rt: HostRuntime) -> Result<(), Fail> {
    each_row_is_met(&rt, rt.alloc(), ROWS)
}
