//! The calls of two sets, hashed and ordered, and of a set with itself.
use crate::rows::each_row_is_met;
use std::test::Fail;

const ROWS: &str = r#"# worked rows of two sets
type S is ordered_set (integer); / A : S; / A.Insert (2); / A.Insert (1); / A.Is_Subset (A); / A.Symmetric_Difference (A); / A.Print; / A.Overlap (A); / A.Equivalent_Sets (A); ==> 0 / 3: ok / 4: ok / 5: true / 6: ok / 7: [] / 8: false / 9: true
type S is hashed_set (string); / A : S; / A.Union (A); ==> 0 / 3: ok
# two hashed sets
type S is hashed_set (integer); / A : S; / B : S; / A.Insert (1); / A.Insert (2); / A.Insert (3); / B.Insert (4); / B.Insert (3); / B.Insert (5); / B.Insert (1); / A.Overlap (B); / A.Is_Subset (B); / A.Equivalent_Sets (B); / A.Union (B); / A.Print; / B.Is_Subset (A); / A.Is_Subset (B); / A.Difference (B); / A.Print; / A.Overlap (B); / A.Insert (5); / A.Insert (1); / A.Symmetric_Difference (B); /
  A.Print; / A.Intersection (B); / A.Print; / B.Print; / B.Exclude (1); / B.Exclude (5); / A.Equivalent_Sets (B); / A.Capacity;
  ==> 0 / 4: ok / 5: ok / 6: ok / 7: ok / 8: ok / 9: ok / 10: ok / 11: true / 12: false / 13: false / 14: ok / 15: [1, 2, 3, 4, 5] / 16: true / 17: false / 18: ok / 19: [2] / 20: false / 21: ok / 22: ok / 23: ok / 24: [2, 4, 3] / 25: ok / 26: [4, 3] / 27: [4, 3, 5, 1] / 28: ok / 29: ok / 30: true / 31: 8
# two ordered sets
type S is ordered_set (string); / A : S; / B : S; / A.Insert ("d"); / A.Insert ("b"); / B.Insert ("c"); / B.Insert ("b"); / B.Insert ("a"); / A.Overlap (B); / B.Overlap (A); / A.Is_Subset (B); / A.Equivalent_Sets (B); / A.Union (B); / A.Print; / B.Is_Subset (A); / A.Symmetric_Difference (B); / A.Print; / A.Overlap (B); / A.Insert ("c"); / A.Difference (B); / A.Print; / A.Symmetric_Difference (B); /
  A.Print; / A.Intersection (B); / A.Equivalent_Sets (B); / A.Print; / B.Print;
  ==> 0 / 4: ok / 5: ok / 6: ok / 7: ok / 8: ok / 9: true / 10: true / 11: false / 12: false / 13: ok / 14: ["a", "b", "c", "d"] / 15: true / 16: ok / 17: ["d"] / 18: false / 19: ok / 20: ok / 21: ["d"] / 22: ok / 23: ["a", "b", "c", "d"] / 24: ok / 25: true / 26: ["a", "b", "c"] / 27: ["a", "b", "c"]
# sets with themselves
type S is hashed_set (string); / A : S; / A.Overlap (A); / A.Is_Subset (A); / A.Equivalent_Sets (A); / A.Union (A); / A.Symmetric_Difference (A); / A.Insert ("y"); / A.Insert ("x"); / A.Overlap (A); / A.Is_Subset (A); / A.Equivalent_Sets (A); / A.Union (A); / A.Intersection (A); / A.Print; / A.Difference (A); / A.Print; / A.Insert ("x"); / A.Symmetric_Difference (A); / A.Is_Empty;
  ==> 0 / 3: false / 4: true / 5: true / 6: ok / 7: ok / 8: ok / 9: ok / 10: true / 11: true / 12: true / 13: ok / 14: ok / 15: ["y", "x"] / 16: ok / 17: [] / 18: ok / 19: ok / 20: true
type S is ordered_set (integer); / A : S; / A.Insert (2); / A.Insert (-1); / A.Union (A); / A.Intersection (A); / A.Print; / A.Overlap (A); / A.Is_Subset (A); / A.Equivalent_Sets (A); / A.Difference (A); / A.Length; / A.Overlap (A); / A.Symmetric_Difference (A); / A.Is_Subset (A); / A.Equivalent_Sets (A);
  ==> 0 / 3: ok / 4: ok / 5: ok / 6: ok / 7: [-1, 2] / 8: true / 9: true / 10: true / 11: ok / 12: 0 / 13: false / 14: ok / 15: true / 16: true
# a set with an empty one
type S is ordered_set (integer); / A : S; / B : S; / A.Insert (1); / A.Union (B); / A.Is_Subset (B); / B.Is_Subset (A); / A.Overlap (B); / A.Symmetric_Difference (B); / A.Difference (B); / A.Print; / A.Intersection (B); / A.Is_Empty; / A.Equivalent_Sets (B); / B.Insert (3); / A.Union (B); / A.Print;
  ==> 0 / 4: ok / 5: ok / 6: false / 7: true / 8: false / 9: ok / 10: ok / 11: [1] / 12: ok / 13: true / 14: true / 15: ok / 16: ok / 17: [3]
# cursors through set algebra
type S is hashed_set (integer); / A : S; / B : S; / C : S.cursor; / D : S.cursor; / A.Insert (7); / A.Insert (8); / C := A.Find (7); / D := A.Find (8); / B.Insert (8); / B.Insert (9); / A.Symmetric_Difference (B); / A.Element (C); / A.Element (D); / C := A.Next (C); / A.Element (C); / A.Has_Element (D); / C := B.First; / A.Union (B); / B.Element (C); / A.Print;
  ==> 0 / 6: ok / 7: ok / 8: cursor / 9: cursor / 10: ok / 11: ok / 12: ok / 13: 7 / 14: raised PROGRAM_ERROR (dead cursor) / 15: cursor / 16: 9 / 17: false / 18: cursor / 19: ok / 20: 8 / 21: [7, 9, 8]
# bounded sets are full
type S is bounded ordered_set (integer); / A : S (3); / B : S (3); / A.Insert (1); / A.Insert (2); / B.Insert (2); / B.Insert (3); / B.Insert (4); / A.Union (B); / A.Print; / A.Symmetric_Difference (B); / A.Print; / A.Insert (5); / B.Union (A); / A.Union (A); / B.Symmetric_Difference (A); / B.Print;
  ==> 0 / 4: ok / 5: ok / 6: ok / 7: ok / 8: ok / 9: raised CAPACITY_ERROR (full) / 10: [1, 2] / 11: ok / 12: [1, 3, 4] / 13: raised CAPACITY_ERROR (full) / 14: raised CAPACITY_ERROR (full) / 15: ok / 16: ok / 17: [1, 2]
type S is bounded hashed_set (string); / A : S (1); / B : S (2); / B.Insert ("b"); / B.Insert ("a"); / A.Union (B); / A.Insert ("a"); / A.Symmetric_Difference (B); / A.Print; / A.Symmetric_Difference (B); / A.Print; / B.Union (A); ==> 0 / 4: ok / 5: ok / 6: raised CAPACITY_ERROR (full) / 7: ok / 8: ok / 9: ["b"] / 10: ok / 11: ["a"] / 12: ok
# guards and two sets
type S is hashed_set (integer); / A : S; / B : S; / A.Insert (1); / for E of A loop / A.Union (A); / A.Union (B); / A.Intersection (A); / A.Intersection (B); / A.Difference (A); / A.Difference (B); / A.Symmetric_Difference (A); / A.Symmetric_Difference (B); / A.Overlap (B); / A.Is_Subset (A); / A.Equivalent_Sets (B); / B.Union (A); / end loop; / A.Overlap (B); / A.Difference (B); / A.Print;
  ==> 0 / 4: ok / 6: raised PROGRAM_ERROR (cursor tampering) / 7: raised PROGRAM_ERROR (cursor tampering) / 8: raised PROGRAM_ERROR (cursor tampering) / 9: raised PROGRAM_ERROR (cursor tampering) / 10: raised PROGRAM_ERROR (cursor tampering) / 11: raised PROGRAM_ERROR (cursor tampering) / 12: raised PROGRAM_ERROR (cursor tampering) / 13: raised PROGRAM_ERROR (cursor tampering) / 14: false /
  15: true / 16: false / 17: ok / 19: true / 20: ok / 21: []
type S is bounded ordered_set (string); / A : S (1); / B : S (1); / A.Insert ("a"); / B.Insert ("b"); / stable A do / A.Union (B); / A.Overlap (B); / B.Intersection (A); / end; / A.Union (B); / B.Union (A); / B.Print; ==> 0 / 4: ok / 5: ok / 7: raised PROGRAM_ERROR (cursor tampering) / 8: false / 9: ok / 11: ok / 12: ok / 13: ["a"]
# what is no call of two sets
type S is hashed_set (integer); / type R is hashed_set (integer); / A : S; / B : R; / A.Union (B); ==> 1 / line 5: wrong type
type S is hashed_set (integer); / type R is ordered_set (integer); / A : S; / B : R; / B.Is_Subset (A); ==> 1 / line 5: wrong type
type S is ordered_set (integer); / A : S; / A.Intersection (1); ==> 1 / line 3: wrong type
type S is ordered_set (string); / A : S; / A.Difference; ==> 1 / line 3: wrong type
type S is hashed_set (string); / A : S; / X : integer; / X := A.Overlap (A); ==> 1 / line 4: wrong type
type S is ordered_set (integer); / A : S; / A.Equivalent_Sets (A, A); ==> 1 / line 3: wrong type
type M is hashed_map (integer, integer); / A : M; / A.Union (A); ==> 1 / line 3: wrong type
type L is list (integer); / A : L; / A.Symmetric_Difference (A); ==> 1 / line 3: wrong type
"#;

#[test]
fn two_sets_in_scripts(rt: HostRuntime) -> Result<(), Fail> {
    each_row_is_met(&rt, rt.alloc(), ROWS)
}
