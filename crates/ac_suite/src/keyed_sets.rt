//! Scripts over sets of texts with keys: the calls by key, and what such sets lack.
use crate::rows::each_row_is_met;
use std::test::Fail;

const ROWS: &str = r#"# worked rows of keyed sets
type S is ordered_set (string) keyed; / A : S; / C : S.cursor; / A.Insert ("a=1"); / C := A.Key_Find ("a"); / update_key A at C as X do / X := "a=2"; / A.Insert ("q"); / end; / A.Print; / update_key A at C as X do / X := "b=2"; / end; / A.Length; / A.Element (C);
  ==> 0 / 4: ok / 5: cursor / 7: "a=2" / 8: raised PROGRAM_ERROR (cursor tampering) / 10: ["a=2"] / 12: "b=2" / 11: raised PROGRAM_ERROR (key changed) / 14: 0 / 15: raised PROGRAM_ERROR (dead cursor)
type S is hashed_set (string) keyed; / A : S; / A.Insert ("a=1"); / A.Insert ("a=7"); / for C in A loop / update_key A at C as X do / X := "a=3"; / end; / end loop; / A.Contains ("a=9"); / A.Print; ==> 0 / 3: ok / 4: raised CONSTRAINT_ERROR (key present) / 6: raised PROGRAM_ERROR (cursor tampering) / 10: true / 11: ["a=1"]
type S is hashed_set (string) keyed; / A : S; / B : S; / A.Insert ("a=1"); / A.Insert ("b=1"); / B.Insert ("b=2"); / B.Insert ("c=2"); / A.Union (B); / A.Print; / A.Symmetric_Difference (B); / A.Print; / A.Overlap (B); ==> 0 / 4: ok / 5: ok / 6: ok / 7: ok / 8: ok / 9: ["a=1", "b=1", "c=2"] / 10: ok / 11: ["a=1"] / 12: false
type S is ordered_set (string) keyed; / A : S; / A.Insert ("b=1"); / A.Insert ("a=1"); / A.Key_Replace ("b", "a=3"); / A.Key_Replace ("b", "c=3"); / A.Print; / A.Key_Delete ("b"); ==> 0 / 3: ok / 4: ok / 5: raised PROGRAM_ERROR (duplicate) / 6: ok / 7: ["a=1", "c=3"] / 8: raised CONSTRAINT_ERROR (key absent)
# calls by key of ordered sets
type S is ordered_set (string) keyed; / A : S; / C : S.cursor; / K : string; / A.Insert ("b=2"); / A.Insert ("a=1"); / A.Insert ("d"); / A.Key (C); / A.Key_Element ("b"); / A.Key_Element ("b=2"); / C := A.Key_Find ("d"); / A.Element (C); / K := A.Key (C); / C := A.Key_Find ("c"); / A.Key_Contains ("a"); / A.Key_Contains ("a=1"); / C := A.Key_Floor ("c"); / A.Element (C); / C := A.Key_Floor ("b"); /
  K := A.Key (C); / C := A.Key_Floor ("A"); / C := A.Key_Ceiling ("c"); / K := A.Key (C); / C := A.Key_Ceiling ("e"); / A.Key_Ceiling (K);
  ==> 0 / 5: ok / 6: ok / 7: ok / 8: raised CONSTRAINT_ERROR (no element) / 9: "b=2" / 10: raised CONSTRAINT_ERROR (key absent) / 11: cursor / 12: "d" / 13: "d" / 14: no_element / 15: true / 16: false / 17: cursor / 18: "b=2" / 19: cursor / 20: "b" / 21: no_element / 22: cursor / 23: "d" / 24: no_element / 25: cursor
type S is ordered_set (string) keyed; / A : S; / A.Insert ("b=2"); / A.Insert ("a=1"); / A.Insert ("d"); / A.Key_Replace ("b", "b=5"); / A.Key_Replace ("b", "d=9"); / A.Key_Replace ("x", "a=9"); / A.Key_Replace ("b", "e=5"); / A.Print; / A.Key_Exclude ("q"); / A.Key_Exclude ("d"); / A.Key_Delete ("d"); / A.Key_Delete ("a=1"); / A.Key_Delete ("a"); / A.Print;
  ==> 0 / 3: ok / 4: ok / 5: ok / 6: ok / 7: raised PROGRAM_ERROR (duplicate) / 8: raised CONSTRAINT_ERROR (key absent) / 9: ok / 10: ["a=1", "d", "e=5"] / 11: ok / 12: ok / 13: raised CONSTRAINT_ERROR (key absent) / 14: raised CONSTRAINT_ERROR (key absent) / 15: ok / 16: ["e=5"]
# calls by key of hashed sets
type S is hashed_set (string) keyed; / A : S; / B : S; / C : S.cursor; / K : string; / A.Insert ("b=2"); / A.Insert ("a=1"); / A.Insert ("=0"); / B.Insert ("b=7"); / C := B.First; / A.Key (C); / C := A.Key_Find ("b"); / K := A.Key (C); / A.Key_Element (K); / A.Key_Element (""); / A.Key_Element ("c"); / A.Key_Contains (K); / A.Key_Contains ("b=2"); / A.Delete ("b"); / A.Key (C); /
  C := A.Key_Find ("b");
  ==> 0 / 6: ok / 7: ok / 8: ok / 9: ok / 10: cursor / 11: raised PROGRAM_ERROR (foreign cursor) / 12: cursor / 13: "b" / 14: "b=2" / 15: "=0" / 16: raised CONSTRAINT_ERROR (key absent) / 17: true / 18: false / 19: ok / 20: raised PROGRAM_ERROR (dead cursor) / 21: no_element
type S is hashed_set (string) keyed; / A : S; / A.Insert ("b=2"); / A.Insert ("a=1"); / A.Insert ("d"); / A.Key_Replace ("b", "b=5"); / A.Key_Replace ("b", "d=9"); / A.Key_Replace ("x", "a=9"); / A.Key_Replace ("b", "e=5"); / A.Print; / A.Key_Exclude ("q"); / A.Key_Exclude ("d"); / A.Key_Delete ("d"); / A.Key_Delete ("a"); / A.Print;
  ==> 0 / 3: ok / 4: ok / 5: ok / 6: ok / 7: raised PROGRAM_ERROR (duplicate) / 8: raised CONSTRAINT_ERROR (key absent) / 9: ok / 10: ["e=5", "a=1", "d"] / 11: ok / 12: ok / 13: raised CONSTRAINT_ERROR (key absent) / 14: ok / 15: ["e=5"]
# calls by key under guards
type S is hashed_set (string) keyed; / A : S; / A.Insert ("a=1"); / for C in A loop / A.Key_Replace ("z", "a=2"); / A.Key_Exclude ("z"); / A.Key_Delete ("z"); / A.Key (C); / A.Key_Element ("a"); / A.Key_Find ("a"); / A.Key_Contains ("z"); / end loop; / A.Key_Delete ("a");
  ==> 0 / 3: ok / 5: raised PROGRAM_ERROR (cursor tampering) / 6: raised PROGRAM_ERROR (cursor tampering) / 7: raised PROGRAM_ERROR (cursor tampering) / 8: "a" / 9: "a=1" / 10: cursor / 11: false / 13: ok
type S is ordered_set (string) keyed; / A : S; / A.Insert ("a=1"); / for C in A loop / A.Key_Replace ("z", "a=2"); / A.Key_Exclude ("z"); / A.Key_Delete ("z"); / A.Key (C); / A.Key_Element ("a"); / A.Key_Find ("a"); / A.Key_Contains ("z"); / A.Key_Floor ("b"); / A.Key_Ceiling ("b"); / end loop; / A.Key_Delete ("a");
  ==> 0 / 3: ok / 5: raised PROGRAM_ERROR (cursor tampering) / 6: raised PROGRAM_ERROR (cursor tampering) / 7: raised PROGRAM_ERROR (cursor tampering) / 8: "a" / 9: "a=1" / 10: cursor / 11: false / 12: cursor / 13: no_element / 15: ok
# sets of texts with keys
type S is hashed_set (string) keyed; / A : S; / B : S; / C : S.cursor; / A.Insert ("b=1"); / A.Insert ("a=1"); / A.Insert ("b=9", C); / A.Element (C); / A.Include ("b=3"); / A.Replace ("a"); / A.Replace ("c=1"); / A.Print; / B.Assign (A); / B.Equal (A); / B.Include ("a=4"); / B.Equal (A); / B.Equivalent_Sets (A); / C := B.Find ("b=77"); / B.Replace_Element (C, "a"); / B.Replace_Element (C, "c=0"); /
  B.Print; / B.Intersection (A); / B.Print; / B.Capacity;
  ==> 0 / 5: ok / 6: ok / 7: false / 8: "b=1" / 9: ok / 10: ok / 11: raised CONSTRAINT_ERROR (key absent) / 12: ["b=3", "a"] / 13: ok / 14: true / 15: ok / 16: false / 17: true / 18: cursor / 19: raised PROGRAM_ERROR (duplicate) / 20: ok / 21: ["c=0", "a=4"] / 22: ok / 23: ["a=4"] / 24: 8
type S is bounded ordered_set (string) keyed; / A : S (2); / C : S.cursor; / A.Insert ("b=1"); / A.Insert ("a=9"); / A.Insert ("a=1"); / A.Insert ("c"); / A.Include ("a=2"); / C := A.Floor ("b=0"); / A.Element (C); / C := A.Ceiling ("a=9"); / A.Element (C); / A.First_Element; / query A at C as X do / A.Key_Contains (X); / A.Delete_First; / end; / for E of reverse A loop / A.Contains (E); /
  A.Include (E); / end loop; / A.Print;
  ==> 0 / 4: ok / 5: ok / 6: raised CONSTRAINT_ERROR (key present) / 7: raised CAPACITY_ERROR (full) / 8: ok / 9: cursor / 10: "b=1" / 11: cursor / 12: "a=2" / 13: "a=2" / 15: false / 16: raised PROGRAM_ERROR (cursor tampering) / 19: true / 20: raised PROGRAM_ERROR (cursor tampering) / 19: true / 20: raised PROGRAM_ERROR (cursor tampering) / 22: ["a=2", "b=1"]
# what keyed sets lack
type S is hashed_set (integer) keyed; ==> 1 / line 1: wrong type
type S is ordered_set (integer) keyed; ==> 1 / line 1: wrong type
type L is list (string) keyed; ==> 1 / line 1: wrong type
type V is vector (string) keyed; ==> 1 / line 1: wrong type
type M is hashed_map (string, string) keyed; ==> 1 / line 1: wrong type
type S is hashed_set (string) keyed; / A : S; / A.Key_Floor ("a"); ==> 1 / line 3: wrong type
type S is ordered_set (string); / A : S; / A.Key_Find ("a"); ==> 1 / line 3: wrong type
type S is ordered_set (string) keyed; / A : S; / A.Key_Find (1); ==> 1 / line 3: wrong type
type S is ordered_set (string) keyed; / A : S; / A.Key ("a"); ==> 1 / line 3: wrong type
type S is ordered_set (string) keyed; / type O is ordered_set (string); / A : S; / B : O; / A.Union (B); ==> 1 / line 5: wrong type
"#;

#[test]
fn sets_with_keys_in_scripts(rt: HostRuntime) -> Result<(), Fail> {
    each_row_is_met(&rt, rt.alloc(), ROWS)
}
