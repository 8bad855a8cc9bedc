//! Scripts with updates of a key in sets of texts with keys.
use crate::rows::each_row_is_met;
use std::test::Fail;

const ROWS: &str = r#"# updates of a key keep it
type S is ordered_set (string) keyed; / A : S; / C : S.cursor; / T : string; / A.Insert ("b=1"); / A.Insert ("a=1"); / C := A.Key_Find ("b"); / update_key A at C as X do / T := X; / X := "b=2=3"; / T := X; / A.Element (C); / C := no_element; / end; / A.Print; / C := A.Key_Find ("b"); / update_key A at C as X do / end; / update_key A at C as X do / X := "zz"; / X := "b"; / end; / A.Element (C); /
  A.Key_Exclude ("a"); / A.Print;
  ==> 0 / 5: ok / 6: ok / 7: cursor / 9: "b=1" / 10: "b=2=3" / 11: "b=2=3" / 12: "b=1" / 13: no_element / 15: ["a=1", "b=2=3"] / 16: cursor / 20: "zz" / 21: "b" / 23: "b" / 24: ok / 25: ["b"]
type S is hashed_set (string) keyed; / A : S; / T : string; / C : S.cursor; / A.Insert ("=1"); / C := A.First; / update_key A at C as X do / T := X; / X := ""; / end; / A.Element (C); / A.Key (C); / A.Contains ("=9"); ==> 0 / 5: ok / 6: cursor / 8: "=1" / 9: "" / 11: "" / 12: "" / 13: true
# updates of a key in loops
type S is hashed_set (string) keyed; / type L is list (string); / A : S; / V : L; / C : S.cursor; / V.Append ("a=2"); / V.Append ("b=2"); / V.Append ("a=3"); / A.Insert ("a"); / A.Insert ("b"); / for E of V loop / C := A.Find (E); / update_key A at C as X do / X := E; / for D in A loop / A.Element (D); / A.Delete (C); / end loop; / end; / A.Print; / end loop;
  ==> 0 / 6: ok / 7: ok / 8: ok / 9: ok / 10: ok / 12: cursor / 14: "a=2" / 16: "a" / 17: raised PROGRAM_ERROR (cursor tampering) / 16: "b" / 17: raised PROGRAM_ERROR (cursor tampering) / 20: ["a=2", "b"] / 12: cursor / 14: "b=2" / 16: "a=2" / 17: raised PROGRAM_ERROR (cursor tampering) / 16: "b" / 17: raised PROGRAM_ERROR (cursor tampering) / 20: ["a=2", "b=2"] / 12: cursor / 14: "a=3" /
  16: "a=2" / 17: raised PROGRAM_ERROR (cursor tampering) / 16: "b=2" / 17: raised PROGRAM_ERROR (cursor tampering) / 20: ["a=3", "b=2"]
type S is ordered_set (string) keyed; / type O is hashed_set (string) keyed; / A : S; / B : O; / C : S.cursor; / D : O.cursor; / A.Insert ("a=1"); / B.Insert ("b=1"); / C := A.First; / for I in B loop / D := I; / update_key A at C as X do / X := "a=2"; / update_key B at D as Y do / Y := "b=2"; / end; / update_key A at C as Y do / Y := "a=3"; / end; / A.Key_Element ("a"); / end; /
  A.Key_Element ("a"); / end loop; / update_key A at C as X do / update_key B at D as Y do / Y := X; / X := "a=4"; / end; / X := "a=5"; / end; / A.Print; / B.Print;
  ==> 0 / 7: ok / 8: ok / 9: cursor / 11: cursor / 13: "a=2" / 14: raised PROGRAM_ERROR (cursor tampering) / 17: raised PROGRAM_ERROR (cursor tampering) / 20: "a=1" / 22: "a=2" / 26: "a=2" / 27: "a=4" / 25: raised PROGRAM_ERROR (key changed) / 29: "a=5" / 31: ["a=5"] / 32: []
# updates that are refused
type S is hashed_set (string) keyed; / A : S; / B : S; / C : S.cursor; / D : S.cursor; / A.Insert ("a=1"); / B.Insert ("b=1"); / update_key A at C as X do / X := "a=9"; / end; / C := B.First; / update_key A at C as X do / X := "a=9"; / end; / stable A do / update_key A at C as X do / X := "a=9"; / end; / end; / C := A.First; / query A at C as Q do / update_key A at C as X do / X := "a=9"; / end; /
  end; / D := C; / A.Delete (D); / update_key A at C as X do / X := "a=9"; / end; / A.Print;
  ==> 0 / 6: ok / 7: ok / 8: raised CONSTRAINT_ERROR (no element) / 11: cursor / 12: raised PROGRAM_ERROR (foreign cursor) / 16: raised PROGRAM_ERROR (cursor tampering) / 20: cursor / 22: raised PROGRAM_ERROR (cursor tampering) / 26: cursor / 27: ok / 28: raised PROGRAM_ERROR (dead cursor) / 31: []
# updates that change the key
type S is ordered_set (string) keyed; / type L is list (integer); / A : S; / V : L; / C : S.cursor; / D : S.cursor; / A.Insert ("a=1"); / A.Insert ("b=1"); / V.Append (1, 2); / for I in V loop / C := A.First; / D := C; / update_key A at C as X do / C := A.Last; / X := "c=9"; / X := "b"; / end; / A.Has_Element (D); / A.Print; / end loop; / A.Insert ("a=7"); / A.Clear;
  ==> 0 / 7: ok / 8: ok / 9: ok / 11: cursor / 12: cursor / 14: cursor / 15: "c=9" / 16: "b" / 13: raised PROGRAM_ERROR (key changed) / 18: false / 19: ["b=1"] / 11: cursor / 12: cursor / 14: cursor / 15: "c=9" / 16: "b" / 18: true / 19: ["b"] / 21: ok / 22: ok
type S is hashed_set (string) keyed; / A : S; / B : S; / C : S.cursor; / A.Insert ("a=1"); / A.Insert ("b=1"); / B.Insert ("q"); / for D in B loop / C := A.First; / update_key A at C as X do / declare / Y : string; / begin / Y := X; / X := "b=1"; / end; / end; / A.Element (C); / A.Insert ("a=2"); / A.Print; / end loop;
  ==> 0 / 5: ok / 6: ok / 7: ok / 9: cursor / 14: "a=1" / 15: "b=1" / 10: raised PROGRAM_ERROR (key changed) / 18: raised PROGRAM_ERROR (dead cursor) / 19: ok / 20: ["b=1", "a=2"]
# where updates of a key stand
type S is ordered_set (string); / A : S; / C : S.cursor; / update_key A at C as X do / end; ==> 1 / line 4: wrong type
type M is hashed_map (string, string); / A : M; / C : M.cursor; / update_key A at C as X do / end; ==> 1 / line 4: wrong type
type S is ordered_set (string) keyed; / A : S; / C : S.cursor; / update A at C as X do / end; ==> 1 / line 4: wrong type
type S is ordered_set (string) keyed; / A : S; / C : S.cursor; / update_key A at C as X do / X := 1; / end; ==> 1 / line 5: wrong type
type S is ordered_set (string) keyed; / A : S; / for E of A loop / E := "a"; / end loop; ==> 1 / line 4: wrong type
type S is ordered_set (string) keyed; / A : S; / C : S.cursor; / update_key A at C as A do / end; ==> 1 / line 4: twice
type S is ordered_set (string) keyed; / A : S; / C : S.cursor; / update_key A at C as X do / end; / X := "a"; ==> 1 / line 6: unknown name
type S is ordered_set (string) keyed; / A : S; / update_key A as X do / end; ==> 1 / line 3: syntax
"#;

#[test]
fn updates_of_keys_in_scripts(rt: HostRuntime) -> Result<(), Fail> {
    each_row_is_met(&rt, rt.alloc(), ROWS)
}
