//! Worked rows of maps and sets, blocks over them, scripts that are refused, and long ones.
use crate::outcome::end_of_plain_run;
use crate::rows::{each_row_is_met, lines_of};
use itoa::Buffer;
use std::alloc::Global;
use std::test::Fail;

const ROWS: &str = r#"# worked rows of maps and sets
type M is hashed_map (string, integer); / A : M; / C : M.cursor; / A.Insert ("b", 1); / A.Insert ("a", 2); / A.Insert ("b", 3); / A.Include ("b", 4); / A.Insert ("a", 9, C); / A.Element (C); / A.Replace ("z", 1); / A.Exclude ("z"); / A.Delete ("z"); / A.Print;
  ==> 0 / 4: ok / 5: ok / 6: raised CONSTRAINT_ERROR (key present) / 7: ok / 8: false / 9: 2 / 10: raised CONSTRAINT_ERROR (key absent) / 11: ok / 12: raised CONSTRAINT_ERROR (key absent) / 13: ["b" => 4, "a" => 2]
type S is ordered_set (integer); / A : S; / C : S.cursor; / A.Insert (20); / A.Insert (10); / C := A.Floor (9); / A.Has_Element (C); / C := A.Ceiling (20); / A.Element (C); / C := A.Floor (19); / A.Replace_Element (C, 20); / A.Replace_Element (C, 30); / A.Print; / A.Element (C);
  ==> 0 / 4: ok / 5: ok / 6: no_element / 7: false / 8: cursor / 9: 20 / 10: cursor / 11: raised PROGRAM_ERROR (duplicate) / 12: ok / 13: [20, 30] / 14: 30
type S is hashed_set (integer) keyed; ==> 1 / line 1: wrong type
# a shops stock
-- a shop's stock / type Stock is hashed_map (string, integer); / type Names is ordered_set (string); / S : Stock; / N : Names; / K : string; / T : integer; / C : Stock.cursor; / S.Insert ("tea", 4); / S.Insert ("milk", 12); / S.Insert ("bread", 7); / update S at C as X do / X := X + 1; / end; / for I in S loop / K := S.Key (I); / N.Insert (K); / end loop; / for E of S loop / E := E + 10; /
  end loop; / C := S.Find ("milk"); / query S at C as Q do / T := Q; / S.Replace ("tea", 0); / end; / N.Print; / S.Print;
  ==> 0 / 9: ok / 10: ok / 11: ok / 12: raised CONSTRAINT_ERROR (no element) / 16: "tea" / 17: ok / 16: "milk" / 17: ok / 16: "bread" / 17: ok / 20: 14 / 20: 22 / 20: 17 / 22: cursor / 24: 22 / 25: raised PROGRAM_ERROR (element tampering) / 27: ["bread", "milk", "tea"] / 28: ["tea" => 14, "milk" => 22, "bread" => 17]
# loops over maps
type H is hashed_map (string, integer); / type O is ordered_map (integer, string); / A : H; / B : O; / N : integer; / K : string; / A.Insert ("b", 2); / A.Insert ("a", 1); / for C in A loop / K := A.Key (C); / N := A.Element (C); / B.Insert (N, K); / end loop; / for E of A loop / N := E; / E := N + 10; / end loop; / for C in reverse B loop / B.Replace_Element (C, "z"); / N := B.Key (C); /
  end loop; / for E of reverse B loop / K := E; / E := "y"; / end loop; / A.Print; / B.Print;
  ==> 0 / 7: ok / 8: ok / 10: "b" / 11: 2 / 12: ok / 10: "a" / 11: 1 / 12: ok / 15: 2 / 16: 12 / 15: 1 / 16: 11 / 19: ok / 20: 2 / 19: ok / 20: 1 / 23: "z" / 24: "y" / 23: "z" / 24: "y" / 26: ["b" => 12, "a" => 11] / 27: [1 => "y", 2 => "y"]
# loops over sets
type H is hashed_set (integer); / type O is ordered_set (integer); / A : H; / B : O; / N : integer; / for C in A loop / A.Length; / end loop; / A.Insert (5); / A.Insert (-5); / A.Insert (3); / for C in A loop / N := A.Element (C); / B.Insert (N); / end loop; / for E of B loop / N := E; / A.Contains (E); / end loop; / for C in reverse B loop / B.Element (C); / end loop; / for E of reverse B loop /
  A.Exclude (E); / N := E; / end loop; / A.Is_Empty; / B.Print;
  ==> 0 / 9: ok / 10: ok / 11: ok / 13: 5 / 14: ok / 13: -5 / 14: ok / 13: 3 / 14: ok / 17: -5 / 18: true / 17: 3 / 18: true / 17: 5 / 18: true / 21: 5 / 21: 3 / 21: -5 / 24: ok / 25: 5 / 24: ok / 25: 3 / 24: ok / 25: -5 / 27: true / 28: [-5, 3, 5]
# views of maps
type M is ordered_map (string, integer); / A : M; / C : M.cursor; / N : integer; / query A at C as X do / N := X; / end; / A.Insert ("a", 1); / C := A.Find ("a"); / query A at C as X do / N := X; / A.Replace ("a", 2); / A.Insert ("b", 2); / A.Element (C); / end; / update A at C as X do / X := X + 4; / A.Replace_Element (C, 2); / N := X; / end; / reference X of A at C do / X := 9; / A.Delete (C); /
  A.Element ("a"); / end; / A.Delete (C); / update A at C as X do / X := 1; / end; / A.Print;
  ==> 0 / 5: raised CONSTRAINT_ERROR (no element) / 8: ok / 9: cursor / 11: 1 / 12: raised PROGRAM_ERROR (element tampering) / 13: raised PROGRAM_ERROR (element tampering) / 14: 1 / 17: 5 / 18: raised PROGRAM_ERROR (element tampering) / 19: 5 / 22: 9 / 23: raised PROGRAM_ERROR (element tampering) / 24: 9 / 26: ok / 27: raised CONSTRAINT_ERROR (no element) / 30: []
# maps and sets of blocks
type M is hashed_map (integer, string); / type S is ordered_set (integer); / A : M; / C : M.cursor; / A.Insert (1, "one"); / declare / B : M; / N : S; / D : S.cursor; / begin / B.Assign (A); / B.Insert (2, "two"); / A.Equal (B); / C := B.Find (2); / N.Insert (2); / D := N.First; / N.Element (D); / A.Move (B); / B.Has_Element (C); / end; / A.Has_Element (C); / A.Element (C); / declare / N : S; /
  begin / N.Length; / end; / A.Print;
  ==> 0 / 5: ok / 11: ok / 12: ok / 13: false / 14: cursor / 15: ok / 16: cursor / 17: 2 / 18: ok / 19: false / 21: false / 22: raised PROGRAM_ERROR (foreign cursor) / 26: 0 / 28: [1 => "one", 2 => "two"]
# elements of sets are not written
type S is hashed_set (integer); / A : S; / for E of A loop / E := 1; / end loop; ==> 1 / line 4: wrong type
type S is ordered_set (integer); / A : S; / C : S.cursor; / update A at C as X do / end; ==> 1 / line 4: wrong type
type S is ordered_set (integer); / A : S; / C : S.cursor; / reference X of A at C do / end; ==> 1 / line 4: wrong type
type S is hashed_set (integer); / A : S; / C : S.cursor; / query A at C as X do / X := 1; / end; ==> 1 / line 5: wrong type
type M is hashed_map (integer, string); / A : M; / for E of A loop / E := 1; / end loop; ==> 1 / line 4: wrong type
# what hashed and ordered kinds lack
type M is hashed_map (integer, integer); / A : M; / for C in reverse A loop / end loop; ==> 1 / line 3: wrong type
type S is hashed_set (integer); / A : S; / A.Last; ==> 1 / line 3: wrong type
type M is hashed_map (integer, integer); / A : M; / A.Floor (1); ==> 1 / line 3: wrong type
type M is ordered_map (integer, integer); / A : M; / A.Capacity; ==> 1 / line 3: wrong type
type S is ordered_set (integer); / A : S; / A.Reserve_Capacity (1); ==> 1 / line 3: wrong type
type S is ordered_set (integer); / A : S; / A.First_Key; ==> 1 / line 3: wrong type
type S is ordered_set (integer); / A : S; / C : S.cursor; / A.Key (C); ==> 1 / line 4: wrong type
# types of maps and sets
type M is hashed_map (integer); ==> 1 / line 1: wrong type
type S is ordered_set (integer, integer); ==> 1 / line 1: wrong type
type S is ordered_set (integer) keyed; ==> 1 / line 1: wrong type
type M is ordered_map (string, integer); / A : M; / A.Element (1); ==> 1 / line 3: wrong type
type M is ordered_map (string, integer); / A : M; / A.Insert (1, "a"); ==> 1 / line 3: wrong type
type M is hashed_map (integer, integer); / A : M; / A.Delete (no_element); ==> 1 / line 3: wrong type
type S is hashed_set (integer); / A : S; / C : S.cursor; / X : integer; / X := A.Insert (1, C); ==> 1 / line 5: wrong type
type S is hashed_set (integer); / type R is hashed_set (integer); / A : S; / B : R; / A.Assign (B); ==> 1 / line 5: wrong type
"#;

#[test]
fn maps_and_sets_in_scripts(rt: HostRuntime) -> Result<(), Fail> {
    each_row_is_met(&rt, rt.alloc(), ROWS)
}

const SIXTY_ELEMENTS: &str =
    "type V is vector (integer); / type S is ordered_set (integer); / A : V; / B : S; / C : S.cursor; / N : integer; / A.Append (0, 60); / for I in A loop / N := N + 1; / B.Insert (N); / end loop; / for I in A loop / C := B.Find (N); / B.Contains (N); / C := B.Floor (N); / C := B.Ceiling (N); / N := N - 1; / end loop; / B.Length;";

/// Sixty numbers that rise, and the searches for them as they fall.
fn sixty_lines(alloc: Global) -> Result<Vec<u8>, Fail> {
    let mut lines = b"7: ok\n".to_vec(alloc)?;
    for number in 1..=60u64 {
        lines.extend_from_slice(b"9: ")?;
        lines.extend_from_slice(Buffer::new().format(number).as_bytes())?;
        lines.extend_from_slice(b"\n10: ok\n")?;
    }
    for turn in 0..60u64 {
        lines.extend_from_slice(b"13: cursor\n14: true\n15: cursor\n16: cursor\n17: ")?;
        lines.extend_from_slice(Buffer::new().format(59 - turn).as_bytes())?;
        lines.extend_from_slice(b"\n")?;
    }
    lines.extend_from_slice(b"19: 60\n")?;
    Ok(lines)
}

const FIVE_HUNDRED_KEYS: &str =
    "type V is vector (integer); / type S is ordered_set (integer); / type M is hashed_map (integer, integer); / A : V; / B : S; / D : M; / N : integer; / A.Append (0, 500); / N := 500; / for C in A loop / B.Insert (N); / D.Include (N, N); / N := N - 1; / end loop; / B.Length; / B.First_Element; / B.Last_Element; / D.Element (500);";

/// Five hundred numbers that fall, and what is left of them in a set and in a map.
fn five_hundred_lines(alloc: Global) -> Result<Vec<u8>, Fail> {
    let mut lines = b"8: ok\n9: 500\n".to_vec(alloc)?;
    for turn in 0..500u64 {
        lines.extend_from_slice(b"11: ok\n12: ok\n13: ")?;
        lines.extend_from_slice(Buffer::new().format(499 - turn).as_bytes())?;
        lines.extend_from_slice(b"\n")?;
    }
    lines.extend_from_slice(b"15: 500\n16: 1\n17: 500\n18: 500\n")?;
    Ok(lines)
}

#[test]
fn sixty_elements_are_sought_and_five_hundred_kept(rt: HostRuntime) -> Result<(), Fail> {
    let script = lines_of(rt.alloc(), SIXTY_ELEMENTS)?;
    let sought = end_of_plain_run(&rt, rt.alloc(), "", script.as_bytes())?;
    assert!(rt; sought.is(0, &sixty_lines(rt.alloc())?));
    let script = lines_of(rt.alloc(), FIVE_HUNDRED_KEYS)?;
    let kept = end_of_plain_run(&rt, rt.alloc(), "", script.as_bytes())?;
    assert!(rt; kept.is(0, &five_hundred_lines(rt.alloc())?));
    Ok(())
}
