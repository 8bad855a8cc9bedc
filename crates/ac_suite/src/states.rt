//! Saved states: what is written behind a run, and what a run begins on.
//! A table is as in `rows`. Before `==> ` stands an input: a script, or a state, the line `--script` and a script.
use crate::outcome::end_of_plain_run;
use crate::refusals::repeated;
use crate::rows::{is_row, lines_of, parts, with_whole_rows};
use std::alloc::Global;
use std::process::Abort;
use std::sync::Wait;
use std::test::Fail;
use std::thread::Threads;

/// Whether a row holds with these words, and these lines behind those of its input.
fn is_met<R: Threads + Wait + Sync>(
    rt: &R,
    alloc: Global,
    words: &str,
    row: &str,
    later: &str,
) -> Result<bool, Fail> {
    let (input, status, lines) = parts(row);
    let mut input = lines_of(alloc, input)?;
    input.push_str(later)?;
    let wanted = lines_of(alloc, lines)?;
    let ended = end_of_plain_run(rt, alloc, words, input.as_bytes())?;
    Ok(status.parse::<u8>() == Ok(ended.status) && ended.text.as_slice() == wanted.as_bytes())
}

fn each_row_is_met<R: Threads + Wait + Abort + Sync>(
    rt: &R,
    alloc: Global,
    words: &str,
    table: &str,
    later: &str,
) -> Result<(), Fail> {
    let rows = with_whole_rows(alloc, table)?;
    for row in rows.split('\n') {
        assert!(rt;
            !is_row(row) || is_met(rt, alloc, words, row, later)?,
            "{row}"
        );
    }
    Ok(())
}

const SAVED: &str = r#"# worked rows
type L is bounded list (integer); / A : L (3); / N : integer; / A.Append (4, 2); / N := 7; ==> 0 / 4: ok / 5: 7 / --state / object a bounded list (integer) limit 3 [4, 4] / integer n 7
type T is vector (integer); / V : T; / V.Append (1); ==> 0 / 3: ok / --state / object v vector (integer) capacity 8 [1]
# no entry stands for a type, a cursor or an inner name
==> 0 / --state
type L is list (integer); / C : L.cursor; / N : integer; / declare / M : integer; / begin / M := 4; / N := M; / end; ==> 0 / 7: 4 / 8: 4 / --state / integer n 4
# entries stand in the order of declarations, with the values at the end
N : integer; / S : string; / M : integer; / N := -9223372036854775808; / S := "a""b"; ==> 0 / 4: -9223372036854775808 / 5: "a""b" / --state / integer n -9223372036854775808 / string s "a""b" / integer m 0
type V is vector (integer); / type Q is queue (integer); / B : Q; / A : V; / A.Append (1, 9); / A.Clear; / B.Enqueue (1); / B.Enqueue (2); / B.Dequeue; / B.Dequeue; ==> 0 / 5: ok / 6: ok / 7: ok / 8: ok / 9: 1 / 10: 2 / --state / object b queue (integer) peak 2 [] / object a vector (integer) capacity 16 []
# behind an exception that ends the script, and behind a block of tasks
pragma Propagate; / type L is list (integer); / A : L; / A.Append (1); / A.Delete_First; / A.First_Element; / A.Append (2); ==> 0 / 4: ok / 5: ok / 6: raised CONSTRAINT_ERROR (empty) / --state / object a list (integer) []
type Q is queue (integer); / A : Q; / tasks / task T is / begin / A.Enqueue (1); / A.Dequeue; / A.Dequeue; / end; / end tasks; ==> 0 / 6: t: ok / 7: t: 1 / 8: t: stalled / --state / object a queue (integer) peak 1 []
# a refused script leaves none
A.Append (1); ==> 1 / line 1: unknown name
N : integer; / N := 1 ==> 1 / line 2: syntax
"#;

const KINDS: &str =
    r#"# each kind, without a limit and with one: its rows, its Capacity, its greatest use
object a vector (integer) capacity 16 [3, 1] / --script / type V is vector (integer); / A : V; / A.Capacity; / A.Append (2); / A.Print; ==> 0 / 3: 16 / 4: ok / 5: [3, 1, 2] / --state / object a vector (integer) capacity 16 [3, 1, 2]
object a bounded vector (string) limit 3 ["x", "a""b"] / --script / type V is bounded vector (string); / A : V (3); / A.Append ("y", 2); / A.Append (""); ==> 0 / 3: raised CAPACITY_ERROR (full) / 4: ok / --state / object a bounded vector (string) limit 3 ["x", "a""b", ""]
object a list (string) ["b", "a"] / --script / type L is list (string); / A : L; / C : L.cursor; / C := A.First; / A.Element (C); / A.Sort; / A.Append ("c"); ==> 0 / 4: cursor / 5: "b" / 6: ok / 7: ok / --state / object a list (string) ["a", "b", "c"]
object a bounded list (integer) limit 3 [4, 4] / --script / type L is bounded list (integer); / A : L (3); / A.Append (1, 2); / A.Append (1); / A.Print; ==> 0 / 3: raised CAPACITY_ERROR (full) / 4: ok / 5: [4, 4, 1] / --state / object a bounded list (integer) limit 3 [4, 4, 1]
object a hashed_map (string, integer) capacity 8 ["b" => 1, "a" => -2] / --script / type M is hashed_map (string, integer); / A : M; / A.Insert ("a", 3); / A.Insert ("c", 3); / A.Element ("a"); / A.Capacity; ==> 0 / 3: raised CONSTRAINT_ERROR (key present) / 4: ok / 5: -2 / 6: 8 / --state / object a hashed_map (string, integer) capacity 8 ["b" => 1, "a" => -2, "c" => 3]
object a bounded hashed_map (integer, integer) limit 2 [7 => 1, 5 => 2] / --script / type M is bounded hashed_map (integer, integer); / A : M (2); / A.Include (6, 3); / A.Include (7, 4); ==> 0 / 3: raised CAPACITY_ERROR (full) / 4: ok / --state / object a bounded hashed_map (integer, integer) limit 2 [7 => 4, 5 => 2]
object a ordered_map (integer, string) [-1 => "x", 4 => ""] / --script / type M is ordered_map (integer, string); / A : M; / A.Insert (0, "y"); / A.First_Key; ==> 0 / 3: ok / 4: -1 / --state / object a ordered_map (integer, string) [-1 => "x", 0 => "y", 4 => ""]
object a bounded ordered_map (string, string) limit 2 ["a" => "1", "aa" => "2"] / --script / type M is bounded ordered_map (string, string); / A : M (2); / A.Insert ("b", "3"); / A.Last_Key; / A.Replace ("a", "a=1"); ==> 0 / 3: raised CAPACITY_ERROR (full) / 4: "aa" / 5: ok / --state / object a bounded ordered_map (string, string) limit 2 ["a" => "a=1", "aa" => "2"]
object a hashed_set (integer) capacity 32 [9, -9] / --script / type S is hashed_set (integer); / A : S; / A.Insert (9); / A.Insert (0); / A.Capacity; ==> 0 / 3: raised CONSTRAINT_ERROR (key present) / 4: ok / 5: 32 / --state / object a hashed_set (integer) capacity 32 [9, -9, 0]
object a bounded hashed_set (string) limit 1 ["z"] / --script / type S is bounded hashed_set (string); / A : S (1); / A.Insert ("y"); / A.Contains ("z"); ==> 0 / 3: raised CAPACITY_ERROR (full) / 4: true / --state / object a bounded hashed_set (string) limit 1 ["z"]
object a hashed_set (string) keyed capacity 8 ["b=1", "a"] / --script / type S is hashed_set (string) keyed; / A : S; / A.Key_Element ("b"); / A.Insert ("b=2"); / A.Insert ("c=1"); ==> 0 / 3: "b=1" / 4: raised CONSTRAINT_ERROR (key present) / 5: ok / --state / object a hashed_set (string) keyed capacity 8 ["b=1", "a", "c=1"]
object a ordered_set (string) ["a", "b"] / --script / type S is ordered_set (string); / A : S; / A.Insert ("aa"); / A.Last_Element; ==> 0 / 3: ok / 4: "b" / --state / object a ordered_set (string) ["a", "aa", "b"]
object a bounded ordered_set (integer) limit 3 [-5, 5] / --script / type S is bounded ordered_set (integer); / A : S (3); / A.Insert (0); / A.Insert (1); ==> 0 / 3: ok / 4: raised CAPACITY_ERROR (full) / --state / object a bounded ordered_set (integer) limit 3 [-5, 0, 5]
object a bounded ordered_set (string) keyed limit 2 ["a=2", "b=1"] / --script / type S is bounded ordered_set (string) keyed; / A : S (2); / A.Key_Contains ("a"); / A.Include ("a=9"); / A.Include ("c"); ==> 0 / 3: true / 4: ok / 5: raised CAPACITY_ERROR (full) / --state / object a bounded ordered_set (string) keyed limit 2 ["a=9", "b=1"]
object a tree (integer) [1 [2 [3]], 4] / --script / type T is tree (integer); / A : T; / C : T.cursor; / C := A.Find (2); / A.Append_Child (C, 5); / A.Node_Count; / A.Depth (C); ==> 0 / 4: cursor / 5: ok / 6: 6 / 7: 3 / --state / object a tree (integer) [1 [2 [3, 5]], 4]
object a bounded tree (string) limit 3 ["r" ["s"]] / --script / type T is bounded tree (string); / A : T (3); / C : T.cursor; / C := A.Root; / A.Append_Child (C, "t", 2); / A.Append_Child (C, "t"); ==> 0 / 4: cursor / 5: raised CAPACITY_ERROR (full) / 6: ok / --state / object a bounded tree (string) limit 3 ["r" ["s"], "t"]
object a holder (integer) [7] / --script / type H is holder (integer); / A : H; / A.Element; / A.Clear; ==> 0 / 3: 7 / 4: ok / --state / object a holder (integer) []
object a bounded holder (string) limit 4 ["abcd"] / --script / type H is bounded holder (string); / A : H (4); / A.Replace_Element ("abcde"); / A.Element; / A.Replace_Element (""); ==> 0 / 3: raised PROGRAM_ERROR (element too large) / 4: "abcd" / 5: ok / --state / object a bounded holder (string) limit 4 [""]
object a queue (integer) peak 5 [2, 1] / --script / type Q is queue (integer); / A : Q; / A.Peak_Use; / A.Enqueue (3); / A.Dequeue; ==> 0 / 3: 5 / 4: ok / 5: 2 / --state / object a queue (integer) peak 5 [1, 3]
object a bounded queue (integer) limit 2 peak 2 [4, 5] / --script / type Q is bounded queue (integer); / A : Q (2); / A.Enqueue (1); / A.Dequeue; ==> 0 / 3: stalled / 4: 4 / --state / object a bounded queue (integer) limit 2 peak 2 [5]
object a priority_queue (integer) peak 3 [210, 299, 150] / --script / type Q is priority_queue (integer); / A : Q; / A.Dequeue; / A.Enqueue (250); / A.Peak_Use; ==> 0 / 3: 210 / 4: ok / 5: 3 / --state / object a priority_queue (integer) peak 3 [299, 250, 150]
object a bounded priority_queue (integer) limit 4 peak 1 [500] / --script / type Q is bounded priority_queue (integer); / A : Q (4); / A.Enqueue (600); / A.Peak_Use; ==> 0 / 3: ok / 4: 2 / --state / object a bounded priority_queue (integer) limit 4 peak 2 [600, 500]
integer n -5 / string s "a""b" / --script / N : integer; / S : string; / N := N + 1; / S := S; ==> 0 / 3: -4 / 4: "a""b" / --state / integer n -4 / string s "a""b"
# empty objects
object a vector (integer) capacity 0 [] / object b tree (string) [] / object d bounded holder (integer) limit 0 [] / object e queue (integer) peak 0 [] / --script / type V is vector (integer); / type T is tree (string); / type H is bounded holder (integer); / type Q is queue (integer); / A : V; / B : T; / D : H (0); / E : Q; / D.Replace_Element (1);
  ==> 0 / 9: raised PROGRAM_ERROR (element too large) / --state / object a vector (integer) capacity 0 [] / object b tree (string) [] / object d bounded holder (integer) limit 0 [] / object e queue (integer) peak 0 []
# entries in another order, names that no entry has, other names of types
string s "x" / integer n 4 / --script / M : integer; / N : integer; / S : string; / M := M + 1; / N := N + 1; ==> 0 / 4: 1 / 5: 5 / --state / integer m 1 / integer n 5 / string s "x"
--script / N : integer; / N := N + 1; ==> 0 / 2: 1 / --state / integer n 1
object a list (integer) [1, 2] / object b list (integer) [3] / --script / type X is list (integer); / type Y is list (integer); / A : X; / B : Y; / C : X.cursor; / C := A.Last; / A.Delete (C); / for E of B loop / E := 9; / B.Clear; / end loop; ==> 0 / 6: cursor / 7: ok / 9: 9 / 10: raised PROGRAM_ERROR (cursor tampering) / --state / object a list (integer) [1] / object b list (integer) [9]
object a queue (integer) peak 2 [8] / --script / type Q is queue (integer); / A : Q; / tasks / task T is / X : integer; / begin / X := A.Dequeue; / end; / end tasks; / A.Peak_Use; ==> 0 / 7: t: 8 / 10: 2 / --state / object a queue (integer) peak 2 []
"#;

const SPLIT: &str = r#"# worked rows
object a bounded list (integer) limit 3 [4, 4] / --script / type L is bounded list (integer); / A : L (3); / A.Append (1, 2); / A.Append (1); / A.Print; ==> 0 / 3: raised CAPACITY_ERROR (full) / 4: ok / 5: [4, 4, 1]
object a bounded list (integer) limit 3 [4,4] / --script / type L is bounded list (integer); / A : L (3); / A.Append (1, 2); / A.Append (1); / A.Print; ==> 1 / state line 1: refused
object a ordered_set (integer) [4, 3] / --script ==> 1 / state line 1: refused
# the script begins behind the first line that is just `--script`
string s "--script" / --script / S : string; / S := S; ==> 0 / 2: "--script"
string s "x" / --script / S : string; / S := "--script"; / S := S; ==> 0 / 2: "--script" / 3: "--script"
--script / --script / N : integer; / N := 1; ==> 0 / 3: 1
integer n 5 / --script / N : integer; / --script / N := N; ==> 0 / 3: 5
--script ==> 0
integer n 5 / N : integer; ==> 1 / input: no script
integer n 5 /  --script / N : integer; ==> 1 / input: no script
integer n 5 / --script  / N : integer; ==> 1 / input: no script
integer n 5 / --Script / N : integer; ==> 1 / input: no script
integer n 5 / --scripts / N : integer; ==> 1 / input: no script
integer n 5 / ---script / N : integer; ==> 1 / input: no script
string s "--script" / N : integer; ==> 1 / input: no script
integer n 5 / --state / --script / N : integer; ==> 1 / state line 2: refused
# an entry has the name, the sort, the type and the limit of an outermost variable or object
integer n 5 / --script / M : integer; ==> 1 / state line 1: mismatch
integer m 5 / integer n 5 / --script / M : integer; ==> 1 / state line 2: mismatch
integer n 5 / --script / N : string; ==> 1 / state line 1: mismatch
string n "" / --script / N : integer; ==> 1 / state line 1: mismatch
integer n 5 / --script / type N is list (integer); ==> 1 / state line 1: mismatch
integer c 5 / --script / type L is list (integer); / C : L.cursor; ==> 1 / state line 1: mismatch
integer a 5 / --script / type L is list (integer); / A : L; ==> 1 / state line 1: mismatch
object n list (integer) [] / --script / N : integer; ==> 1 / state line 1: mismatch
integer n 5 / --script / M : integer; / declare / N : integer; / begin / M := 1; / end; ==> 1 / state line 1: mismatch
object a list (integer) [] / --script / type L is vector (integer); / A : L; ==> 1 / state line 1: mismatch
object a list (integer) [] / --script / type L is list (string); / A : L; ==> 1 / state line 1: mismatch
object a list (integer) [] / --script / type L is bounded list (integer); / A : L (3); ==> 1 / state line 1: mismatch
object a bounded list (integer) limit 3 [] / --script / type L is list (integer); / A : L; ==> 1 / state line 1: mismatch
object a bounded list (integer) limit 3 [] / --script / type L is bounded list (integer); / A : L (4); ==> 1 / state line 1: mismatch
object a ordered_set (string) [] / --script / type S is ordered_set (string) keyed; / A : S; ==> 1 / state line 1: mismatch
object a ordered_map (string, integer) [] / --script / type M is ordered_map (integer, string); / A : M; ==> 1 / state line 1: mismatch
object b bounded list (integer) limit 3 [4, 4] / --script / type L is bounded list (integer); / A : L (3); / A.Append (1, 2); / A.Append (1); / A.Print; ==> 1 / state line 1: mismatch
"#;

/// A script that declares nothing: no state matches it that has an entry.
const NOTHING: &str = "--script\n";

const KEPT: &str = r#"# names
integer n 0 ==> 1 / state line 1: mismatch
integer a_1_ 0 ==> 1 / state line 1: mismatch
integer aaaaaaaaaaaaaaaaaaaaaaaaaaaaaaaaaaaaaaaaaaaaaaaaaaaaaaaaaaaaaaaa 0 ==> 1 / state line 1: mismatch
integer when 0 ==> 1 / state line 1: mismatch
integer n 0 / integer m 0 ==> 1 / state line 1: mismatch
# values
integer n 9223372036854775807 ==> 1 / state line 1: mismatch
integer n -9223372036854775808 ==> 1 / state line 1: mismatch
string s "" ==> 1 / state line 1: mismatch
string s " ~" ==> 1 / state line 1: mismatch
# types and limits
object a ordered_map (integer, string) [] ==> 1 / state line 1: mismatch
object a ordered_set (string) keyed [] ==> 1 / state line 1: mismatch
object a queue (integer) peak 0 [] ==> 1 / state line 1: mismatch
object a bounded list (integer) limit 1000000 [] ==> 1 / state line 1: mismatch
object a bounded vector (integer) limit 0 [] ==> 1 / state line 1: mismatch
object a bounded list (integer) limit 999992 [] / integer n 0 / object b bounded holder (integer) limit 8 [] ==> 1 / state line 1: mismatch
# Capacities and peaks
object a vector (integer) capacity 0 [] ==> 1 / state line 1: mismatch
object a vector (integer) capacity 8 [1] ==> 1 / state line 1: mismatch
object a vector (integer) capacity 16 [1, 1, 1, 1, 1, 1, 1, 1, 1] ==> 1 / state line 1: mismatch
object a vector (integer) capacity 1048576 [] ==> 1 / state line 1: mismatch
object a hashed_set (integer) capacity 32 [] ==> 1 / state line 1: mismatch
object a queue (integer) peak 1 [1] ==> 1 / state line 1: mismatch
object a queue (integer) peak 1000000 [] ==> 1 / state line 1: mismatch
object a bounded priority_queue (integer) limit 3 peak 3 [1] ==> 1 / state line 1: mismatch
# rows
object a list (integer) [1] ==> 1 / state line 1: mismatch
object a ordered_map (integer, string) [1 => ""] ==> 1 / state line 1: mismatch
object a bounded list (integer) limit 2 [1, 1] ==> 1 / state line 1: mismatch
object a bounded holder (integer) limit 8 [1] ==> 1 / state line 1: mismatch
object a bounded holder (string) limit 4 ["abcd"] ==> 1 / state line 1: mismatch
object a bounded holder (string) limit 0 [""] ==> 1 / state line 1: mismatch
object a holder (string) ["abcd"] ==> 1 / state line 1: mismatch
object a hashed_map (integer, integer) capacity 8 [2 => 1, 1 => 1] ==> 1 / state line 1: mismatch
object a hashed_set (string) capacity 8 ["b=1", "b=2"] ==> 1 / state line 1: mismatch
object a hashed_set (string) keyed capacity 8 ["b=1", "a=1"] ==> 1 / state line 1: mismatch
object a ordered_map (integer, integer) [-1 => 2, 1 => 1] ==> 1 / state line 1: mismatch
object a ordered_set (string) ["a", "aa"] ==> 1 / state line 1: mismatch
object a ordered_set (string) keyed ["a=2", "b=1"] ==> 1 / state line 1: mismatch
object a tree (integer) [1, 1 [1 [1], 1]] ==> 1 / state line 1: mismatch
object a priority_queue (integer) peak 3 [210, 299, 150] ==> 1 / state line 1: mismatch
object a queue (integer) peak 2 [100, 200] ==> 1 / state line 1: mismatch
"#;

const BROKEN: &str = r#"# a name is an identifier in lower case of at most 64 bytes
integer  0 ==> 1 / state line 1: refused
integer N 0 ==> 1 / state line 1: refused
integer nN 0 ==> 1 / state line 1: refused
integer 1n 0 ==> 1 / state line 1: refused
integer _n 0 ==> 1 / state line 1: refused
integer n-1 0 ==> 1 / state line 1: refused
integer n  0 ==> 1 / state line 1: refused
integer aaaaaaaaaaaaaaaaaaaaaaaaaaaaaaaaaaaaaaaaaaaaaaaaaaaaaaaaaaaaaaaaa 0 ==> 1 / state line 1: refused
integer list 0 ==> 1 / state line 1: refused
integer no_element 0 ==> 1 / state line 1: refused
# and no other entry has it
integer n 0 / integer m 0 / string n "" ==> 1 / state line 3: refused
# integers and strings
integer n 9223372036854775808 ==> 1 / state line 1: refused
integer n -9223372036854775809 ==> 1 / state line 1: refused
integer n 007 ==> 1 / state line 1: refused
integer n -0 ==> 1 / state line 1: refused
integer n +5 ==> 1 / state line 1: refused
integer n - 5 ==> 1 / state line 1: refused
integer n "5" ==> 1 / state line 1: refused
integer n ==> 1 / state line 1: refused
string s 5 ==> 1 / state line 1: refused
string s "a"b" ==> 1 / state line 1: refused
string s "a ==> 1 / state line 1: refused
# types
object a ordered_map (integer) [] ==> 1 / state line 1: refused
object a list (integer, string) [] ==> 1 / state line 1: refused
object a list (string) keyed [] ==> 1 / state line 1: refused
object a ordered_set (integer) keyed [] ==> 1 / state line 1: refused
object a queue (string) peak 0 [] ==> 1 / state line 1: refused
object a set (integer) [] ==> 1 / state line 1: refused
object a list (l) [] ==> 1 / state line 1: refused
# a limit stands where the type is bounded
object a bounded list (integer) limit 1000001 [] ==> 1 / state line 1: refused
object a list (integer) limit 1 [] ==> 1 / state line 1: refused
object a bounded list (integer) [] ==> 1 / state line 1: refused
object a bounded list (integer) limit 03 [] ==> 1 / state line 1: refused
# all limits together are a million at most
object a bounded list (integer) limit 999992 [] / integer n 0 / object b bounded holder (integer) limit 9 [] ==> 1 / state line 3: refused
object a bounded list (integer) limit 1000000 [] / integer n 0 / object b bounded holder (integer) limit 1 [] ==> 1 / state line 3: refused
# a Capacity stands where a vector or a hashed container isn't bounded; it is 0 or 8 * 2 ^ k
object a vector (integer) [] ==> 1 / state line 1: refused
object a hashed_map (integer, integer) [] ==> 1 / state line 1: refused
object a vector (integer) capacity 4 [] ==> 1 / state line 1: refused
object a vector (integer) capacity 24 [] ==> 1 / state line 1: refused
object a vector (integer) capacity 0 [1] ==> 1 / state line 1: refused
object a vector (integer) capacity 8 [1, 1, 1, 1, 1, 1, 1, 1, 1] ==> 1 / state line 1: refused
object a vector (integer) capacity 2097152 [] ==> 1 / state line 1: refused
object a list (integer) capacity 8 [] ==> 1 / state line 1: refused
object a ordered_set (integer) capacity 8 [] ==> 1 / state line 1: refused
object a bounded vector (integer) limit 8 capacity 8 [] ==> 1 / state line 1: refused
# a peak stands in queues, between their length and their limit
object a queue (integer) peak 0 [1] ==> 1 / state line 1: refused
object a queue (integer) peak 1000001 [] ==> 1 / state line 1: refused
object a bounded priority_queue (integer) limit 3 peak 4 [1] ==> 1 / state line 1: refused
object a queue (integer) [] ==> 1 / state line 1: refused
object a list (integer) peak 0 [] ==> 1 / state line 1: refused
object a bounded queue (integer) peak 3 limit 3 [1] ==> 1 / state line 1: refused
# a key stands in maps, nested rows in trees, and values are of their types
object a list (integer) [1 => 1] ==> 1 / state line 1: refused
object a list (integer) [1 [2]] ==> 1 / state line 1: refused
object a list (integer) ["x"] ==> 1 / state line 1: refused
object a list (integer) [9223372036854775808] ==> 1 / state line 1: refused
object a ordered_map (integer, string) [""] ==> 1 / state line 1: refused
object a ordered_map (integer, string) ["" => ""] ==> 1 / state line 1: refused
object a ordered_map (integer, string) [1 => 1] ==> 1 / state line 1: refused
# no more rows than the limit, and one in a holder, of at most that size
object a bounded list (integer) limit 1 [1, 1] ==> 1 / state line 1: refused
object a bounded holder (integer) limit 7 [1] ==> 1 / state line 1: refused
object a bounded holder (string) limit 4 ["abcde"] ==> 1 / state line 1: refused
object a holder (integer) [1, 2] ==> 1 / state line 1: refused
# no two keys are equivalent: of a keyed set those before `=`
object a hashed_map (integer, integer) capacity 8 [2 => 1, 1 => 1, 2 => 3] ==> 1 / state line 1: refused
object a hashed_set (string) capacity 8 ["b", "b"] ==> 1 / state line 1: refused
object a hashed_set (string) keyed capacity 8 ["b=1", "b=2"] ==> 1 / state line 1: refused
object a hashed_set (string) keyed capacity 8 ["b", "b="] ==> 1 / state line 1: refused
# ordered rows ascend
object a ordered_set (integer) [4, 3] ==> 1 / state line 1: refused
object a ordered_map (integer, integer) [1 => 1, -1 => 2] ==> 1 / state line 1: refused
object a ordered_map (integer, integer) [1 => 1, 1 => 2] ==> 1 / state line 1: refused
object a ordered_set (string) ["b", "a"] ==> 1 / state line 1: refused
object a ordered_set (string) keyed ["a=1", "a=2"] ==> 1 / state line 1: refused
# a tree's rows are an outline
object a tree (integer) [[1]] ==> 1 / state line 1: refused
object a tree (integer) [1 [[2]]] ==> 1 / state line 1: refused
object a tree (integer) [1 []] ==> 1 / state line 1: refused
object a tree (integer) [1 [2] ==> 1 / state line 1: refused
object a tree (integer) [1]] ==> 1 / state line 1: refused
object a tree (integer) [1, [2]] ==> 1 / state line 1: refused
object a tree (integer) [1 [2] 3] ==> 1 / state line 1: refused
# no item of a priority queue is of a higher priority than the one before it
object a priority_queue (integer) peak 2 [199, 200] ==> 1 / state line 1: refused
# one spelling alone
object a bounded list (integer) limit 3 [4,4] ==> 1 / state line 1: refused
object a list (integer) [ 4] ==> 1 / state line 1: refused
object a list (integer) [4, ] ==> 1 / state line 1: refused
object a list(integer) [4] ==> 1 / state line 1: refused
object a list ( integer ) [4] ==> 1 / state line 1: refused
object a ordered_map (integer,integer) [4 => 4] ==> 1 / state line 1: refused
object a ordered_map (integer, integer) [4=>4] ==> 1 / state line 1: refused
object a list (integer)[4] ==> 1 / state line 1: refused
object a list (integer) [4]; ==> 1 / state line 1: refused
object a List (integer) [4] ==> 1 / state line 1: refused
Object a list (integer) [4] ==> 1 / state line 1: refused
a list (integer) [4] ==> 1 / state line 1: refused
 integer n 5 ==> 1 / state line 1: refused
integer n 5  / integer m 5 ==> 1 / state line 1: refused
integer n 5 -- five ==> 1 / state line 1: refused
# the first line that isn't one of a state
integer n 5 / integer m 06 / integer m 7 ==> 1 / state line 2: refused
integer n 5 /  / integer m 6 ==> 1 / state line 2: refused
integer n 5 / -- six / integer m 6 ==> 1 / state line 2: refused
"#;

#[test]
fn states_are_saved_and_resumed(rt: HostRuntime) -> Result<(), Fail> {
    each_row_is_met(&rt, rt.alloc(), "--save", SAVED, "")?;
    each_row_is_met(&rt, rt.alloc(), "--resume --save", KINDS, "")?;
    each_row_is_met(&rt, rt.alloc(), "--resume", SPLIT, "")
}

#[test]
fn states_are_valid_or_refused(rt: HostRuntime) -> Result<(), Fail> {
    each_row_is_met(&rt, rt.alloc(), "--resume", KEPT, NOTHING)?;
    each_row_is_met(&rt, rt.alloc(), "--resume", BROKEN, NOTHING)
}

const ASKED_ORDER: &str = r#"# with a question that is refused: each refusal over each later one
integer n 05 / N := M; ==> 1 / input: no script
integer n 5 / N : integer; ==> 1 / input: no script
integer n 05 / --script / N := M; ==> 1 / state line 1: refused
integer n 05 / --script / N : integer; ==> 1 / state line 1: refused
integer m 5 / integer n 05 / --script / N : integer; ==> 1 / state line 2: refused
integer n 5 / --script / N := M; ==> 1 / line 1: unknown name
integer m 5 / --script / N : integer; / N : string; ==> 1 / line 2: twice
integer m 5 / --script / N : integer; / N := 1; ==> 1 / ask: syntax
integer n 5 / --script / N : integer; / N := 1; ==> 1 / ask: syntax
"#;

const ORDER: &str = r#"# without one
integer n 05 ==> 1 / input: no script
integer n 05 / --script / N := M; ==> 1 / state line 1: refused
integer m 5 / integer n 05 / --script / N : integer; ==> 1 / state line 2: refused
integer m 5 / --script / N : integer; / N := 1 ==> 1 / line 2: syntax
integer n 5 / integer m 5 / --script / N : integer; / N := 1; ==> 1 / state line 2: mismatch
integer n 5 / --script / N : integer; / N := N; ==> 0 / 2: 5
"#;

#[test]
fn the_first_refusal_is_told(rt: HostRuntime) -> Result<(), Fail> {
    let asked = "--resume --audit --save --ask=N";
    each_row_is_met(&rt, rt.alloc(), asked, ASKED_ORDER, "")?;
    each_row_is_met(&rt, rt.alloc(), "--resume", ORDER, "")
}

const SCRIPT: &str =
    "type V is vector (integer); / A : V; / N : integer; / A.Append (4); / N := N + 7;";

const STATE_AND_SCRIPT: &str =
    "object a vector (integer) capacity 8 [1, 2] / integer n 5 / --script / type V is vector (integer); / A : V; / N : integer; / A.Append (4); / N := N + 7;";

const OVER_SCRIPT: &str = r#"# without a state: what is added stands in one order
==> 0 / 4: ok / 5: 7
--audit ==> 0 / 4: ok / 5: 7 / nodes 1
--ask=A'Reduce("+",0) ==> 0 / 4: ok / 5: 7 / ask: 4
--save ==> 0 / 4: ok / 5: 7 / --state / object a vector (integer) capacity 8 [4] / integer n 7
--ask=A'Reduce("+",0) --audit ==> 0 / 4: ok / 5: 7 / nodes 1 / ask: 4
--save --audit ==> 0 / 4: ok / 5: 7 / nodes 1 / --state / object a vector (integer) capacity 8 [4] / integer n 7
--save --ask=A'Reduce("+",0) ==> 0 / 4: ok / 5: 7 / ask: 4 / --state / object a vector (integer) capacity 8 [4] / integer n 7
--save --ask=A'Reduce("+",0) --audit ==> 0 / 4: ok / 5: 7 / nodes 1 / ask: 4 / --state / object a vector (integer) capacity 8 [4] / integer n 7
# with --check and --generate nothing is added
--check --save --audit --resume --ask=A'Reduce("+",0) ==> 0 / type v is vector (integer); / a : v; / n : integer; / a.append (4); / n := n + 7;
--resume --check ==> 0 / type v is vector (integer); / a : v; / n : integer; / a.append (4); / n := n + 7;
--save --generate 1 --resume --ask=A --audit ==> 0 / lines 9 / 15: 1 / 16: 1 / 17: 1 / 18: 1
# a script alone isn't resumed
--resume ==> 1 / input: no script
--resume --save --audit --ask=A ==> 1 / input: no script
# words that are refused
--save --save ==> 2
--resume --resume ==> 2
--resume=1 ==> 2
--save=yes ==> 2
--save more ==> 2
--state ==> 2
--script ==> 2
--judge ==> 2
"#;

const OVER_STATE: &str = r#"# with a state
--resume ==> 0 / 4: ok / 5: 12
--audit --resume ==> 0 / 4: ok / 5: 12 / nodes 3
--resume --ask=A'Reduce("+",0) ==> 0 / 4: ok / 5: 12 / ask: 7
--save --resume ==> 0 / 4: ok / 5: 12 / --state / object a vector (integer) capacity 8 [1, 2, 4] / integer n 12
--ask=A'Reduce("+",0) --resume --audit ==> 0 / 4: ok / 5: 12 / nodes 3 / ask: 7
--save --resume --audit ==> 0 / 4: ok / 5: 12 / nodes 3 / --state / object a vector (integer) capacity 8 [1, 2, 4] / integer n 12
--resume --save --ask=A'Reduce("+",0) ==> 0 / 4: ok / 5: 12 / ask: 7 / --state / object a vector (integer) capacity 8 [1, 2, 4] / integer n 12
--resume --save --ask=A'Reduce("+",0) --audit ==> 0 / 4: ok / 5: 12 / nodes 3 / ask: 7 / --state / object a vector (integer) capacity 8 [1, 2, 4] / integer n 12
# a refused question
--resume --save --audit --ask=B'Reduce("+",0) ==> 1 / ask: unknown name
# where none is resumed the state is no script
==> 1 / line 1: syntax
--save ==> 1 / line 1: syntax
--check --resume ==> 1 / line 1: syntax
--generate 1 --resume ==> 0 / lines 9 / 15: 1 / 16: 1 / 17: 1 / 18: 1
"#;

/// Whether these words end with the status of the answer over an input, and write just the lines behind it.
fn are_taken<R: Threads + Wait + Sync>(
    rt: &R,
    alloc: Global,
    row: &str,
    input: &str,
) -> Result<bool, Fail> {
    let (words, status, lines) = parts(row);
    let wanted = lines_of(alloc, lines)?;
    let ended = end_of_plain_run(rt, alloc, words, input.as_bytes())?;
    Ok(status.parse::<u8>() == Ok(ended.status) && ended.text.as_slice() == wanted.as_bytes())
}

fn all_words_are_taken<R: Threads + Wait + Abort + Sync>(
    rt: &R,
    alloc: Global,
    table: &str,
    input: &str,
) -> Result<(), Fail> {
    let input = lines_of(alloc, input)?;
    let rows = with_whole_rows(alloc, table)?;
    for row in rows.split('\n') {
        assert!(rt; !is_row(row) || are_taken(rt, alloc, row, &input)?, "{row}");
    }
    Ok(())
}

#[test]
fn each_set_of_options(rt: HostRuntime) -> Result<(), Fail> {
    all_words_are_taken(&rt, rt.alloc(), OVER_SCRIPT, SCRIPT)?;
    all_words_are_taken(&rt, rt.alloc(), OVER_STATE, STATE_AND_SCRIPT)
}

/// Declarations, and the commands of two scripts, with ` | ` between them.
const PAIRS: &str = r#"# what a script says at once, and in two runs
type L is list (integer); / A : L; / N : integer; | A.Append (5); / N := 3; | A.Append (N); / N := N + 1; / A.Print;
type M is hashed_map (string, integer); / A : M; | A.Insert ("b", 1); / A.Insert ("a", 2); / A.Exclude ("b"); / A.Insert ("b", 3); | A.Print; / A.Capacity; / for E of A loop / E := E + 1; / end loop; / A.Insert ("a", 0); / A.Print;
type T is tree (integer); / A : T; / C : T.cursor; | C := A.Root; / A.Append_Child (C, 1, 2); / C := A.First_Child (C); / A.Append_Child (C, 3); | C := A.Root; / C := A.Last_Child (C); / A.Prepend_Child (C, 4); / A.Print; / A.Node_Count;
type Q is bounded queue (integer); / type P is priority_queue (integer); / A : Q (2); / B : P; / N : integer; | A.Enqueue (1); / A.Enqueue (2); / A.Enqueue (3); / B.Enqueue (150); / B.Enqueue (250); / N := A.Dequeue; | A.Enqueue (N); / A.Peak_Use; / B.Dequeue; / B.Print; / A.Print;
type K is ordered_set (string) keyed; / type H is bounded holder (string); / type V is bounded vector (integer); / A : K; / B : H (4); / D : V (3); / S : string; | A.Insert ("b=1"); / A.Insert ("a=2"); / B.Replace_Element ("abcd"); / D.Append (7, 2); / S := "x"; | A.Key_Element ("a"); / A.Insert ("b=2"); / B.Element; / B.Replace_Element ("abcde"); / D.Append (1, 2); / D.Append (1); / D.Print; / S := S; / A.Print;
"#;

const STATE_LINE: &[u8] = b"--state\n";

/// The state behind the lines of a run.
fn state_behind<'a>(text: &'a [u8], lines: &[u8]) -> Option<&'a [u8]> {
    match text.strip_prefix(lines) {
        Some(behind) => behind.strip_prefix(STATE_LINE),
        None => None,
    }
}

/// A state, and a script on it that has empty lines in place of the commands that led to the state, so that all other lines keep their
/// numbers.
fn resumed_input(
    alloc: Global,
    state: &[u8],
    decls: &str,
    first: &str,
    second: &str,
) -> Result<Vec<u8>, Fail> {
    let mut input = state.to_vec(alloc)?;
    input.extend_from_slice(b"--script\n")?;
    input.extend_from_slice(decls.as_bytes())?;
    for byte in first.as_bytes() {
        if *byte == b'\n' {
            input.push(b'\n')?;
        }
    }
    input.extend_from_slice(second.as_bytes())?;
    Ok(input)
}

/// Whether commands in two runs, of which the second is resumed, write what they write in one, and leave the same state.
fn goes_on<R: Threads + Wait + Sync>(rt: &R, alloc: Global, row: &str) -> Result<bool, Fail> {
    let (decls, commands) = row.split_once(" | ").unwrap_or((row, ""));
    let (first, second) = commands.split_once(" | ").unwrap_or((commands, ""));
    let (decls, first, second) = (
        lines_of(alloc, decls)?,
        lines_of(alloc, first)?,
        lines_of(alloc, second)?,
    );
    let mut script = decls.as_bytes().to_vec(alloc)?;
    script.extend_from_slice(first.as_bytes())?;
    let before = end_of_plain_run(rt, alloc, "", &script)?;
    let saved = end_of_plain_run(rt, alloc, "--save", &script)?;
    let Some(state) = state_behind(&saved.text, &before.text) else {
        return Ok(false);
    };
    let input = resumed_input(alloc, state, &decls, &first, &second)?;
    let resumed = end_of_plain_run(rt, alloc, "--resume --save", &input)?;
    script.extend_from_slice(second.as_bytes())?;
    let whole = end_of_plain_run(rt, alloc, "--save", &script)?;
    let mut wanted = before.text.as_slice().to_vec(alloc)?;
    wanted.extend_from_slice(&resumed.text)?;
    Ok(resumed.status == 0 && whole.is(0, &wanted))
}

fn each_pair_goes_on<R: Threads + Wait + Abort + Sync>(rt: &R, alloc: Global) -> Result<(), Fail> {
    let rows = with_whole_rows(alloc, PAIRS)?;
    for row in rows.split('\n') {
        assert!(rt; !is_row(row) || goes_on(rt, alloc, row)?, "{row}");
    }
    Ok(())
}

#[test]
fn two_runs_say_what_one_says(rt: HostRuntime) -> Result<(), Fail> {
    each_pair_goes_on(&rt, rt.alloc())
}

/// Ends of lines, and bytes that no text has.
#[test]
fn states_byte_by_byte(rt: HostRuntime) -> Result<(), Fail> {
    let rows: [(&[u8], u8, &[u8]); 12] = [
        (b"", 1, b"input: no script\n"),
        (b"--script\n", 0, b""),
        (b"--script", 1, b"input: no script\n"),
        (b"integer n 5\n--script", 1, b"input: no script\n"),
        (b"integer n 5--script\n", 1, b"input: no script\n"),
        (b"--script\r\nN : integer;\n", 1, b"input: no script\n"),
        (b"--script\nN : integer;\r\nN := 4;", 0, b"2: 4\n"),
        (
            b"integer n 5\r\n--script\nN : integer;\n",
            1,
            b"state line 1: refused\n",
        ),
        (
            b"integer\tn 5\n--script\nN : integer;\n",
            1,
            b"state line 1: refused\n",
        ),
        (
            b"string s \"\x7f\"\n--script\nS : string;\n",
            1,
            b"state line 1: refused\n",
        ),
        (
            b"string s \"\t\"\n--script\nS : string;\n",
            1,
            b"state line 1: refused\n",
        ),
        (
            b"integer n 5\0\n--script\nN : integer;\n",
            1,
            b"state line 1: refused\n",
        ),
    ];
    for (input, status, text) in &rows {
        let ended = end_of_plain_run(&rt, rt.alloc(), "--resume", input)?;
        assert!(rt; ended.is(*status, text));
    }
    Ok(())
}

/// The longest string and the most rows, and one more: a front, a piece as often as this, and an end.
#[test]
fn the_longest_entries(rt: HostRuntime) -> Result<(), Fail> {
    let end: &[u8] = b"]\n--script\n";
    let rows: [(&[u8], &[u8], usize, &[u8], &[u8]); 4] = [
        (
            b"string s \"",
            b"x",
            1_000,
            b"\"\n--script\n",
            b"state line 1: mismatch\n",
        ),
        (
            b"string s \"",
            b"x",
            1_001,
            b"\"\n--script\n",
            b"state line 1: refused\n",
        ),
        (
            b"object a list (integer) [0",
            b", 0",
            999_999,
            end,
            b"state line 1: mismatch\n",
        ),
        (
            b"object a list (integer) [0",
            b", 0",
            1_000_000,
            end,
            b"state line 1: refused\n",
        ),
    ];
    for (front, piece, count, end, text) in &rows {
        let input = repeated(rt.alloc(), front, piece, *count, end)?;
        let ended = end_of_plain_run(&rt, rt.alloc(), "--resume", &input)?;
        assert!(rt; ended.is(1, text));
    }
    Ok(())
}

/// The longest script behind a state, and longer ones, each with what else is refused.
#[test]
fn the_longest_script_behind_a_state(rt: HostRuntime) -> Result<(), Fail> {
    let blanks = vec![in rt.alloc(); b' '; 1_048_576]?;
    let rows: [(&str, &[u8], &[u8], u8, &[u8]); 6] = [
        ("--resume", b"--script\n", b"", 0, b""),
        ("--resume", b"--script\n", b" ", 1, b"input: limit\n"),
        (
            "--resume",
            b"integer n 05\n--script\n",
            b" ",
            1,
            b"state line 1: refused\n",
        ),
        (
            "--resume",
            b"--script\nN := M;\n",
            b"",
            1,
            b"input: limit\n",
        ),
        (
            "--resume --ask=N",
            b"--script\n",
            b" ",
            1,
            b"input: limit\n",
        ),
        (
            "--resume",
            b"integer n 5\n--script\n",
            b" ",
            1,
            b"input: limit\n",
        ),
    ];
    for (words, front, end, status, text) in &rows {
        let input = repeated(rt.alloc(), front, &blanks, 1, end)?;
        let ended = end_of_plain_run(&rt, rt.alloc(), words, &input)?;
        assert!(rt; ended.is(*status, text));
    }
    Ok(())
}

/// The longest input, and longer ones, with all else that is refused.
#[test]
fn the_longest_input_with_a_state(rt: HostRuntime) -> Result<(), Fail> {
    let blanks = vec![in rt.alloc(); b' '; 1_048_576]?;
    let rows: [(&[u8], &[u8], &[u8]); 4] = [
        (b"", b"", b"input: no script\n"),
        (b"", b" ", b"input: limit\n"),
        (b"integer n 05\n--script\nN := M;\n", b"", b"input: limit\n"),
        (
            b"integer m 5\n--script\nN : integer;\n",
            b"",
            b"input: limit\n",
        ),
    ];
    for (front, end, text) in &rows {
        let input = repeated(rt.alloc(), front, &blanks, 64, end)?;
        let ended = end_of_plain_run(&rt, rt.alloc(), "--resume --ask=N", &input)?;
        assert!(rt; ended.is(1, text));
    }
    Ok(())
}
