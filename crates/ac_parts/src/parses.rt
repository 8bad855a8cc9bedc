use ac_script::{parse, print};
use std::alloc::Global;

/// Every declaration, command and head, as they are printed.
const EVERY_FORM: &[u8] = b"type m is hashed_map (integer, string);
type s is bounded ordered_set (string) keyed;
a : m; b : s (8);
c : m.cursor; n : integer; t : string;
n := n + 1; n := n - 2; c := no_element;
t := a.element (c); a.insert (-1, \"a\"\"\", c);
update a at c as x do end; reference y of a at c do
stable a do end; end;
update_key b at d as z do end; for e of a loop end loop;
query h as q do end;
";

/// Blocks in blocks, one of them with declarations.
const NESTED: &[u8] = b"type l is list (integer); a : l;
for c in reverse a loop
query a at c as x do
a.append (x, 2); end; end loop;

declare b : l; begin x := b.length; end;
";

/// Two tasks that share a queue.
const TASKS: &[u8] = b"type q is bounded queue (integer);
a : q (1);
tasks
task p is begin

a.enqueue (1);
a.enqueue (2); end;

task c is
x : integer; begin

x := a.dequeue;
a.dequeue; end; end tasks;


a.peak_use;
";

/// Whether a text is read, and printed as it stands.
fn stands(alloc: Global, text: &[u8]) -> bool {
    match parse(alloc, text) {
        Ok(script) => match print(alloc, &script) {
            Ok(printed) => printed.as_slice() == text,
            Err(_) => false,
        },
        Err(_) => false,
    }
}

#[test]
fn scripts_in_canonical_text_stand(rt: HostRuntime) {
    for text in [EVERY_FORM, NESTED, TASKS] {
        assert!(rt; stands(rt.alloc(), text));
    }
}
