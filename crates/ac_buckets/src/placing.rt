//! Nodes that are linked anew, and one that is taken out.
ghost use Rattle.std.specs.Prelude.{◌≡◌, ◌+◌, ◌^◌, ◌<◌, ◌≤◌, replicate, length, vec_capacity, swap_remove};
ghost use Rattle.ac_buckets.specs.Linked.{AreLinked, marks_of, rows_of, blank_row, Unlinks, Relinks};

use crate::linked::{Node, link_in, unlink};

/// Links all nodes, where none is linked.
pub(crate) fn link_all(heads: &mut [u32], nodes: &mut [Node])
    requires heads { (0 < length heads.old) × (heads.old ≡ replicate (length heads.old) 0) }
    requires few { length nodes.old ≤ 2 ^ 30 }
    ensures linked { AreLinked (marks_of (length heads.new) nodes.new) nodes.new heads.new }
    ensures rows { rows_of nodes.new ≡ rows_of nodes.old }
{
    for index in 0..nodes.len() {
        link_in(heads, nodes, index);
    }
}

/// Takes the node and the last one out of their buckets.
fn unlink_both(heads: &mut [u32], nodes: &mut [Node], index: usize, last: usize)
    requires index { index ≤ last }
    requires last { length nodes.old ≡ last + 1 }
    requires heads { 0 < length heads.old }
    requires linked { AreLinked (marks_of (length heads.old) nodes.old) nodes.old heads.old }
    ensures linked { Unlinks index last nodes.old nodes.new heads.new }
    ensures rows { rows_of nodes.new ≡ rows_of nodes.old }
{
    unlink(heads, nodes, index);
    if index == last {
        return;
    }
    unlink(heads, nodes, last);
}

/// Links the node at the index, if there is one.
pub(crate) fn relink(heads: &mut [u32], nodes: &mut [Node], index: usize)
    requires few { length nodes.old ≤ 2 ^ 30 }
    requires heads { 0 < length heads.old }
    requires linked { Relinks index nodes.old heads.old }
    ensures linked { AreLinked (marks_of (length heads.new) nodes.new) nodes.new heads.new }
    ensures rows { rows_of nodes.new ≡ rows_of nodes.old }
{
    if index >= nodes.len() {
        return;
    }
    link_in(heads, nodes, index);
}

/// Takes the node out. The last one takes its place.
pub(crate) fn take_out(heads: &mut [u32], nodes: &mut Vec<Node>, index: usize)
    requires index { index < length nodes.old.items }
    requires few { length nodes.old.items ≤ 2 ^ 30 }
    requires heads { 0 < length heads.old }
    requires linked { AreLinked (marks_of (length heads.old) nodes.old.items) nodes.old.items heads.old }
    ensures linked { AreLinked (marks_of (length heads.new) nodes.new.items) nodes.new.items heads.new }
    ensures rows { rows_of nodes.new.items ≡ swap_remove (rows_of nodes.old.items) index blank_row }
    ensures capacity { vec_capacity nodes.new ≡ vec_capacity nodes.old }
{
    let last = nodes.len() - 1;
    unlink_both(heads, nodes.as_mut_slice(), index, last);
    let _node = nodes.swap_remove(index);
    relink(heads, nodes.as_mut_slice(), index);
}
