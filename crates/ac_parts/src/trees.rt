use crate::lists::tag;
use ac_base::Limit;
use ac_cursor::Cursor;
use ac_tree::Tree;
use std::alloc::Global;
use std::process::Abort;

fn made(rt: &impl Abort, alloc: Global, limit: Limit) -> Tree<i64> {
    assert!(rt; limit == Limit::Unbounded || limit == Limit::Bounded(2));
    match Tree::new(alloc, tag(rt, 1), limit) {
        Ok(made) => made,
        Err(_) => panic!(rt; "no memory"),
    }
}

#[test]
fn a_bounded_tree_has_its_slots_from_the_first(rt: HostRuntime) {
    let tree = made(&rt, rt.alloc(), Limit::Bounded(2));
    assert!(rt; tree.slots() == 2);
}

/// The node's children are these, in this order.
fn holds(tree: &Tree<i64>, parent: Cursor, wanted: &[i64]) -> bool {
    let mut c = tree.first_child(parent).unwrap_or(Cursor::NoElement);
    for value in wanted {
        if tree.element(c).ok().copied() != Some(*value) {
            return false;
        }
        c = tree.next_sibling(c).unwrap_or(Cursor::NoElement);
    }
    c == Cursor::NoElement
}

/// Two children of the root, 1 and 2, and a 2 below the first.
fn branched(tree: &mut Tree<i64>) -> bool {
    let root = tree.root();
    tree.append_child(root, 1, 1).is_ok()
        && tree.append_child(root, 2, 1).is_ok()
        && tree.append_child(tree.first(), 2, 1).is_ok()
}

#[test]
fn a_copy_stays_where_its_source_moves(rt: HostRuntime) {
    let mut tree = made(&rt, rt.alloc(), Limit::Unbounded);
    let mut other = made(&rt, rt.alloc(), Limit::Unbounded);
    assert!(rt; branched(&mut tree));
    let Ok(copy) = tree.copy(rt.alloc(), tag(&rt, 2), 0) else {
        panic!(rt; "no memory");
    };
    assert!(rt; other.move_from(&mut tree).is_ok());
    assert!(rt; tree.is_empty());
    assert!(rt; other.equal(&copy));
    assert!(rt; holds(&copy, copy.root(), &[1, 2]));
}

/// So many nodes, each the only child of the one before, and the last one's cursor.
fn deepen(tree: &mut Tree<i64>, n: u64) -> Cursor {
    let mut c = tree.root();
    for _ in 0..n {
        let mut below = c;
        if tree
            .insert_child_pos(c, Cursor::NoElement, 1, &mut below, 1)
            .is_err()
        {
            return c;
        }
        c = below;
    }
    c
}

#[test]
fn a_deep_tree_is_walked_and_goes_within_the_stack(rt: HostRuntime) {
    let mut tree = made(&rt, rt.alloc(), Limit::Unbounded);
    let deepest = deepen(&mut tree, 1_000_000);
    assert!(rt; tree.depth(deepest).ok() == Some(1_000_001));
    assert!(rt; tree.subtree_node_count(tree.root()).ok() == Some(1_000_001));
    assert!(rt; tree.ancestor_find(deepest, &2).ok() == Some(Cursor::NoElement));
    assert!(rt; tree.clear().is_ok());
    assert!(rt; tree.node_count() == 1);
}
