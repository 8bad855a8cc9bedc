//! Taking a node out of the tree. It stays in the pool.
ghost use Rattle.ac_balance.specs.Detaching.{Cuts, IsCut, Joins, IsJoined, Detaches, IsDetached};

use crate::links::{Links, left, right, set_parent, side_of};
use crate::places::{mend, place_of};
use crate::rotation::balance;
use crate::walk::leftmost;
use ac_base::Name;

/// Makes the part under `top` the whole, without its first node.
fn cut_first<T>(links: &mut Links<T>, top: Name, first: Name)
    requires { IsCut links.old top first }
    ensures { Cuts links.old top first links.new }
{
    links.root = Some(top);
    set_parent(&mut links.nodes, Some(top), None);
    let rest = right(&links.nodes, first);
    let place = place_of(&links.nodes, first, rest);
    mend(links, place);
}

/// Joins two parts, one behind the other, and gives the topmost node.
fn join<T>(links: &mut Links<T>, left_side: Option<Name>, right_side: Option<Name>) -> Option<Name>
    requires { IsJoined links.old left_side right_side }
    ensures { Joins links.old left_side right_side links.new result }
{
    let Some(top) = right_side else {
        return left_side;
    };
    let first = leftmost(&links.nodes, top);
    cut_first(links, top, first);
    let before = side_of(&links.nodes, left_side);
    let behind = side_of(&links.nodes, links.root);
    let whole = balance(
        &mut links.nodes,
        before,
        first,
        behind,
        before.top,
        behind.top,
    );
    whole.top
}

/// Takes the node out of the tree.
pub(crate) fn detach<T>(links: &mut Links<T>, name: Name)
    requires { IsDetached links.old name }
    ensures { Detaches links.old name links.new }
{
    let root = links.root;
    let left_side = left(&links.nodes, name);
    let right_side = right(&links.nodes, name);
    let top = join(links, left_side, right_side);
    let place = place_of(&links.nodes, name, top);
    links.root = root;
    mend(links, place);
}
