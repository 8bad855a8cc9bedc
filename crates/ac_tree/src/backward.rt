//! A walk in preorder backwards, which doesn't recurse: from a node to the one before it.
ghost use Rattle.std.specs.Prelude.{◌≡◌, None};
ghost use Rattle.ac_chain.specs.ChainFields.{last_or};
ghost use Rattle.ac_pool.specs.Contents.{IsLive};
ghost use Rattle.ac_tree.specs.Backward.{Ends, Precedes};
ghost use Rattle.ac_tree.specs.TreeFields.{IsForest};
ghost use Rattle.ac_tree.specs.TreeRows.{rows_of};

use crate::links::Links;
use ac_base::Name;

/// The last of a node and of all that is below it: last children lead to it.
fn end_of<T>(links: &Links<T>, name: Name) -> Name
    requires forest { IsForest links.now }
    requires live { IsLive links.now.nodes name }
    ensures { Ends links.now name result }
{
    let mut place = name;
    while let Some(child) = links.last_child(Some(place)) {
        place = child;
    }
    place
}

/// The node before this one: the end of the sibling before it, or else its parent.
pub fn preceding<T>(links: &Links<T>, name: Name) -> Option<Name>
    requires forest { IsForest links.now }
    requires live { IsLive links.now.nodes name }
    ensures { Precedes links.now name result }
{
    match links.prev(name) {
        Some(elder) => Some(end_of(links, elder)),
        None => links.parent(name),
    }
}

/// The last node of all.
pub fn last_node<T>(links: &Links<T>) -> Option<Name>
    requires { IsForest links.now }
    ensures { result ≡ last_or None (rows_of links.now).rows }
{
    match links.last_child(None) {
        Some(name) => Some(end_of(links, name)),
        None => None,
    }
}
