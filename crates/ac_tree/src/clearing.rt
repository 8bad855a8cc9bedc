//! Nodes that go with all that is below them, leaf after leaf.
ghost use Rattle.std.specs.Option.{ForSome};
ghost use Rattle.ac_pool.specs.Contents.{IsLive};
ghost use Rattle.ac_tree.specs.Removing.{Leads, Succeeds, Clears, Uproots};
ghost use Rattle.ac_tree.specs.TreeFields.{IsForest};

use crate::links::Links;
use crate::preorder::above;
use ac_base::Name;

/// The leaf to which first children lead from a node, if there is one.
fn first_leaf<T>(links: &Links<T>, from: Option<Name>) -> Option<Name>
    requires forest { IsForest links.now }
    requires live { ForSome from (IsLive links.now.nodes) }
    ensures { Leads links.now from result }
{
    let mut leaf = None;
    let mut place = from;
    while let Some(name) = place {
        leaf = place;
        place = links.first_child(Some(name));
    }
    leaf
}

/// The first leaf below the top once this one, which is the first, is gone.
fn leaf_after<T>(links: &Links<T>, top: Option<Name>, name: Name) -> Option<Name>
    requires forest { IsForest links.now }
    requires live { IsLive links.now.nodes name }
    ensures { Succeeds links.now top name result }
{
    let sibling = links.next(name);
    if sibling.is_some() {
        first_leaf(links, sibling)
    } else {
        above(links, top, name)
    }
}

/// Takes out all nodes below one, or below the root at none.
pub fn remove_below<T: Drop>(links: &mut Links<T>, top: Option<Name>)
    requires forest { IsForest links.old }
    requires live { ForSome top (IsLive links.old.nodes) }
    ensures { Clears links.old top links.new }
{
    let first = links.first_child(top);
    let mut place = first_leaf(links, first);
    while let Some(name) = place {
        place = leaf_after(links, top, name);
        links.remove(name);
    }
}

/// Takes out a node with all that is below it.
pub fn remove_subtree<T: Drop>(links: &mut Links<T>, name: Name)
    requires forest { IsForest links.old }
    requires live { IsLive links.old.nodes name }
    ensures { Uproots links.old name links.new }
{
    remove_below(links, Some(name));
    links.remove(name);
}
