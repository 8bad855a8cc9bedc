//! Children that go to another parent, with all that is below them.
ghost use Rattle.std.specs.Option.{ForSome};
ghost use Rattle.ac_pool.specs.Contents.{IsLive};
ghost use Rattle.ac_tree.specs.Splicing.{Reparents, MovesChildren};
ghost use Rattle.ac_tree.specs.TreeFields.{IsForest};

use crate::links::Links;
use ac_base::Name;

/// Gives all children of a node, or of the root at none, another parent.
fn set_parents<T>(links: &mut Links<T>, from: Option<Name>, parent: Option<Name>)
    requires forest { IsForest links.old }
    requires live { ForSome from (IsLive links.old.nodes) }
    ensures { Reparents links.old from parent links.new }
{
    let mut place = links.first_child(from);
    while let Some(name) = place {
        place = links.next(name);
        links.set_parent(name, parent);
    }
}

/// Moves all children of a node, or of the root at none: they become children of the parent before one of its children, or behind
/// the last.
pub fn move_children<T>(
    links: &mut Links<T>,
    from: Option<Name>,
    parent: Option<Name>,
    before: Option<Name>,
)
    requires forest { IsForest links.old }
    requires live { ForSome from (IsLive links.old.nodes) }
    ensures { MovesChildren links.old from parent before links.new }
{
    let first = links.first_child(from);
    if first.is_none() {
        return;
    }
    let last = links.last_child(from);
    set_parents(links, from, parent);
    links.close(from, None, None);
    links.join(parent, before, first, last);
}
