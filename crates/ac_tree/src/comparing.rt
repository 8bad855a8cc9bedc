//! Two trees that are compared in one walk through both.
ghost use Rattle.std.specs.Prelude.{◌≡◌};
ghost use Rattle.ac_base.specs.Rows.{values};
ghost use Rattle.ac_model.specs.Sequences.{are_equal};
ghost use Rattle.ac_tree.specs.Comparing.{same_node};
ghost use Rattle.ac_tree.specs.TreeFields.{IsForest};
ghost use Rattle.ac_tree.specs.TreeRows.{rows_of};

use crate::copying::after_level;
use crate::links::Links;
use ac_base::Elem;

/// Whether both have equal values at the same depths, in preorder.
pub fn same_nodes<T: Elem>(left: &Links<T>, right: &Links<T>) -> bool
    requires left { IsForest left.now }
    requires right { IsForest right.now }
    ensures { result ≡ are_equal (same_node T.is_same) (values (rows_of left.now).rows) (values (rows_of right.now).rows) }
{
    let mut depth = 2;
    let mut level = 2;
    let mut place = left.first_child(None);
    let mut other = right.first_child(None);
    while let Some(name) = place {
        let Some(its) = other else {
            return false;
        };
        if depth != level {
            return false;
        }
        if !left.at(name).same(right.at(its)) {
            return false;
        }
        place = after_level(left, name, &mut depth);
        other = after_level(right, its, &mut level);
    }
    other.is_none()
}
