//! A tree that was just declared gets its nodes in preorder, each behind the last child of its parent.
ghost use Rattle.std.specs.Prelude.{◌≡◌, ◌++◌, ◌-◌, ◌∷◌, [], All, IfOk, None, OnOk, Some, length, map, slice_get, take};
ghost use Rattle.ac_calls.specs.Arguments.{arguments_of};
ghost use Rattle.ac_meaning.specs.Environment.{object_at};
ghost use Rattle.ac_model.specs.Cursors.{plain_mark};
ghost use Rattle.ac_objects.specs.Steps.{AllKnown};
ghost use Rattle.ac_objects.specs.World.{IsKnown, World, state_of};
ghost use Rattle.ac_calls.specs.Holdings.{Held, number_of, reply_of};
ghost use Rattle.ac_meaning.specs.Environment.{binds_object, with_bound};
ghost use Rattle.ac_model.specs.Letters.{Mark, mark_at};
ghost use Rattle.ac_plains.specs.Filling.{IsToFill, with_rows};
ghost use Rattle.ac_plains.specs.Nodes.{HasTree, IsNextNode, put_child};
ghost use Rattle.ac_snapshot.specs.Filled.{child_arguments};
ghost use Rattle.ac_syntax.specs.declared.kind.Kind.TheVariants.{Tree};

use ac_base::{Fault, NoMemory, Value};
use ac_calls::{Arguments, Frame, PlainRow, Said};
use ac_cursor::Cursor;
use ac_objects::Objects;
use ac_syntax::{Operation, TreeCall, TreeChangeCall};
use std::alloc::Global;

/// Writes the arguments of a call that puts a node behind the last child of a parent.
fn put_child_arguments(
    alloc: Global,
    parent: Cursor,
    value: &Value,
    args: &mut Arguments,
) -> Result<(), NoMemory>
    ensures put { OnOk result (arguments_of args.new ≡ child_arguments (plain_mark parent) value.now) }
    ensures known { OnOk result ((w : World) → IsKnown w parent → AllKnown w args.new) }
{
    args.first.put_place(parent);
    args.second.leave_out();
    args.third.put_copy(alloc, value)?;
    args.fourth.leave_out();
    args.fifth = 1;
    Ok(())
}

/// A cursor at the root of the tree at the place.
fn root_of(objects: &mut Objects, place: usize, frame: &mut Frame) -> Result<Cursor, NoMemory>
    requires { HasTree (state_of objects.old) place }
    ensures same { OnOk result (state_of objects.new ≡ state_of objects.old) }
    ensures root { IfOk result (λ root. (h : Held) → object_at (state_of objects.old) place ≡ Some h → plain_mark root ≡ mark_at (number_of h) 0) }
    ensures known { IfOk result (λ root. IsKnown objects.new root) }
{
    frame.arguments.first.leave_out();
    frame.arguments.second.leave_out();
    frame.arguments.third.leave_out();
    frame.arguments.fourth.leave_out();
    match objects.call_at(place, None, Operation::Tree(TreeCall::Root), frame) {
        Ok(()) => match &frame.reply.said {
            Said::Place(root) => Ok(*root),
            _ => unreachable!(),
        },
        Err(Fault::NoMemory) => Err(NoMemory),
        Err(Fault::Raised(_)) => unreachable!(),
    }
}

/// Puts a node behind the last child of its parent, and goes on along the path to it.
fn put_node(
    objects: &mut Objects,
    place: usize,
    row: &PlainRow,
    path: &mut Vec<Cursor>,
    frame: &mut Frame,
) -> Result<(), NoMemory>
    requires known { All (IsKnown objects.old) path.old.items }
    requires next { (next : Mark) × IsNextNode row.now (map plain_mark path.old.items) next (state_of objects.old) place }
    ensures put { OnOk result ((h : Held) (parent : Mark) → object_at (state_of objects.old) place ≡ Some h →
        slice_get (map plain_mark path.old.items) (row.now.depth - 2) ≡ Some parent →
        state_of objects.new ≡ with_bound (state_of objects.old) place
        (binds_object (reply_of h None put_child (child_arguments parent row.now.value)).after)) }
    ensures path { OnOk result ((next : Mark) → IsNextNode row.now (map plain_mark path.old.items) next (state_of objects.old) place →
        map plain_mark path.new.items ≡ take (row.now.depth - 1) (map plain_mark path.old.items) ++ next ∷ []) }
    ensures all_known { OnOk result (All (IsKnown objects.new) path.new.items) }
{
    path.truncate(row.depth as usize - 1);
    let parent = path[path.len() - 1];
    let alloc = objects.allocator();
    put_child_arguments(alloc, parent, &row.value, &mut frame.arguments)?;
    let operation = Operation::TreeChange(TreeChangeCall::InsertChildPos);
    match objects.call_at(place, None, operation, frame) {
        Ok(()) => match &frame.reply.variable {
            Some(placed) => {
                path.push(placed.cursor)?;
                Ok(())
            }
            None => unreachable!(),
        },
        Err(Fault::NoMemory) => Err(NoMemory),
        Err(Fault::Raised(_)) => unreachable!(),
    }
}

/// Puts the nodes into the tree at the place.
pub fn put_nodes(
    objects: &mut Objects,
    place: usize,
    rows: &[PlainRow],
    frame: &mut Frame,
) -> Result<(), NoMemory>
    requires { IsToFill Tree rows.now (state_of objects.old) place }
    ensures { OnOk result ((to_fill : IsToFill Tree rows.now (state_of objects.old) place) →
        state_of objects.new ≡ with_rows to_fill (length rows.now) rows.now) }
{
    let root = root_of(objects, place, frame)?;
    let mut path = Vec::new(objects.allocator());
    path.push(root)?;
    for row in rows {
        put_node(objects, place, row, &mut path, frame)?;
    }
    Ok(())
}
