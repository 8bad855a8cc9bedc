//! An object that was just declared gets rows, one behind another, by the calls that scripts have.
ghost use Rattle.std.specs.Prelude.{◌≡◌, ◌≤◌, IfSome, None, OnOk, Some, false, length};
ghost use Rattle.ac_base.specs.declared.limit.TheConstants.{GREATEST_LENGTH};
ghost use Rattle.ac_calls.specs.Arguments.{arguments_of};
ghost use Rattle.ac_calls.specs.Holdings.{Held, reply_of};
ghost use Rattle.ac_meaning.specs.Environment.{binds_object, bound_at, object_at, with_bound};
ghost use Rattle.ac_objects.specs.Peaks.{PeakFits};
ghost use Rattle.ac_objects.specs.Steps.{AllKnown};
ghost use Rattle.ac_objects.specs.World.{World, state_of};
ghost use Rattle.ac_plains.specs.Filling.{GoesThrough, IsAsDeclared, IsToFill, IsToReserve, kind_operation, reserved, with_peak, with_rows};
ghost use Rattle.ac_snapshot.specs.Filled.{count_arguments, filled, row_arguments};
ghost use Rattle.ac_snapshot.specs.RowValidity.{is_tree};

use crate::nodes::put_nodes;
use ac_base::{Fault, GREATEST_LENGTH, NoMemory};
use ac_calls::{Arguments, Frame, PlainRow};
use ac_objects::Objects;
use ac_syntax::{
    CapacityCall, HolderCall, Kind, MapCall, Operation, QueueCall, SequenceCall, SetCall,
    TreeChangeCall, TypeDef,
};
use std::alloc::Global;

/// The call that puts a row into an object of this kind.
fn row_operation(kind: Kind) -> Operation
    ensures { result ≡ kind_operation kind }
{
    match kind {
        Kind::Vector | Kind::List => Operation::Sequence(SequenceCall::Append),
        Kind::HashedMap | Kind::OrderedMap => Operation::Map(MapCall::Insert),
        Kind::HashedSet | Kind::OrderedSet => Operation::Set(SetCall::Insert),
        Kind::Tree => Operation::TreeChange(TreeChangeCall::InsertChildPos),
        Kind::Holder => Operation::Holder(HolderCall::ReplaceElement),
        Kind::Queue | Kind::PriorityQueue => Operation::Queue(QueueCall::Enqueue),
    }
}

/// Writes a row as the arguments of the call that puts it: its key, if it has one, and its value.
fn put_arguments(alloc: Global, row: &PlainRow, args: &mut Arguments) -> Result<(), NoMemory>
    ensures put { OnOk result (arguments_of args.new ≡ row_arguments row.now) }
    ensures known { OnOk result ((w : World) → AllKnown w args.new) }
{
    match &row.key {
        Some(key) => {
            args.first.put_copy(alloc, key)?;
            args.second.put_copy(alloc, &row.value)?;
        }
        None => {
            args.first.put_copy(alloc, &row.value)?;
            args.second.leave_out();
        }
    }
    args.third.leave_out();
    args.fourth.leave_out();
    args.fifth = 1;
    Ok(())
}

/// Writes a count as the only argument of a call.
fn put_count(count: u64, args: &mut Arguments)
    requires { count ≤ GREATEST_LENGTH }
    ensures put { arguments_of args.new ≡ count_arguments count }
    ensures known { (w : World) → AllKnown w args.new }
{
    args.first.put_integer(count as i64);
    args.second.leave_out();
    args.third.leave_out();
    args.fourth.leave_out();
    args.fifth = 1;
}

/// Makes a call that isn't refused and doesn't wait.
fn make_call(
    objects: &mut Objects,
    place: usize,
    operation: Operation,
    frame: &mut Frame,
) -> Result<(), NoMemory>
    requires known { AllKnown objects.old frame.old.arguments }
    requires goes { GoesThrough operation (arguments_of frame.old.arguments) (state_of objects.old) place }
    ensures { OnOk result ((h : Held) → object_at (state_of objects.old) place ≡ Some h →
        state_of objects.new ≡ with_bound (state_of objects.old) place
        (binds_object (reply_of h None operation (arguments_of frame.old.arguments)).after)) }
{
    match objects.call_at(place, None, operation, frame) {
        Ok(()) => Ok(()),
        Err(Fault::NoMemory) => Err(NoMemory),
        Err(Fault::Raised(_)) => unreachable!(),
    }
}

/// Puts a row behind those that the object at the place has.
fn put_row(
    objects: &mut Objects,
    place: usize,
    operation: Operation,
    row: &PlainRow,
    frame: &mut Frame,
) -> Result<(), NoMemory>
    requires { GoesThrough operation (row_arguments row.now) (state_of objects.old) place }
    ensures { OnOk result ((h : Held) → object_at (state_of objects.old) place ≡ Some h →
        state_of objects.new ≡ with_bound (state_of objects.old) place
        (binds_object (reply_of h None operation (row_arguments row.now)).after)) }
{
    put_arguments(objects.allocator(), row, &mut frame.arguments)?;
    make_call(objects, place, operation, frame)
}

/// Puts the rows into the object at the place, which isn't a tree.
fn put_rows(
    objects: &mut Objects,
    place: usize,
    kind: Kind,
    rows: &[PlainRow],
    frame: &mut Frame,
) -> Result<(), NoMemory>
    requires flat { is_tree kind ≡ false }
    requires fills { IsToFill kind rows.now (state_of objects.old) place }
    ensures { OnOk result ((to_fill : IsToFill kind rows.now (state_of objects.old) place) →
        state_of objects.new ≡ with_rows to_fill (length rows.now) rows.now) }
{
    let operation = row_operation(kind);
    for row in rows {
        put_row(objects, place, operation, row, frame)?;
    }
    Ok(())
}

/// Puts the rows into the object at the place.
fn put_entries(
    objects: &mut Objects,
    place: usize,
    kind: Kind,
    rows: &[PlainRow],
    frame: &mut Frame,
) -> Result<(), NoMemory>
    requires { IsToFill kind rows.now (state_of objects.old) place }
    ensures { OnOk result ((to_fill : IsToFill kind rows.now (state_of objects.old) place) →
        state_of objects.new ≡ with_rows to_fill (length rows.now) rows.now) }
{
    match kind {
        Kind::Tree => put_nodes(objects, place, rows, frame),
        _ => put_rows(objects, place, kind, rows, frame),
    }
}

/// Reserves the Capacity of the object at the place, where a state tells one.
fn reserve(
    objects: &mut Objects,
    place: usize,
    capacity: Option<u64>,
    frame: &mut Frame,
) -> Result<(), NoMemory>
    requires { IsToReserve capacity (state_of objects.old) place }
    ensures { OnOk result ((to_reserve : IsToReserve capacity (state_of objects.old) place) →
        state_of objects.new ≡ reserved to_reserve) }
{
    match capacity {
        None => Ok(()),
        Some(capacity) => {
            put_count(capacity.min(GREATEST_LENGTH), &mut frame.arguments);
            let operation = Operation::Capacity(CapacityCall::ReserveCapacity);
            make_call(objects, place, operation, frame)
        }
    }
}

/// Sets the greatest use of the queue at the place, where a state tells one.
fn restore_peak(objects: &mut Objects, place: usize, peak: Option<u64>)
    requires { IfSome peak (λ most. PeakFits most (bound_at (state_of objects.old) place)) }
    ensures { state_of objects.new ≡ with_peak peak (state_of objects.old) place }
{
    if let Some(peak) = peak {
        objects.restore_peak(place, peak);
    }
}

/// The Capacity and the greatest use that a state tells of an object.
#[derive(Clone, Copy)]
pub struct Numbers {
    pub capacity: Option<u64>,
    pub peak: Option<u64>,
}

/// Gives the object at the place, which was just declared, its Capacity, its rows and its greatest use.
pub fn fill_object(
    objects: &mut Objects,
    place: usize,
    def: &TypeDef,
    numbers: Numbers,
    rows: &[PlainRow],
) -> Result<(), NoMemory>
    requires { IsAsDeclared def.now numbers.capacity numbers.peak rows.now (state_of objects.old) place }
    ensures { OnOk result ((h : Held) → object_at (state_of objects.old) place ≡ Some h →
        state_of objects.new ≡ with_bound (state_of objects.old) place
        (binds_object (filled h numbers.capacity numbers.peak rows.now))) }
{
    let mut frame = Frame::new();
    reserve(objects, place, numbers.capacity, &mut frame)?;
    put_entries(objects, place, def.kind, rows, &mut frame)?;
    restore_peak(objects, place, numbers.peak);
    Ok(())
}
