//! The tasks of a block with their steps: queues and locals have numbers in them, and no names.
ghost use Rattle.std.specs.Prelude.{◌≡◌, ◌∷◌, [], ◌++◌, ◌==◌, ◌-◌, ◌+◌, pos, IfOk, OnOk, option_map};
ghost use Rattle.std.specs.List.{position_or_len};
ghost use Rattle.ac_rules.specs.Resolved.{calls_at, no_statement, sets_at, sums_at};
ghost use Rattle.ac_rules.specs.ResolvedStatements.{resolved_before};
ghost use Rattle.ac_meaning.specs.Commands.{sum_of};
ghost use Rattle.ac_calls.specs.Elements.{integer_in};
ghost use Rattle.ac_meaning.specs.TaskBlocks as meant;
ghost use Rattle.ac_meaning.specs.TaskBlocks.{steps_of, tasks_from};

use crate::named_task::NamedTask;
use ac_base::{NoMemory, Value};
use ac_book::{Steplist, TaskArg, TaskStep};
use ac_rules::{ResolvedArg, ResolvedStmt, ResolvedStmts, ResolvedTask, ResolvedTasks};
use ac_syntax::{Operation, QueueCall};
use std::alloc::Global;

/// A number of 32 bits. What has more counts as want of memory: no script that was checked has so many tasks or locals.
fn narrow(number: usize) -> Result<u32, NoMemory>
    ensures { IfOk result (λ made. made ≡ number) }
{
    match u32::try_from(number) {
        Ok(made) => Ok(made),
        Err(_) => Err(NoMemory),
    }
}

/// How many of the places stand before this one.
fn places_before(places: &[usize], place: usize) -> usize
    ensures { result ≡ position_or_len (λ p. p == place) places.now }
{
    places.iter().take_while(|other| **other != place).count()
}

/// The number of the queue at this place.
fn queue_number(places: &[usize], place: usize) -> Result<u32, NoMemory>
    ensures { IfOk result (λ made. made ≡ position_or_len (λ p. p == place) places.now) }
{
    narrow(places_before(places, place))
}

/// The number of the local at this place.
fn local_number(first: usize, place: usize) -> Result<u32, NoMemory>
    ensures { IfOk result (λ made. made ≡ place - first) }
{
    narrow(place.saturating_sub(first))
}

fn integer_in(value: &Value) -> i64
    ensures { result ≡ integer_in value.now }
{
    match value {
        Value::Int(number) => *number,
        Value::Text(_) => 0,
    }
}

fn argument(first: usize, arg: &ResolvedArg) -> Result<TaskArg, NoMemory>
    ensures { IfOk result (λ made. made ≡ meant.argument_from [] first arg.now) }
{
    match arg {
        ResolvedArg::Lit(value) => Ok(TaskArg::Number(integer_in(value))),
        ResolvedArg::NoElement => Ok(TaskArg::Number(0)),
        ResolvedArg::At(place) => Ok(TaskArg::Local(local_number(first, *place)?)),
    }
}

fn first_argument(first: usize, args: &[ResolvedArg]) -> Result<TaskArg, NoMemory>
    ensures { IfOk result (λ made. made ≡ meant.first_argument [] first args.now) }
{
    match args.first() {
        Some(arg) => argument(first, arg),
        None => Ok(TaskArg::Number(0)),
    }
}

/// The local that takes a reply.
fn target_number(first: usize, target: Option<usize>) -> Result<Option<u32>, NoMemory>
    ensures { IfOk result (λ made. made ≡ option_map (meant.local_number [] first) target) }
{
    match target {
        Some(place) => Ok(Some(local_number(first, place)?)),
        None => Ok(None),
    }
}

fn queue_step(line: u64, queue: u32, into: Option<u32>, item: TaskArg, call: QueueCall) -> TaskStep
    ensures { result ≡ meant.queue_step [] 0 line queue into item call }
{
    match call {
        QueueCall::Enqueue => TaskStep::Enqueue { line, queue, item },
        QueueCall::Dequeue => TaskStep::Dequeue { line, queue, into },
        QueueCall::CurrentUse => TaskStep::CurrentUse { line, queue, into },
        QueueCall::PeakUse => TaskStep::PeakUse { line, queue, into },
        QueueCall::Print => TaskStep::CurrentUse {
            line,
            queue,
            into: None,
        },
        QueueCall::DequeueOnlyHighPriority => TaskStep::High {
            line,
            queue,
            at_least: item,
            into,
        },
    }
}

/// The step of a call. Tasks call queues alone.
fn call_step(
    line: u64,
    queue: u32,
    into: Option<u32>,
    item: TaskArg,
    operation: Operation,
) -> TaskStep
    ensures { result ≡ meant.call_step [] 0 line queue into item operation }
{
    match operation {
        Operation::Queue(call) => queue_step(line, queue, into, item, call),
        _ => TaskStep::CurrentUse {
            line,
            queue,
            into: None,
        },
    }
}

fn step_of_call(
    places: &[usize],
    first: usize,
    line: u64,
    target: Option<usize>,
    object: usize,
    operation: Operation,
    args: &[ResolvedArg],
) -> Result<TaskStep, NoMemory>
    ensures { IfOk result (λ made. made ≡ meant.step_of places.now first (calls_at line target object operation args.now)) }
{
    let queue = queue_number(places, object)?;
    let into = target_number(first, target)?;
    let item = first_argument(first, args)?;
    Ok(call_step(line, queue, into, item, operation))
}

fn whole(minus: bool, number: u64) -> i128
    ensures { result ≡ sum_of minus (pos 0) number }
{
    if minus {
        0 - number as i128
    } else {
        number as i128
    }
}

/// An integer of 64 bits. Another counts as want of memory: a script's numbers are integers.
fn integer(number: i128) -> Result<i64, NoMemory>
    ensures { IfOk result (λ made. made ≡ number) }
{
    if number < i64::MIN as i128 {
        return Err(NoMemory);
    }
    if number > i64::MAX as i128 {
        return Err(NoMemory);
    }
    Ok(number as i64)
}

/// What is added.
fn added(minus: bool, number: u64) -> Result<i64, NoMemory>
    ensures { IfOk result (λ made. made ≡ sum_of minus (pos 0) number) }
{
    integer(whole(minus, number))
}

/// The step of an assignment.
fn step_of_set(
    first: usize,
    line: u64,
    target: usize,
    from: &ResolvedArg,
) -> Result<TaskStep, NoMemory>
    ensures { IfOk result (λ made. made ≡ meant.step_of [] first (sets_at line target from.now)) }
{
    let into = local_number(first, target)?;
    let from = argument(first, from)?;
    Ok(TaskStep::Set {
        line,
        into,
        from,
        add: 0,
    })
}

/// The step of a sum or a difference.
fn step_of_sum(
    first: usize,
    line: u64,
    target: usize,
    from: usize,
    minus: bool,
    number: u64,
) -> Result<TaskStep, NoMemory>
    ensures { IfOk result (λ made. made ≡ meant.step_of [] first (sums_at line target from minus number)) }
{
    let into = local_number(first, target)?;
    let from = TaskArg::Local(local_number(first, from)?);
    let add = added(minus, number)?;
    Ok(TaskStep::Set {
        line,
        into,
        from,
        add,
    })
}

/// The step of a command, behind the steps so far. No block stands in a task.
fn add_step(
    made: &mut Vec<TaskStep>,
    places: &[usize],
    first: usize,
    stmt: &ResolvedStmt,
) -> Result<(), NoMemory>
    ensures { OnOk result (made.new.items ≡ made.old.items ++ steps_of places.now first (resolved_before stmt.now no_statement)) }
{
    match stmt {
        ResolvedStmt::Call {
            line,
            target,
            object,
            operation,
            args,
        } => {
            let args = args.items();
            let step = step_of_call(places, first, *line, *target, *object, *operation, args)?;
            put(made, step)
        }
        ResolvedStmt::Set { line, target, from } => {
            let step = step_of_set(first, *line, *target, from)?;
            put(made, step)
        }
        ResolvedStmt::Sum {
            line,
            target,
            from,
            minus,
            number,
        } => {
            let step = step_of_sum(first, *line, *target, *from, *minus, *number)?;
            put(made, step)
        }
        _ => Ok(()),
    }
}

fn put(made: &mut Vec<TaskStep>, step: TaskStep) -> Result<(), NoMemory>
    ensures { OnOk result (made.new.items ≡ made.old.items ++ step ∷ []) }
{
    made.push(step)?;
    Ok(())
}

/// A task's steps.
fn steps_of(
    alloc: Global,
    places: &[usize],
    first: usize,
    steps: &ResolvedStmts,
) -> Result<Steplist, NoMemory>
    ensures { IfOk result (λ made. made ≡ steps_of places.now first steps.now) }
{
    let mut made = Vec::new(alloc);
    for step in steps.items() {
        add_step(&mut made, places, first, step)?;
    }
    Ok(Steplist::from_vec(made))
}

/// A task, whose first local has this place.
fn task_of(
    alloc: Global,
    places: &[usize],
    first: usize,
    task: &ResolvedTask,
) -> Result<NamedTask, NoMemory>
    ensures { IfOk result (λ made. made ≡ meant.task task.now.name task.now.locals (steps_of places.now first task.now.steps)) }
{
    let name = task.name.copy(alloc)?;
    let locals = narrow(task.locals)?;
    let steps = steps_of(alloc, places, first, &task.steps)?;
    Ok(NamedTask::new(name, locals, steps))
}

/// The tasks of a block over the queues at these places. Behind each task's name stand its locals, and then those of the next task behind
/// both names.
pub(crate) fn tasks_of(
    alloc: Global,
    places: &[usize],
    first: usize,
    tasks: &ResolvedTasks,
) -> Result<Vec<NamedTask>, NoMemory>
    ensures { IfOk result (λ made. made.items ≡ tasks_from tasks.now places.now first) }
{
    let mut made = Vec::new(alloc);
    let mut first = first;
    for task in tasks.items() {
        made.push(task_of(alloc, places, first, task)?)?;
        first = next_place(first)?;
    }
    Ok(made)
}

/// The place behind this one.
pub(crate) fn next_place(place: usize) -> Result<usize, NoMemory>
    ensures { IfOk result (λ made. made ≡ place + 1) }
{
    match place.checked_add(1) {
        Some(next) => Ok(next),
        None => Err(NoMemory),
    }
}
