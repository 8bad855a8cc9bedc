//! Whether the numbers in the steps of tasks are those of queues and locals. In a script that can run they are.
ghost use Rattle.std.specs.Prelude.{◌≡◌, false, get_or, IfOk, map};
ghost use Rattle.std.specs.List.{list_all};
ghost use Rattle.ac_meaning.specs.TaskBlocks.{argument_fits, code_fits, is_ranked, queues_at, step_fits, target_fits};
ghost use Rattle.ac_objects.specs.World.{state_of};

use crate::named_task::NamedTask;
use ac_base::NoMemory;
use ac_book::{TaskArg, TaskStep};
use ac_objects::Objects;
use std::alloc::Global;

/// Of each queue, whether it is one by priority.
pub(crate) fn ranked(
    alloc: Global,
    objects: &Objects,
    places: &[usize],
) -> Result<Vec<bool>, NoMemory>
    ensures { IfOk result (λ made. made.items ≡ map is_ranked (queues_at (state_of objects.now) places.now)) }
{
    let mut made = Vec::new(alloc);
    for place in places {
        made.push(objects.is_ranked(*place))?;
    }
    Ok(made)
}

fn argument_fits(locals: u32, arg: TaskArg) -> bool
    ensures { result ≡ argument_fits locals arg }
{
    match arg {
        TaskArg::Number(_) => true,
        TaskArg::Local(local) => local < locals,
    }
}

fn target_fits(locals: u32, target: Option<u32>) -> bool
    ensures { result ≡ target_fits locals target }
{
    match target {
        Some(local) => local < locals,
        None => true,
    }
}

fn is_ranked(ranked: &[bool], queue: u32) -> bool
    ensures { result ≡ get_or ranked.now queue false }
{
    match ranked.get(queue as usize) {
        Some(is_so) => *is_so,
        None => false,
    }
}

fn step_fits(ranked: &[bool], locals: u32, step: TaskStep) -> bool
    ensures { result ≡ step_fits ranked.now locals step }
{
    let queues = ranked.len();
    match step {
        TaskStep::Enqueue { queue, item, .. } => {
            (queue as usize) < queues && argument_fits(locals, item)
        }
        TaskStep::Dequeue { queue, into, .. } => {
            (queue as usize) < queues && target_fits(locals, into)
        }
        TaskStep::High {
            queue,
            at_least,
            into,
            ..
        } => {
            is_ranked(ranked, queue) && argument_fits(locals, at_least) && target_fits(locals, into)
        }
        TaskStep::CurrentUse { queue, into, .. } => {
            (queue as usize) < queues && target_fits(locals, into)
        }
        TaskStep::PeakUse { queue, into, .. } => {
            (queue as usize) < queues && target_fits(locals, into)
        }
        TaskStep::Set { into, from, .. } => into < locals && argument_fits(locals, from),
    }
}

fn task_fits(ranked: &[bool], task: &NamedTask) -> bool
    ensures { result ≡ code_fits ranked.now task.now.code }
{
    let locals = task.locals();
    task.steps()
        .iter()
        .all(|step| step_fits(ranked, locals, *step))
}

pub(crate) fn all_fit(ranked: &[bool], tasks: &[NamedTask]) -> bool
    ensures { result ≡ list_all (λ task. code_fits ranked.now task.code) tasks.now }
{
    tasks.iter().all(|task| task_fits(ranked, task))
}
