//! A task in memory.
ghost use Rattle.std.specs.Prelude.{◌≡◌, ◌+◌, ◌<◌, ℕ, IfSome, OnSome, IfErr, IfOk, ◌^◌, map, length};
ghost use Rattle.std.specs.Bool.{Decides};
ghost use Rattle.ac_history.specs.States.{begun};
ghost use Rattle.ac_history.specs.Steps.{advanced, kept, target_of};
ghost use Rattle.ac_book.specs.Running.{Fits, HaveSpare, IsTarget, added_next};
ghost use Rattle.ac_queue.specs.Shared.{shared};
ghost use Rattle.ac_book.specs.Tasks.{TakesTurn, code_of, next_of};

use crate::same::same_steps;
use crate::step::run;
use ac_base::NoMemory;
use ac_history::{Entry, Reply, Steplist, TaskCode, TaskStep, Turn};
use ac_queue::AnyQueue;
use std::alloc::Global;
use std::marker::Model;

#[derive(Drop)]
pub(crate) struct Task {
    steps: Steplist,
    place: u32,
    locals: Vec<i64>,
}

impl Model for Task {
    ghost use Rattle.ac_history.specs.States.{TaskState};
    ghost use Rattle.ac_book.specs.Tasks.{IsTask, coded_task, task_of};

    ghost Value = { TaskState };

    ghost coded = { coded_task };

    ghost view = { λ t. task_of t.steps t.place t.locals.items };

    ghost invariant = { λ t. IsTask (task_of t.steps t.place t.locals.items) };
}

impl Task {
    pub(crate) fn new(alloc: Global, code: TaskCode) -> Result<Task, NoMemory>
        requires { length code.steps < 2 ^ 32 }
        ensures { IfOk result (λ made. made ≡ begun code) }
    {
        let mut locals = Vec::new(alloc);
        locals.resize(code.locals as usize, 0)?;
        Ok(Task {
            steps: code.steps,
            place: 0,
            locals,
        })
    }

    /// The task again, with its place and its locals.
    pub(crate) fn copy(&self, alloc: Global) -> Result<Task, NoMemory>
        ensures { IfOk result (λ made. made ≡ self.now) }
    {
        Ok(Task {
            steps: self.steps.copy(alloc)?,
            place: self.place,
            locals: Vec::from_slice(alloc, &self.locals)?,
        })
    }

    /// Whether both have as many locals and the same steps, wherever they are.
    pub(crate) fn has_same_code(&self, other: &Task) -> bool
        ensures { Decides result (code_of self.now ≡ code_of other.now) }
    {
        if self.locals().len() != other.locals().len() {
            return false;
        }
        same_steps(self.steps(), other.steps())
    }

    pub(crate) fn place(&self) -> u32
        ensures { result ≡ self.now.place }
    {
        self.place
    }

    pub(crate) fn locals(&self) -> &[i64]
        ensures { result.now ≡ self.now.locals }
    {
        &self.locals
    }

    pub(crate) fn steps(&self) -> &[TaskStep]
        ensures { result.now ≡ self.now.steps }
    {
        self.steps.items()
    }

    pub(crate) fn next(&self) -> Option<TaskStep>
        ensures next { result ≡ next_of self.now }
        ensures within { OnSome result (self.now.place < length self.now.steps) }
    {
        self.steps.items().get(self.place as usize).copied()
    }

    /// Goes past its next step, and keeps what it answered.
    fn advance(&mut self, step: TaskStep, answer: Reply)
        requires place { self.old.place < length self.old.steps }
        requires target { IsTarget (length self.old.locals) (target_of step) }
        ensures { self.new ≡ advanced self.old step answer }
    {
        keep(&mut self.locals, target(step), answer);
        self.place += 1;
    }
}

/// The local that takes the reply.
fn target(step: TaskStep) -> Option<u32>
    ensures { result ≡ target_of step }
{
    match step {
        TaskStep::Enqueue { .. } => None,
        TaskStep::Dequeue { into, .. } => into,
        TaskStep::High { into, .. } => into,
        TaskStep::CurrentUse { into, .. } => into,
        TaskStep::PeakUse { into, .. } => into,
        TaskStep::Set { into, .. } => Some(into),
    }
}

/// Puts a number into the local, if there is one.
fn keep(locals: &mut [i64], target: Option<u32>, answer: Reply)
    requires { IsTarget (length locals.old) target }
    ensures { locals.new ≡ kept target answer locals.old }
{
    if let (Some(local), Reply::Number(number)) = (target, answer) {
        locals[local as usize] = number;
    }
}

/// A turn of the task with this number: the entry of what was done.
pub(crate) fn take_turn(
    task: &mut Task,
    number: u32,
    queues: &mut [AnyQueue],
) -> Result<Entry, Turn>
    requires fits { IfSome (next_of task.old) (λ step. Fits (map shared queues.old) (length task.old.locals) step) }
    requires spare { HaveSpare (added_next (next_of task.old)) queues.old }
    ensures turn { TakesTurn (next_of task.old) task.old (map shared queues.old) number task.new (map shared queues.new) result }
    ensures spare { (n : ℕ) → HaveSpare (n + added_next (next_of task.old)) queues.old → HaveSpare n queues.new }
    ensures held_up { IfErr result (λ _. (n : ℕ) → HaveSpare n queues.old → HaveSpare n queues.new) }
{
    let Some(step) = task.next() else {
        return Err(Turn::Ended);
    };
    let Some(reply) = run(step, queues, task.locals()) else {
        return Err(Turn::Waits);
    };
    let place = task.place();
    task.advance(step, reply);
    Ok(Entry {
        task: number,
        place,
        reply,
    })
}
