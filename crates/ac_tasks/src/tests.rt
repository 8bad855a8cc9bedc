ghost use Rattle.std.specs.Prelude.{◌≡◌, ◌∷◌, [], IfOk, length};
ghost use Rattle.ac_history.specs.declared.code.TaskArg.TheVariants as arg;
ghost use Rattle.ac_history.specs.declared.code.TaskStep.TheVariants as step;

use super::*;
use ac_base::{Limit, NoMemory};
use ac_book::{Book, Entry, Reply, Steplist, TaskArg, TaskCode, TaskStep};
use ac_queue::{AnyQueue, Queue};
use std::alloc::Global;
use std::sync::atomic::{AtomicU64, Ordering};
use std::test::Fail;

fn enqueue(line: u64, item: i64) -> TaskStep
    ensures { result ≡ step.Enqueue line 0 (arg.Number item) }
{
    TaskStep::Enqueue {
        line,
        queue: 0,
        item: TaskArg::Number(item),
    }
}

fn dequeue(line: u64) -> TaskStep
    ensures { result ≡ step.Dequeue line 0 None }
{
    TaskStep::Dequeue {
        line,
        queue: 0,
        into: None,
    }
}

/// A task without locals, of two steps.
fn two_steps(alloc: Global, first: TaskStep, second: TaskStep) -> Result<TaskCode, NoMemory>
    ensures { IfOk result (λ made. made ≡ record { locals = 0; steps = first ∷ second ∷ [] }) }
{
    let mut steps = Vec::new(alloc);
    steps.push(first)?;
    steps.push(second)?;
    Ok(TaskCode {
        locals: 0,
        steps: Steplist::from_vec(steps),
    })
}

/// Through a queue of one item, one task puts two items in, the other takes them out: they go by turns.
fn by_turns(alloc: Global) -> Result<Book, NoMemory> {
    let mut queues = Vec::new(alloc);
    queues.push(AnyQueue::Plain(Queue::new(alloc, Limit::Bounded(1))?))?;
    let mut code = Vec::new(alloc);
    code.push(two_steps(alloc, enqueue(6, 1), enqueue(7, 2))?)?;
    code.push(two_steps(alloc, dequeue(11), dequeue(12))?)?;
    Book::prepare(alloc, queues, code)
}

/// Whether this is the only legal history of that block.
fn is_by_turns(history: &[Entry]) -> bool {
    let only = [
        entry(0, 0, Reply::Done),
        entry(1, 0, Reply::Number(1)),
        entry(0, 1, Reply::Done),
        entry(1, 1, Reply::Number(2)),
    ];
    history == only.as_slice()
}

fn entry(task: u32, place: u32, reply: Reply) -> Entry {
    Entry { task, place, reply }
}

#[test]
fn workers_bring_a_block_to_its_end(rt: HostRuntime) -> Result<(), Fail> {
    let done = run_block(
        &rt,
        rt.alloc(),
        by_turns(rt.alloc()).ok().ok_or("no memory")?,
        &FreeGate,
    )
    .ok()
    .ok_or("no memory")?;
    assert!(rt; is_by_turns(done.history()));
    Ok(())
}

#[test]
fn a_block_without_tasks_has_ended(rt: HostRuntime) -> Result<(), Fail> {
    let book = Book::prepare(rt.alloc(), Vec::new(rt.alloc()), Vec::new(rt.alloc()))
        .ok()
        .ok_or("no memory")?;
    let done = run_block(&rt, rt.alloc(), book, &FreeGate)
        .ok()
        .ok_or("no memory")?;
    assert!(rt; done.history().is_empty());
    Ok(())
}

const LOOKS: u64 = 100_000_000;

/// A gate at which the first two workers meet: the second is held until the first has come to it, the first until the second has
/// come twice, which it does after a turn. So they meet only in two threads.
#[derive(Drop)]
struct Meeting {
    first: AtomicU64,
    second: AtomicU64,
    missed: AtomicU64,
}

impl Meeting {
    fn new() -> Meeting {
        Meeting {
            first: AtomicU64::new(0),
            second: AtomicU64::new(0),
            missed: AtomicU64::new(0),
        }
    }

    /// Whether both workers came, and neither was held to the end of its looks.
    fn was_held(&self) -> bool {
        let first = self.first.load(Ordering::SeqCst);
        let second = self.second.load(Ordering::SeqCst);
        first > 0 && second > 0 && self.missed.load(Ordering::SeqCst) == 0
    }
}

impl Gate for Meeting {
    fn before(&self, worker: u64) {
        let met = match worker {
            1 => self.first.fetch_add(1, Ordering::SeqCst) > 0 || comes_to(&self.second, 2),
            2 => self.second.fetch_add(1, Ordering::SeqCst) > 0 || comes_to(&self.first, 1),
            _ => true,
        };
        if !met {
            self.missed.fetch_add(1, Ordering::SeqCst);
        }
    }
}

/// Looks until so many came, and no longer than so many looks.
fn comes_to(came: &AtomicU64, wanted: u64) -> bool {
    for _ in 0..LOOKS {
        if came.load(Ordering::SeqCst) >= wanted {
            return true;
        }
    }
    false
}

#[test]
fn a_worker_goes_on_while_another_is_held(rt: HostRuntime) -> Result<(), Fail> {
    let gate = Meeting::new();
    let done = run_block(
        &rt,
        rt.alloc(),
        by_turns(rt.alloc()).ok().ok_or("no memory")?,
        &gate,
    )
    .ok()
    .ok_or("no memory")?;
    assert!(rt; gate.was_held());
    assert!(rt; is_by_turns(done.history()));
    Ok(())
}
