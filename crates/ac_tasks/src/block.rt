//! A task block, run by workers.
ghost use Rattle.std.specs.Prelude.{◌≡◌, ◌<◌, ℕ, IfOk, Some, length};
ghost use Rattle.std.specs.List.{slice_get};
ghost use Rattle.ac_tasks.specs.Ends.{IsRunOf};

use crate::gate::Gate;
use crate::round::round;
use ac_base::NoMemory;
use ac_book::Book;
use std::alloc::Global;
use std::sync::{Mutex, Wait};
use std::thread;
use std::thread::Threads;

/// Runs a block to its end, with a worker in a thread of its own for each task. Each turn of a task is made under the one lock.
/// Where no thread can be made, the workers run one after another.
pub fn run_block<R: Threads + Wait + Sync, G: Gate + Sync>(
    rt: &R,
    alloc: Global,
    book: Book,
    gate: &G,
) -> Result<Book, NoMemory>
    ensures { IfOk result (λ done. IsRunOf book done) }
{
    let kept = book.copy()?;
    let rounds = book.commands();
    let mut workers = numbers(alloc, book.tasks())?;
    let block = Mutex::new(book);
    turn_all(rt, &block, gate, &mut workers, rounds);
    Ok(ended(block.into_inner(), kept))
}

/// The numbers of the tasks, in order.
fn numbers(alloc: Global, tasks: u32) -> Result<Vec<u32>, NoMemory>
    ensures len { IfOk result (λ made. length made.items ≡ tasks) }
    ensures each { IfOk result (λ made. (task : ℕ) → task < tasks → slice_get made.items task ≡ Some task) }
{
    let mut workers = Vec::new(alloc);
    for task in 0..tasks {
        workers.push(task)?;
    }
    Ok(workers)
}

/// Lets a worker for each of the tasks turn tasks, each in a thread of its own.
fn turn_all<R: Threads + Wait + Sync, G: Gate + Sync>(
    rt: &R,
    block: &Mutex<Book>,
    gate: &G,
    workers: &mut [u32],
    rounds: u64,
) {
    let threads = workers.len().max(1);
    thread::for_each_mut(
        rt,
        workers,
        threads,
        &|_, own| work(rt, block, gate, *own, rounds),
    );
}

/// Turns the worker's own task where it is able, else another one, until none is able or the rounds are over.
fn work<R: Wait, G: Gate>(rt: &R, block: &Mutex<Book>, gate: &G, own: u32, rounds: u64) {
    for _ in 0..rounds {
        gate.before(own as u64 + 1);
        if !round(&mut block.lock(rt), own) {
            return;
        }
    }
}

/// What the workers left, run to its end, or else the block as it was kept. Of what comes out of a lock no more is known than that
/// it is a block, so it is compared.
fn ended(left: Book, kept: Book) -> Book
    ensures { IsRunOf kept result }
{
    let mut book = if left.same_start(&kept) { left } else { kept };
    book.finish();
    book.law();
    book
}
