//! Blocks of tasks that may run by any order.
ghost use Rattle.std.specs.Prelude.{◌≡◌, [], ⊤, IfOk};
ghost use Rattle.ac_host.specs.Runners.{IsRunBy};

use crate::runner::BlockRunner;
use ac_base::NoMemory;
use ac_book::Book;
use ac_tasks::{Gate, run_block};
use std::alloc::Global;
use std::sync::Wait;
use std::thread::Threads;

/// A call that runs blocks by whatever orders.
#[derive(Drop)]
pub(crate) struct ByCall<F: Fn(Book) -> Result<Book, NoMemory>> {
    pub(crate) run: F,
}

impl<F: Fn(Book) -> Result<Book, NoMemory>> BlockRunner for ByCall<F> {
    ghost use Rattle.std.specs.Prelude.{⊤};
    ghost use Rattle.ac_host.specs.Runners.{AnswersBy};

    ghost allows = { λ order. ⊤ };

    ghost is_sound = { λ runner. F.IsAlwaysCallable runner.run × AnswersBy (λ order. ⊤) (F.post runner.run) };

    fn run_block(&self, _alloc: Global, book: Book) -> Result<Book, NoMemory> {
        (self.run)(book)
    }
}

/// Runs a block with a worker for each task, in a thread of its own, and a gate that looks on.
pub(crate) fn run_in_threads<R: Threads + Wait + Sync, G: Gate + Sync>(
    rt: &R,
    alloc: Global,
    gate: &G,
    book: Book,
) -> Result<Book, NoMemory>
    ensures { book.history ≡ [] → IfOk result (λ done. IsRunBy (λ order. ⊤) book done) }
{
    run_block(rt, alloc, book, gate)
}
