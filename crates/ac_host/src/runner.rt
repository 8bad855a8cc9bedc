//! What runs blocks of tasks.
ghost use Rattle.std.specs.Prelude.{◌≡◌, [], ℕ, List, length, IfOk};
ghost use Rattle.ac_history.specs.Blocks.{after_turns};
ghost use Rattle.ac_history.specs.Orders.{each_below, run_of};
ghost use Rattle.ac_host.specs.Runners.{IsRunBy};

use ac_base::NoMemory;
use ac_book::Book;
use std::alloc::Global;

/// What runs blocks of tasks to their end.
pub trait BlockRunner {
    /// The orders by which blocks may run.
    ghost allows: { List ℕ → Type 0 };

    /// What is asked of the runner itself.
    ghost is_sound: { Self → Type 0 };

    fn run_block(&self, alloc: Global, book: Book) -> Result<Book, NoMemory>
        requires sound { is_sound self.now }
        requires new { book.history ≡ [] }
        ensures { IfOk result (λ done. IsRunBy allows book done) };
}

/// All tasks have turns in rounds, one after another.
#[derive(Clone, Copy)]
pub struct InTurn;

impl BlockRunner for InTurn {
    ghost use Rattle.std.specs.Prelude.{◌≡◌, [], ⊤};

    ghost allows = { λ order. order ≡ [] };

    ghost is_sound = { λ _. ⊤ };

    fn run_block(&self, _alloc: Global, book: Book) -> Result<Book, NoMemory> {
        let mut book = book;
        turn_in_rounds(&mut book);
        Ok(book)
    }
}

/// As many rounds as there are commands.
fn turn_in_rounds(book: &mut Book)
    ensures { book.new ≡ run_of book.old [] }
{
    for _round in 0..book.commands() {
        turn_each(book);
    }
}

/// A turn of each task.
fn turn_each(book: &mut Book)
    ensures { book.new ≡ after_turns book.old (each_below (length book.old.code)) }
{
    for task in 0..book.tasks() {
        book.turn(task);
    }
}
