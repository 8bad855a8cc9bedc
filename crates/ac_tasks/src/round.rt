//! A round of a worker.
ghost use Rattle.std.specs.Prelude.{◌≡◌, ◌<◌, ◌≤◌, ℕ, true, false, Some, IfNone, IfSome, length};
ghost use Rattle.ac_history.specs.Blocks.{IsComplete, present};
ghost use Rattle.ac_history.specs.Histories.{is_able};
ghost use Rattle.ac_tasks.specs.Rounds.{IsRound};

use ac_book::Book;

/// The first of these tasks that is able.
fn first_able(book: &Book, from: u32, to: u32) -> Option<u32>
    requires { to ≤ length book.now.code }
    ensures able { IfSome result (λ task. (task < length book.now.code) × (is_able (present book.now) task ≡ true)) }
    ensures none { IfNone result ((task : ℕ) → from ≤ task → task < to → is_able (present book.now) task ≡ false) }
{
    for task in from..to {
        if book.able(task) {
            return Some(task);
        }
    }
    None
}

/// The worker's own task where it is able, else the next able one.
pub(crate) fn next_able(book: &Book, own: u32) -> Option<u32>
    ensures own { own < length book.now.code → is_able (present book.now) own ≡ true → result ≡ Some own }
    ensures able { IfSome result (λ task. (task < length book.now.code) × (is_able (present book.now) task ≡ true)) }
    ensures none { IfNone result (IsComplete book.now) }
{
    let tasks = book.tasks();
    if own < tasks && book.able(own) {
        return Some(own);
    }
    if let Some(task) = first_able(book, own, tasks) {
        return Some(task);
    }
    first_able(book, 0, own.min(tasks))
}

/// Turns the worker's own task where it is able, else the next able one. False where none is able.
pub(crate) fn round(book: &mut Book, own: u32) -> bool
    ensures { IsRound book.old book.new result }
{
    let Some(task) = next_able(book, own) else {
        return false;
    };
    book.turn(task);
    true
}
