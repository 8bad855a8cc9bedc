//! A task block while it runs.
ghost use Rattle.std.specs.Prelude.{◌≡◌, ◌<◌, ◌^◌, true, List, IfNone, IfSome, IfOk, map, length, get_or};
ghost use Rattle.std.specs.Bool.{Decides};
ghost use Rattle.std.specs.List.{All};
ghost use Rattle.ac_history.specs.declared.entry.Entry.{Entry};
ghost use Rattle.ac_history.specs.Blocks.{IsComplete, SameStart, commands_in, new_block, opening, present, with_entries};
ghost use Rattle.ac_history.specs.Histories.{IsLegal, entries_of, is_able, outcome, turn_told};
ghost use Rattle.ac_history.specs.States.{TaskState};
ghost use Rattle.ac_book.specs.Books.{CodeFits};
ghost use Rattle.ac_queue.specs.Shared.{shared};

use crate::copies::{copy_entries, copy_queues, copy_tasks};
use crate::prepare::{begin, items_added, reserve_all, steps_in};
use crate::same::{same_code, same_queues};
use crate::step::would_wait;
use crate::task::{Task, take_turn};
use ac_base::NoMemory;
use ac_history::{Entry, TaskCode, Turn};
use ac_queue::AnyQueue;
use std::alloc::Global;
use std::marker::Model;

/// The queues and tasks of a block with the history of what was done. Contracts see how it began, and the
/// history: its replay is what the queues, locals and places are.
#[derive(Drop)]
pub struct Book {
    opened: Vec<AnyQueue>,
    queues: Vec<AnyQueue>,
    tasks: Vec<Task>,
    history: Vec<Entry>,
}

impl Model for Book {
    ghost use Rattle.std.specs.Prelude.{map};
    ghost use Rattle.std.specs.Vec.{vec_capacity};
    ghost use Rattle.ac_history.specs.Blocks.{Block, coded_block};
    ghost use Rattle.ac_book.specs.Books.{IsBook, block_of};
    ghost use Rattle.ac_queue.specs.Shared.{shared};

    ghost Value = { Block };

    ghost coded = { coded_block };

    ghost view = { λ b. block_of b.opened.items b.tasks.items b.history.items };

    ghost invariant = { λ b. IsBook (map shared b.opened.items) b.queues.items b.tasks.items b.history.items (vec_capacity b.history) };
}

impl Book {
    /// The block before its first turn, with all the memory that it will take.
    pub fn prepare(
        alloc: Global,
        queues: Vec<AnyQueue>,
        code: Vec<TaskCode>,
    ) -> Result<Book, NoMemory>
        requires fits { All (CodeFits (map shared queues.items)) code.items }
        requires few_tasks { length code.items < 2 ^ 32 }
        requires few_steps { All (λ task. length task.steps < 2 ^ 32) code.items }
        ensures { IfOk result (λ made. made ≡ new_block (map shared queues.items) code.items) }
    {
        let mut queues = queues;
        let opened = copy_queues(alloc, &queues)?;
        reserve_all(&mut queues, items_added(&code)?)?;
        let history = Vec::with_capacity(alloc, steps_in(&code)? as usize)?;
        let tasks = begin(alloc, code)?;
        Ok(Book {
            opened,
            queues,
            tasks,
            history,
        })
    }

    /// What holds of every book, for proofs alone: its history is legal.
    pub fn law(&self)
        ensures { IsLegal (opening self.now) self.now.history }
    {
        let _history = &self.history;
    }

    pub fn tasks(&self) -> u32
        ensures { result ≡ length self.now.code }
    {
        self.tasks.len() as u32
    }

    /// The steps of all tasks together: the history has room for each.
    pub fn commands(&self) -> u64
        ensures { result ≡ commands_in self.now.code }
    {
        self.history.capacity() as u64
    }

    /// What was done, in order.
    pub fn history(&self) -> &[Entry]
        ensures { result.now ≡ self.now.history }
    {
        &self.history
    }

    /// How many steps of the task are done.
    pub fn next_place(&self, task: u32) -> u32
        requires { task < length self.now.code }
        ensures { (d : TaskState) → result ≡ (get_or (present self.now).tasks task d).place }
    {
        self.tasks[task as usize].place()
    }

    /// Whether the task has a next step, and it wouldn't wait.
    pub fn able(&self, task: u32) -> bool
        requires { task < length self.now.code }
        ensures { result ≡ is_able (present self.now) task }
    {
        let own = &self.tasks[task as usize];
        match own.next() {
            None => false,
            Some(step) => !would_wait(step, &self.queues, own.locals()),
        }
    }

    /// Does the task's next step, if there is one and it wouldn't wait.
    pub fn turn(&mut self, task: u32) -> Turn
        requires { task < length self.old.code }
        ensures told { result ≡ turn_told (outcome (present self.old) task) }
        ensures history { self.new ≡ with_entries self.old (entries_of (outcome (present self.old) task)) }
    {
        match take_turn(&mut self.tasks[task as usize], task, &mut self.queues) {
            Err(told) => told,
            Ok(entry) => {
                self.history.push_reserved(entry);
                Turn::Ran
            }
        }
    }

    /// Makes turns until no task is able.
    pub fn finish(&mut self)
        ensures complete { IsComplete self.new }
        ensures history { (more : List Entry) × (self.new ≡ with_entries self.old more) }
    {
        while let Some(task) = self.first_able() {
            self.turn(task);
        }
    }

    fn first_able(&self) -> Option<u32>
        ensures able { IfSome result (λ task. (task < length self.now.code) × (is_able (present self.now) task ≡ true)) }
        ensures none { IfNone result (IsComplete self.now) }
    {
        for task in 0..self.tasks() {
            if self.able(task) {
                return Some(task);
            }
        }
        None
    }

    /// Whether both have the same code, and had the same queues at first, whatever was done since.
    pub fn same_start(&self, other: &Book) -> bool
        ensures { Decides result (SameStart self.now other.now) }
    {
        if !same_queues(&self.opened, &other.opened) {
            return false;
        }
        same_code(&self.tasks, &other.tasks)
    }

    /// The block again, as far as it has come, with room for all that it has still to do.
    pub fn copy(&self) -> Result<Book, NoMemory>
        ensures { IfOk result (λ made. made ≡ self.now) }
    {
        let alloc = *self.history.allocator();
        let opened = copy_queues(alloc, &self.opened)?;
        let queues = copy_queues(alloc, &self.queues)?;
        let tasks = copy_tasks(alloc, &self.tasks)?;
        let history = copy_entries(alloc, &self.history, self.history.capacity())?;
        Ok(Book {
            opened,
            queues,
            tasks,
            history,
        })
    }

    /// The queues as the history leaves them.
    pub fn close(self) -> Vec<AnyQueue>
        ensures { map shared result.items ≡ (present self).queues }
    {
        self.queues
    }
}
