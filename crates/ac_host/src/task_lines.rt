//! The lines of a block of tasks: one for each step that was done, and one for each task that isn't over.
ghost use Rattle.std.specs.Prelude.{◌≡◌, ◌∷◌, [], ◌++◌, Some, OnOk, length};
ghost use Rattle.std.specs.List.{slice_get};
ghost use Rattle.ac_history.specs.Blocks.{present};
ghost use Rattle.ac_calls.specs.Answers.{answer_text, line_text, lines_text, task_line};
ghost use Rattle.ac_meaning.specs.TaskBlocks.{block_lines, history_lines, line_of, lines_at, reply_answer, stalled_lines};
ghost use Rattle.ac_host.specs.TaskLines.{shown};
ghost use Rattle.ac_host.specs.Writing.{Writes};

use crate::end::HostEnd;
use crate::line::{append, append_reason, begin_line, end_line};
use crate::named_task::NamedTask;
use ac_base::NoMemory;
use ac_book::{Book, Entry, Reply, TaskStep};
use ac_io::{Sink, pass};
use itoa::Buffer;

fn line_of(step: TaskStep) -> u64
    ensures { result ≡ line_of step }
{
    match step {
        TaskStep::Enqueue { line, .. } => line,
        TaskStep::Dequeue { line, .. } => line,
        TaskStep::High { line, .. } => line,
        TaskStep::CurrentUse { line, .. } => line,
        TaskStep::PeakUse { line, .. } => line,
        TaskStep::Set { line, .. } => line,
    }
}

/// Adds what a step answered, or that it is stalled.
fn append_answer(text: &mut Vec<u8>, answer: Option<Reply>) -> Result<(), NoMemory>
    ensures { OnOk result (text.new.items ≡ text.old.items ++ answer_text (shown answer)) }
{
    match answer {
        None => append(text, "stalled"),
        Some(Reply::Done) => append(text, "ok"),
        Some(Reply::Number(number)) => append(text, Buffer::new().format(number)),
        Some(Reply::No) => append(text, "false"),
        Some(Reply::Raised(reason)) => append_reason(text, reason),
    }
}

/// Makes the text the line of a task's step.
fn step_line(
    text: &mut Vec<u8>,
    number: u64,
    name: &[u8],
    answer: Option<Reply>,
) -> Result<(), NoMemory>
    ensures { OnOk result (text.new.items ≡ line_text (task_line number name.now (shown answer))) }
{
    begin_line(text, number)?;
    text.extend_from_slice(name)?;
    append(text, ": ")?;
    append_answer(text, answer)?;
    end_line(text)
}

fn write_answer<K: Sink>(
    number: u64,
    name: &[u8],
    answer: Option<Reply>,
    text: &mut Vec<u8>,
    sink: &mut K,
) -> Result<(), HostEnd>
    ensures { Writes K.held K.faults K.room K.counts_failures sink.old sink.new
        (lines_text (task_line number name.now (shown answer) ∷ [])) result }
{
    step_line(text, number, name, answer)?;
    pass(text, sink)?;
    Ok(())
}

/// Writes the line of the task's step at this place, if there is one.
fn write_step<K: Sink>(
    task: &NamedTask,
    place: u32,
    answer: Option<Reply>,
    text: &mut Vec<u8>,
    sink: &mut K,
) -> Result<(), HostEnd>
    ensures { Writes K.held K.faults K.room K.counts_failures sink.old sink.new
        (lines_text (lines_at (Some task.now) place (shown answer))) result }
{
    match task.steps().get(place as usize) {
        Some(step) => write_answer(line_of(*step), task.name(), answer, text, sink),
        None => Ok(()),
    }
}

/// Writes the line of a step that was done.
fn write_entry<K: Sink>(
    tasks: &[NamedTask],
    entry: Entry,
    text: &mut Vec<u8>,
    sink: &mut K,
) -> Result<(), HostEnd>
    ensures { Writes K.held K.faults K.room K.counts_failures sink.old sink.new
        (lines_text (lines_at (slice_get tasks.now entry.task) entry.place (reply_answer entry.reply))) result }
{
    match tasks.get(entry.task as usize) {
        Some(task) => write_step(task, entry.place, Some(entry.reply), text, sink),
        None => Ok(()),
    }
}

fn write_history<K: Sink>(
    tasks: &[NamedTask],
    history: &[Entry],
    text: &mut Vec<u8>,
    sink: &mut K,
) -> Result<(), HostEnd>
    ensures { Writes K.held K.faults K.room K.counts_failures sink.old sink.new
        (lines_text (history_lines tasks.now history.now)) result }
{
    for entry in history {
        write_entry(tasks, *entry, text, sink)?;
    }
    Ok(())
}

/// Writes that the next steps of the tasks that aren't over are stalled.
fn write_stalled<K: Sink>(
    tasks: &[NamedTask],
    book: &Book,
    text: &mut Vec<u8>,
    sink: &mut K,
) -> Result<(), HostEnd>
    requires { length tasks.now ≡ length book.now.code }
    ensures { Writes K.held K.faults K.room K.counts_failures sink.old sink.new
        (lines_text (stalled_lines tasks.now (present book.now).tasks)) result }
{
    for task in 0..book.tasks() {
        let place = book.next_place(task);
        write_step(&tasks[task as usize], place, None, text, sink)?;
    }
    Ok(())
}

/// Writes the lines of a block that has ended.
pub(crate) fn write_block<K: Sink>(
    tasks: &[NamedTask],
    book: &Book,
    text: &mut Vec<u8>,
    sink: &mut K,
) -> Result<(), HostEnd>
    requires { length tasks.now ≡ length book.now.code }
    ensures { Writes K.held K.faults K.room K.counts_failures sink.old sink.new
        (lines_text (block_lines tasks.now book.now)) result }
{
    write_history(tasks, book.history(), text, sink)?;
    write_stalled(tasks, book, text, sink)
}
