//! How an input of at most the greatest length is answered.
ghost use Rattle.std.specs.Prelude.{◌≡◌, ◌≢◌, ◌≤◌, length};
ghost use Rattle.ac_meaning.specs.Meanings.{IsMeaningBy, ran, refused_at};
ghost use Rattle.ac_meaning.specs.declared.limits.TheConstants.{INPUT_LIMIT};
ghost use Rattle.ac_top.specs.Answers.{Answers, Tells};
ghost use Rattle.ac_top.specs.Inputs.{fault_meaning};
ghost use Rattle.ac_top.specs.Modes.{limit_of};
ghost use Rattle.ac_top.specs.Status.{Counted, Writes};

use crate::line::{refusal_line, refuse};
use crate::mode::{Mode, Task};
use crate::running::answer_start;
use crate::start::{InputFault, checked, fault_line, read_start};
use crate::status::Status;
use ac_check::Checked;
use ac_host::{Host, HostEnd};
use ac_io::Sink;
use ac_syntax::{RefusalKind, ScriptFault};
use ac_tasks::Gate;
use std::alloc::Global;
use std::sync::Wait;
use std::thread::Threads;

/// Writes what is wrong with an input.
fn refuse_input<K: Sink>(alloc: Global, fault: InputFault, sink: &mut K) -> Status
    ensures writes { Writes (fault_meaning fault) (K.held sink.old) (K.held sink.new) (K.room sink.old) result }
    ensures counted { Counted (K.counts_failures sink.old) (K.faults sink.old) (K.faults sink.new) result }
    ensures kind { (result ≢ Status.Usage) × (result ≢ Status.ReadFault) }
{
    match fault_line(alloc, fault) {
        Ok(text) => refuse(sink, &text),
        Err(_) => Status::NoMemory,
    }
}

/// Answers the script that an input holds, or refuses the input.
pub fn answer_input<R: Threads + Wait + Sync, K: Sink, G: Gate + Sync>(
    rt: &R,
    alloc: Global,
    task: &Task,
    input: Vec<u8>,
    sink: &mut K,
    gate: &G,
) -> Status
    requires { length input.items ≤ limit_of task.now }
    ensures answers { Answers (Mode.Read task.now) input.items (K.held sink.old) (K.held sink.new) (K.room sink.old) result }
    ensures counted { Counted (K.counts_failures sink.old) (K.faults sink.old) (K.faults sink.new) result }
    ensures kind { (result ≢ Status.Usage) × (result ≢ Status.ReadFault) }
{
    let read = read_start(alloc, task.resumes(), &input);
    drop(input);
    match read {
        Ok(start) => answer_start(rt, alloc, task, &start, sink, gate),
        Err(fault) => match fault {
            InputFault::NoMemory => Status::NoMemory,
            _ => refuse_input(alloc, fault, sink),
        },
    }
}

/// Runs a script by one task.
fn run_serially<K: Sink>(alloc: Global, script: &Checked, sink: &mut K) -> Status
    ensures writes { Writes (ran script.now) (K.held sink.old) (K.held sink.new) (K.room sink.old) result }
    ensures counted { Counted (K.counts_failures sink.old) (K.faults sink.old) (K.faults sink.new) result }
    ensures kind { (result ≢ Status.Usage) × (result ≢ Status.ReadFault) }
{
    match Host::run_serial(alloc, script, sink) {
        Ok(_) => Status::Done,
        Err(HostEnd::WriteFault) => Status::WriteFault,
        Err(HostEnd::NoMemory) => Status::NoMemory,
    }
}

/// Writes where and why a text is refused.
fn refuse_at<K: Sink>(alloc: Global, line: u64, kind: RefusalKind, sink: &mut K) -> Status
    ensures writes { Writes (refused_at line kind) (K.held sink.old) (K.held sink.new) (K.room sink.old) result }
    ensures counted { Counted (K.counts_failures sink.old) (K.faults sink.old) (K.faults sink.new) result }
    ensures kind { (result ≢ Status.Usage) × (result ≢ Status.ReadFault) }
{
    match refusal_line(alloc, line, kind) {
        Ok(text) => refuse(sink, &text),
        Err(_) => Status::NoMemory,
    }
}

/// Runs the script that an input spells by one task, or refuses it.
pub fn run_input<K: Sink>(alloc: Global, input: &[u8], sink: &mut K) -> Status
    requires { length input.now ≤ INPUT_LIMIT }
    ensures { Tells (IsMeaningBy ran input.now) (K.held sink.old) (K.held sink.new) (K.room sink.old) result }
{
    match checked(alloc, input) {
        Ok(script) => run_serially(alloc, &script, sink),
        Err(ScriptFault::Refused { line, kind }) => refuse_at(alloc, line, kind, sink),
        Err(ScriptFault::NoMemory) => Status::NoMemory,
    }
}
