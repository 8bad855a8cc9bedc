//! How a script is run on the state on which it begins.
ghost use Rattle.std.specs.Prelude.{◌≡◌, ◌≢◌, ◌++◌, ℕ, true, [], Err, IfOk};
ghost use Rattle.ac_calls.specs.Answers.{lines_text};
ghost use Rattle.ac_host.specs.Start.{IsAtStart};
ghost use Rattle.ac_host.specs.Writing.{Writes as HostWrites};
ghost use Rattle.ac_meaning.specs.Environment.{at_rest};
ghost use Rattle.ac_meaning.specs.Execution.{Orders, run_from};
ghost use Rattle.ac_meaning.specs.Meanings.{canonical, written};
ghost use Rattle.ac_objects.specs.World.{state_of};
ghost use Rattle.ac_plains.specs.declared.fault.ResumeFault.TheVariants.{Mismatch};
ghost use Rattle.ac_rules.specs.HasTasks.{has_tasks};
ghost use Rattle.ac_rules.specs.Resolved.{resolve};
ghost use Rattle.ac_rules.specs.Scopes.{with_decls};
ghost use Rattle.ac_snapshot.specs.Validity.{is_valid};
ghost use Rattle.ac_top.specs.Asks.{asking_of, question_refused};
ghost use Rattle.ac_top.specs.Answers.{RunsAs, Says};
ghost use Rattle.ac_top.specs.Beginnings.{BeginsAs, begins, mismatched, stops_at};
ghost use Rattle.ac_top.specs.Modes.{lines_behind, ran_from, started};
ghost use Rattle.ac_top.specs.Status.{Counted, Writes};

use crate::asking::{Ends, lines_behind, question_of, refused_line};
use crate::line::{refuse, state_line, tell};
use crate::mode::{Options, Task};
use crate::start::Start;
use crate::status::Status;
use ac_aggregate::AskFault;
use ac_base::NoMemory;
use ac_calls::Plains;
use ac_check::Checked;
use ac_host::{Host, HostEnd};
use ac_io::Sink;
use ac_objects::Objects;
use ac_plains::{ResumeFault, resume};
use ac_script::print;
use ac_syntax::{RefusalKind, Script};
use ac_tasks::Gate;
use std::alloc::Global;
use std::sync::Wait;
use std::thread::Threads;

/// The objects of a script's outermost declarations, with what a state has of them.
fn started(alloc: Global, script: &Checked, state: &Plains) -> Result<Objects, ResumeFault>
    requires { is_valid state.now ≡ true }
    ensures started { IfOk result (λ objects. state_of objects ≡ started state.now script.now) }
    ensures start { IfOk result (λ objects. IsAtStart (state_of objects)) }
    ensures begins { IfOk result (λ _. BeginsAs state.now script.now begins) }
    ensures mismatch { (line : ℕ) → result ≡ Err (Mismatch line) → BeginsAs state.now script.now (stops_at line) }
{
    let Ok(mut objects) = Host::started(alloc, script) else {
        return Err(ResumeFault::NoMemory);
    };
    let _text = script.script();
    match resume(&mut objects, script, state) {
        Ok(()) => Ok(objects),
        Err(fault) => {
            objects.end();
            Err(fault)
        }
    }
}

/// Runs the statements of a script that has a block of tasks, with each task in a thread of its own: no other one is handed to what may wait.
fn run_in_threads<R: Threads + Wait + Sync, K: Sink, G: Gate + Sync>(
    rt: &R,
    script: &Checked,
    objects: Objects,
    sink: &mut K,
    gate: &G,
) -> Result<Objects, HostEnd>
    requires tasks { has_tasks (resolve (with_decls [] script.now.decls) script.now.stmts) ≡ true }
    requires start { IsAtStart (state_of objects) }
    ensures { (orders : Orders)
        × HostWrites K.held K.faults K.room K.counts_failures sink.old sink.new
        (lines_text (run_from orders script.now (state_of objects)).lines) result
        × IfOk result (λ left. state_of left ≡ at_rest (run_from orders script.now (state_of objects)).after) }
{
    Host::run_from(rt, script, objects, sink, gate)
}

/// Runs the statements of a script, with each task of its blocks in a thread of its own where it has any.
fn run_on<R: Threads + Wait + Sync, K: Sink, G: Gate + Sync>(
    rt: &R,
    script: &Checked,
    objects: Objects,
    sink: &mut K,
    gate: &G,
) -> Result<Objects, HostEnd>
    requires { IsAtStart (state_of objects) }
    ensures { (orders : Orders)
        × HostWrites K.held K.faults K.room K.counts_failures sink.old sink.new
        (lines_text (run_from orders script.now (state_of objects)).lines) result
        × IfOk result (λ left. state_of left ≡ at_rest (run_from orders script.now (state_of objects)).after) }
{
    if script.has_tasks() {
        return run_in_threads(rt, script, objects, sink, gate);
    }
    Host::run_serial_from(script, objects, sink)
}

/// Writes what follows a run's lines, where the end left these objects.
fn write_behind<K: Sink>(
    alloc: Global,
    ends: &Ends,
    script: &Script,
    left: &Objects,
    sink: &mut K,
) -> Status
    ensures writes { Writes (written (lines_behind ends.now.audit (asking_of ends.now.question) ends.now.save script.now.decls (state_of left.now)))
        (K.held sink.old) (K.held sink.new) (K.room sink.old) result }
    ensures counted { Counted (K.counts_failures sink.old) (K.faults sink.old) (K.faults sink.new) result }
    ensures kind { (result ≢ Status.Usage) × (result ≢ Status.ReadFault) }
{
    match lines_behind(alloc, ends, &script.decls, left) {
        Ok(text) => tell(sink, &text),
        Err(NoMemory) => Status::NoMemory,
    }
}

/// Runs a script on these objects, and writes what follows its lines.
fn run_objects<R: Threads + Wait + Sync, K: Sink, G: Gate + Sync>(
    rt: &R,
    ends: &Ends,
    script: &Checked,
    objects: Objects,
    sink: &mut K,
    gate: &G,
) -> Status
    requires { IsAtStart (state_of objects) }
    ensures writes { (orders : Orders) × Writes (ran_from orders ends.now.audit (asking_of ends.now.question) ends.now.save script.now (state_of objects))
        (K.held sink.old) (K.held sink.new) (K.room sink.old) result }
    ensures counted { Counted (K.counts_failures sink.old) (K.faults sink.old) (K.faults sink.new) result }
    ensures kind { (result ≢ Status.Usage) × (result ≢ Status.ReadFault) }
{
    let alloc = objects.allocator();
    match run_on(rt, script, objects, sink, gate) {
        Ok(left) => {
            let status = write_behind(alloc, ends, script.script(), &left, sink);
            left.end();
            status
        }
        Err(HostEnd::WriteFault) => Status::WriteFault,
        Err(HostEnd::NoMemory) => Status::NoMemory,
    }
}

/// Writes which entry of a state matches none of a script's outermost names.
fn refuse_mismatch<K: Sink>(alloc: Global, line: u64, sink: &mut K) -> Status
    ensures writes { Writes (mismatched line) (K.held sink.old) (K.held sink.new) (K.room sink.old) result }
    ensures counted { Counted (K.counts_failures sink.old) (K.faults sink.old) (K.faults sink.new) result }
    ensures kind { (result ≢ Status.Usage) × (result ≢ Status.ReadFault) }
{
    match state_line(alloc, line, "mismatch") {
        Ok(text) => refuse(sink, &text),
        Err(_) => Status::NoMemory,
    }
}

/// Runs a script on the state on which it begins, or says which entry matches nothing.
fn run_start<R: Threads + Wait + Sync, K: Sink, G: Gate + Sync>(
    rt: &R,
    alloc: Global,
    ends: &Ends,
    start: &Start,
    sink: &mut K,
    gate: &G,
) -> Status
    requires { is_valid start.now.state ≡ true }
    ensures writes { RunsAs ends.now.audit (asking_of ends.now.question) ends.now.save start.now.state start.now.script
        (K.held sink.old) (K.held sink.new) (K.room sink.old) result }
    ensures counted { Counted (K.counts_failures sink.old) (K.faults sink.old) (K.faults sink.new) result }
    ensures kind { (result ≢ Status.Usage) × (result ≢ Status.ReadFault) }
{
    match started(alloc, &start.script, &start.state) {
        Ok(objects) => run_objects(rt, ends, &start.script, objects, sink, gate),
        Err(ResumeFault::Mismatch { line }) => refuse_mismatch(alloc, line, sink),
        Err(ResumeFault::NoMemory) => Status::NoMemory,
    }
}

/// Writes why a question is refused.
fn refuse_question<K: Sink>(alloc: Global, kind: RefusalKind, sink: &mut K) -> Status
    ensures writes { Writes (question_refused kind) (K.held sink.old) (K.held sink.new) (K.room sink.old) result }
    ensures counted { Counted (K.counts_failures sink.old) (K.faults sink.old) (K.faults sink.new) result }
    ensures kind { (result ≢ Status.Usage) × (result ≢ Status.ReadFault) }
{
    match refused_line(alloc, kind) {
        Ok(text) => refuse(sink, &text),
        Err(_) => Status::NoMemory,
    }
}

/// Reads the question, if there is one, and then runs the script, or refuses the question.
fn ask_start<R: Threads + Wait + Sync, K: Sink, G: Gate + Sync>(
    rt: &R,
    alloc: Global,
    options: &Options,
    start: &Start,
    sink: &mut K,
    gate: &G,
) -> Status
    requires { is_valid start.now.state ≡ true }
    ensures writes { Says (Task.Run options.now) start.now.state start.now.script (K.held sink.old) (K.held sink.new) (K.room sink.old) result }
    ensures counted { Counted (K.counts_failures sink.old) (K.faults sink.old) (K.faults sink.new) result }
    ensures kind { (result ≢ Status.Usage) × (result ≢ Status.ReadFault) }
{
    match question_of(alloc, &options.ask, start.script.script()) {
        Ok(question) => {
            let ends = Ends {
                audit: options.audit,
                question,
                save: options.save,
            };
            run_start(rt, alloc, &ends, start, sink, gate)
        }
        Err(AskFault::Refused(kind)) => refuse_question(alloc, kind, sink),
        Err(AskFault::NoMemory) => Status::NoMemory,
    }
}

/// Writes the canonical text.
fn write_canonical<K: Sink>(alloc: Global, script: &Script, sink: &mut K) -> Status
    ensures writes { Writes (canonical script.now) (K.held sink.old) (K.held sink.new) (K.room sink.old) result }
    ensures counted { Counted (K.counts_failures sink.old) (K.faults sink.old) (K.faults sink.new) result }
    ensures kind { (result ≢ Status.Usage) × (result ≢ Status.ReadFault) }
{
    match print(alloc, script) {
        Ok(text) => tell(sink, &text),
        Err(_) => Status::NoMemory,
    }
}

/// Answers a script that can run, on the state on which it begins.
pub fn answer_start<R: Threads + Wait + Sync, K: Sink, G: Gate + Sync>(
    rt: &R,
    alloc: Global,
    task: &Task,
    start: &Start,
    sink: &mut K,
    gate: &G,
) -> Status
    requires { is_valid start.now.state ≡ true }
    ensures writes { Says task.now start.now.state start.now.script (K.held sink.old) (K.held sink.new) (K.room sink.old) result }
    ensures counted { Counted (K.counts_failures sink.old) (K.faults sink.old) (K.faults sink.new) result }
    ensures kind { (result ≢ Status.Usage) × (result ≢ Status.ReadFault) }
{
    match task {
        Task::Run(options) => ask_start(rt, alloc, options, start, sink, gate),
        Task::Check => write_canonical(alloc, start.script.script(), sink),
    }
}
