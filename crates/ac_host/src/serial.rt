//! A script that runs to its end: from its beginning, or on objects that stand already.
ghost use Rattle.std.specs.Prelude.{◌≡◌, IfOk};
ghost use Rattle.ac_calls.specs.Answers.{lines_text};
ghost use Rattle.ac_meaning.specs.Environment.{after_decls, at_rest, first_state, nodes};
ghost use Rattle.ac_meaning.specs.Execution.{Orders, no_orders, run, run_from, run_with, text_of, text_with};
ghost use Rattle.ac_objects.specs.World.{state_of};
ghost use Rattle.ac_host.specs.Start.{IsAtStart, start_of};
ghost use Rattle.ac_host.specs.Told.{TellsAll};
ghost use Rattle.ac_host.specs.Writing.{Writes};

use crate::end::HostEnd;
use crate::host::Host;
use crate::runner::{BlockRunner, InTurn};
use crate::workers::{ByCall, run_in_threads};
use ac_base::NoMemory;
use ac_book::Book;
use ac_check::Checked;
use ac_io::Sink;
use ac_objects::{Frame, Objects};
use ac_rules::ResolvedDecl;
use ac_tasks::Gate;
use std::alloc::Global;
use std::sync::Wait;
use std::thread::Threads;

impl Host {
    /// The objects of the outermost declarations, for which 64 bits have numbers enough.
    fn declared(alloc: Global, decls: &[ResolvedDecl]) -> Result<Objects, NoMemory>
        ensures { IfOk result (λ objects. state_of objects ≡ (after_decls decls.now first_state).after) }
    {
        let mut objects = Objects::new(alloc)?;
        match objects.enter_scope(decls) {
            Ok(_) => Ok(objects),
            Err(_) => Err(NoMemory),
        }
    }

    /// The objects of a script's outermost declarations, on which its statements begin.
    pub fn started(alloc: Global, script: &Checked) -> Result<Objects, NoMemory>
        ensures declared { IfOk result (λ objects. state_of objects ≡ start_of script.now) }
        ensures start { IfOk result (λ objects. IsAtStart (state_of objects)) }
    {
        Host::declared(alloc, script.decls())
    }

    /// Over these objects.
    fn over(objects: Objects) -> Host
        ensures { result.objects ≡ objects }
    {
        let alloc = objects.allocator();
        Host {
            objects,
            frame: Frame::new(),
            text: Vec::new(alloc),
        }
    }

    /// Runs a script's statements from here on, with its blocks of tasks by a runner, and hands the objects back as the end leaves them.
    fn run_on<K: Sink, B: BlockRunner>(
        self,
        script: &Checked,
        sink: &mut K,
        runner: &B,
    ) -> Result<Objects, HostEnd>
        requires sound { B.is_sound runner.now }
        requires start { IsAtStart (state_of self.objects) }
        ensures { TellsAll B.allows (λ orders.
            let r = run_from orders script.now (state_of self.objects) in
            Writes K.held K.faults K.room K.counts_failures sink.old sink.new (lines_text r.lines) result
            × IfOk result (λ left. state_of left ≡ at_rest r.after)) }
    {
        let mut host = self;
        host.run_statements(script.statements(), script.propagates(), sink, runner)?;
        Ok(host.objects)
    }

    /// Runs a script, with its blocks of tasks by a runner.
    fn run_by<K: Sink, B: BlockRunner>(
        alloc: Global,
        script: &Checked,
        sink: &mut K,
        runner: &B,
    ) -> Result<u64, HostEnd>
        requires { B.is_sound runner.now }
        ensures { TellsAll B.allows (λ orders.
            Writes K.held K.faults K.room K.counts_failures sink.old sink.new (text_with orders script.now) result
            × IfOk result (λ count. count ≡ nodes (run_with orders script.now).after)) }
    {
        let objects = Host::started(alloc, script)?;
        let left = Host::over(objects).run_on(script, sink, runner)?;
        Ok(left.live_nodes()?)
    }

    /// Runs a script, and says how many elements its objects have at the end. Tasks have turns in rounds.
    pub fn run_serial<K: Sink>(
        alloc: Global,
        script: &Checked,
        sink: &mut K,
    ) -> Result<u64, HostEnd>
        ensures writes { Writes K.held K.faults K.room K.counts_failures sink.old sink.new (text_of script.now) result }
        ensures nodes { IfOk result (λ count. count ≡ nodes (run script.now).after) }
    {
        Host::run_by(alloc, script, sink, &InTurn)
    }

    /// Runs a script as well, and each task of its blocks by a worker in a thread of its own, with a gate that looks on.
    pub fn run<R: Threads + Wait + Sync, K: Sink, G: Gate + Sync>(
        rt: &R,
        alloc: Global,
        script: &Checked,
        sink: &mut K,
        gate: &G,
    ) -> Result<u64, HostEnd>
        ensures { (orders : Orders)
            × Writes K.held K.faults K.room K.counts_failures sink.old sink.new (text_with orders script.now) result
            × IfOk result (λ count. count ≡ nodes (run_with orders script.now).after) }
    {
        let runner = ByCall {
            run: |book: Book| run_in_threads(rt, alloc, gate, book),
        };
        Host::run_by(alloc, script, sink, &runner)
    }

    /// Runs a script's statements on objects that stand already, and hands them back as the end leaves them. Tasks have turns in rounds.
    pub fn run_serial_from<K: Sink>(
        script: &Checked,
        objects: Objects,
        sink: &mut K,
    ) -> Result<Objects, HostEnd>
        requires { IsAtStart (state_of objects) }
        ensures writes { Writes K.held K.faults K.room K.counts_failures sink.old sink.new
            (lines_text (run_from no_orders script.now (state_of objects)).lines) result }
        ensures left { IfOk result (λ left. state_of left ≡ at_rest (run_from no_orders script.now (state_of objects)).after) }
    {
        Host::over(objects).run_on(script, sink, &InTurn)
    }

    /// Runs them as well, and each task of their blocks by a worker in a thread of its own, with a gate that looks on.
    pub fn run_from<R: Threads + Wait + Sync, K: Sink, G: Gate + Sync>(
        rt: &R,
        script: &Checked,
        objects: Objects,
        sink: &mut K,
        gate: &G,
    ) -> Result<Objects, HostEnd>
        requires { IsAtStart (state_of objects) }
        ensures { (orders : Orders)
            × Writes K.held K.faults K.room K.counts_failures sink.old sink.new
            (lines_text (run_from orders script.now (state_of objects)).lines) result
            × IfOk result (λ left. state_of left ≡ at_rest (run_from orders script.now (state_of objects)).after) }
    {
        let alloc = objects.allocator();
        let runner = ByCall {
            run: |book: Book| run_in_threads(rt, alloc, gate, book),
        };
        Host::over(objects).run_on(script, sink, &runner)
    }
}
