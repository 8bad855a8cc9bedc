//! The host: it runs statements in order, and writes the line of each command as soon as it has run.
ghost use Rattle.std.specs.Prelude.{◌≡◌, ◌<◌, ◌+◌, ◌++◌, ℕ, List, length, take, Some, None};
ghost use Rattle.ac_base.specs.declared.reason.Reason.TheVariants.{NamesSpent};
ghost use Rattle.ac_model.specs.Cursors.{plain_mark};
ghost use Rattle.ac_rules.specs.Resolved.{calls_at, sets_at, sums_at, loops_at, declares_at};
ghost use Rattle.ac_rules.specs.ResolvedStatements.{resolved_handlers_of};
ghost use Rattle.ac_calls.specs.Holdings.{Held, Guards, number_of, names_of};
ghost use Rattle.ac_meaning.specs.Environment.{State, leaving};
ghost use Rattle.ac_meaning.specs.Execution.{commanded, exec_resolved, resolved_behind, followed, turns, guards_of_loop};
ghost use Rattle.ac_objects.specs.Blocks.{releasing, names_of_key, guards_of_loop_key, guards_of_view_key};
ghost use Rattle.ac_objects.specs.Standing.{counts_of};
ghost use Rattle.ac_objects.specs.World.{state_of, IsKnown, Persists};
ghost use Rattle.ac_host.specs.Ready.{IsReady, IsUnder};
ghost use Rattle.ac_host.specs.Running.{block_of, handled_of, statement_outcome, head_at, inside, key_ending, Runs, RunsByOrders, Leaves, Turning, IsTurning, IsViewing};
ghost use Rattle.ac_host.specs.Told.{Tells};
ghost use Rattle.ac_host.specs.Writing.{Ran, Reached};

use crate::end::HostEnd;
use crate::handling::{handler_of, passed_on};
use crate::runner::BlockRunner;
use crate::written::{write_line, write_refusal};
use ac_base::{Exception, Fault, Reason};
use ac_io::Sink;
use ac_objects::{DeclareFault, Frame, LoopKey, Objects, ViewHead, ViewKey};
use ac_rules::{ResolvedArg, ResolvedDecl, ResolvedHandler, ResolvedStmt, ResolvedStmts};
use ac_syntax::Operation;

/// A script that runs: what its names hold, and the line that is made next.
#[derive(Drop)]
pub struct Host {
    pub(crate) objects: Objects,
    pub(crate) frame: Frame,
    pub(crate) text: Vec<u8>,
}

impl Host {
    /// The runner is told and not used: so each kind of runner has a `run_call` of its own, which one place alone calls, and LLVM puts it in line there.
    fn run_call<K: Sink, B: BlockRunner>(
        &mut self,
        line: u64,
        target: Option<usize>,
        object: usize,
        operation: Operation,
        args: &[ResolvedArg],
        sink: &mut K,
        _runner: &B,
    ) -> Result<Option<Exception>, HostEnd>
        requires ready { IsReady self.old.objects }
        ensures runs { Runs K.held K.faults K.room K.counts_failures sink.old sink.new self.old.objects self.new.objects
            (λ guards e. commanded guards e (calls_at line target object operation args.now)) result }
        ensures leaves { Leaves self.old.objects self.new.objects }
    {
        let done = self
            .objects
            .call(target, object, operation, args, &mut self.frame);
        write_line(
            &self.objects,
            object,
            line,
            done,
            &self.frame.reply.said,
            &mut self.text,
            sink,
        )
    }

    #[inline(never)]
    fn run_set<K: Sink>(
        &mut self,
        line: u64,
        target: usize,
        from: &ResolvedArg,
        sink: &mut K,
    ) -> Result<Option<Exception>, HostEnd>
        requires ready { IsReady self.old.objects }
        ensures runs { Runs K.held K.faults K.room K.counts_failures sink.old sink.new self.old.objects self.new.objects
            (λ guards e. commanded guards e (sets_at line target from.now)) result }
        ensures leaves { Leaves self.old.objects self.new.objects }
    {
        let done = self.objects.set(target, from, &mut self.frame);
        write_line(
            &self.objects,
            target,
            line,
            done,
            &self.frame.reply.said,
            &mut self.text,
            sink,
        )
    }

    #[inline(always)]
    fn run_sum<K: Sink>(
        &mut self,
        line: u64,
        target: usize,
        from: usize,
        minus: bool,
        number: u64,
        sink: &mut K,
    ) -> Result<Option<Exception>, HostEnd>
        requires ready { IsReady self.old.objects }
        ensures runs { Runs K.held K.faults K.room K.counts_failures sink.old sink.new self.old.objects self.new.objects
            (λ guards e. commanded guards e (sums_at line target from minus number)) result }
        ensures leaves { Leaves self.old.objects self.new.objects }
    {
        let done = self
            .objects
            .sum(target, from, minus, number, &mut self.frame);
        write_line(
            &self.objects,
            target,
            line,
            done,
            &self.frame.reply.said,
            &mut self.text,
            sink,
        )
    }

    /// Runs the body of a loop once for each element still to come, up to a turn that raises. The name of the turns goes with the loop's key.
    #[cycle(statements)]
    fn run_turns<K: Sink, B: BlockRunner>(
        &mut self,
        elements: bool,
        key: &mut LoopKey,
        body: &ResolvedStmts,
        propagates: bool,
        sink: &mut K,
        runner: &B,
    ) -> Result<Option<Exception>, HostEnd>
        requires sound { B.is_sound runner.now }
        requires turning { IsTurning elements self.old.objects key.old.names key.old.object key.old.backward (plain_mark key.old.coming) }
        requires known { IsKnown self.old.objects key.old.coming }
        requires last { length self.old.objects.bounds ≡ key.old.names + 1 }
        ensures runs { Tells B.allows self.old.objects self.new.objects result (λ orders.
            (guards : Guards) (h : Held) (e : State) (names : List ℕ) →
            Turning self.old.objects key.old.names key.old.object key.old.backward (plain_mark key.old.coming)
            (guards_of_loop elements h ++ guards) e (number_of h) (names_of h) names →
            Reached K.held K.faults K.room K.counts_failures sink.old sink.new (leaving key.old.names (state_of self.new.objects))
            (guards_of_loop elements h ++ guards) (turns (exec_resolved propagates orders body.now) guards elements key.old.object h names e) result) }
        ensures key { (key.new.object ≡ key.old.object) × (key.new.names ≡ key.old.names)
            × (guards_of_loop_key key.new ≡ guards_of_loop_key key.old) }
        ensures persists { Persists self.old.objects self.new.objects }
        ensures counts { take key.old.names (counts_of (state_of self.new.objects))
            ≡ take key.old.names (counts_of (state_of self.old.objects)) }
    {
        for _ in 0..u64::MAX {
            if !self.objects.step_loop(elements, key) {
                return Ok(None);
            }
            let ended = self.run_statements(body, propagates, sink, runner)?;
            if ended.is_some() {
                return Ok(ended);
            }
        }
        Err(HostEnd::NoMemory)
    }

    #[cycle(statements)]
    #[inline(never)]
    fn run_loop<K: Sink, B: BlockRunner>(
        &mut self,
        line: u64,
        elements: bool,
        backward: bool,
        object: usize,
        body: &ResolvedStmts,
        propagates: bool,
        sink: &mut K,
        runner: &B,
    ) -> Result<Option<Exception>, HostEnd>
        requires sound { B.is_sound runner.now }
        requires ready { IsReady self.old.objects }
        ensures runs { RunsByOrders B.allows K.held K.faults K.room K.counts_failures sink.old sink.new
            self.old.objects self.new.objects
            (λ orders guards e. block_of propagates orders body.now guards e (loops_at line elements backward object)) result }
        ensures leaves { Leaves self.old.objects self.new.objects }
    {
        if !self.objects.takes_guards(object) {
            return Ok(None);
        }
        let mut key = self.objects.enter_loop(elements, backward, object)?;
        let ended = self.run_turns(elements, &mut key, body, propagates, sink, runner);
        self.objects.leave_loop(key);
        ended
    }

    /// Ends a block that views an object, whose body ended. Where the copy of an update has another key, a line of the block says so.
    fn end_view<K: Sink>(
        &mut self,
        line: u64,
        key: ViewKey,
        sink: &mut K,
    ) -> Result<Option<Exception>, HostEnd>
        requires viewing { IsViewing self.old.objects key }
        ensures runs { (guards : Guards) (e : State) → IsUnder self.old.objects (guards_of_view_key key ++ guards) e →
            Ran K.held K.faults K.room K.counts_failures sink.old sink.new self.new.objects guards (key_ending line key guards None e) result }
        ensures persists { Persists self.old.objects self.new.objects }
        ensures counts { counts_of (state_of self.new.objects)
            ≡ counts_of (releasing (guards_of_view_key key) (leaving (names_of_key key) (state_of self.old.objects))) }
    {
        match self.objects.leave_view(key) {
            Ok(()) => Ok(None),
            Err(Fault::Raised(reason)) => write_refusal(line, reason, &mut self.text, sink),
            Err(Fault::NoMemory) => unreachable!(),
        }
    }

    /// Runs the body of a block that views an object and was begun, and ends it, or drops its key where the body was left.
    #[cycle(statements)]
    fn run_viewed<K: Sink, B: BlockRunner>(
        &mut self,
        line: u64,
        key: ViewKey,
        body: &ResolvedStmts,
        propagates: bool,
        sink: &mut K,
        runner: &B,
    ) -> Result<Option<Exception>, HostEnd>
        requires sound { B.is_sound runner.now }
        requires viewing { IsViewing self.old.objects key }
        ensures runs { Tells B.allows self.old.objects self.new.objects result (λ orders.
            (guards : Guards) (e : State) → IsUnder self.old.objects (guards_of_view_key key ++ guards) e →
            Ran K.held K.faults K.room K.counts_failures sink.old sink.new self.new.objects guards
            (followed (exec_resolved propagates orders body.now (guards_of_view_key key ++ guards) e) (key_ending line key guards)) result) }
        ensures persists { Persists self.old.objects self.new.objects }
        ensures counts { counts_of (state_of self.new.objects)
            ≡ counts_of (releasing (guards_of_view_key key) (leaving (names_of_key key) (state_of self.old.objects))) }
    {
        match self.run_statements(body, propagates, sink, runner) {
            Ok(None) => self.end_view(line, key, sink),
            Ok(Some(raised)) => {
                self.objects.drop_view(key);
                Ok(Some(raised))
            }
            Err(end) => {
                self.objects.drop_view(key);
                Err(end)
            }
        }
    }

    /// Runs a view of an element, an update of its key or a `stable`.
    #[cycle(statements)]
    #[inline(never)]
    fn run_view<K: Sink, B: BlockRunner>(
        &mut self,
        line: u64,
        head: ViewHead,
        body: &ResolvedStmts,
        propagates: bool,
        sink: &mut K,
        runner: &B,
    ) -> Result<Option<Exception>, HostEnd>
        requires sound { B.is_sound runner.now }
        requires ready { IsReady self.old.objects }
        ensures runs { RunsByOrders B.allows K.held K.faults K.room K.counts_failures sink.old sink.new
            self.old.objects self.new.objects
            (λ orders guards e. block_of propagates orders body.now guards e (head_at line head)) result }
        ensures leaves { Leaves self.old.objects self.new.objects }
    {
        if !self.objects.takes_guards(head.object()) {
            return Ok(None);
        }
        match self.objects.enter_view(head) {
            Ok(key) => self.run_viewed(line, key, body, propagates, sink, runner),
            Err(Fault::Raised(reason)) => write_refusal(line, reason, &mut self.text, sink),
            Err(Fault::NoMemory) => Err(HostEnd::NoMemory),
        }
    }

    /// Runs what stands behind declarations, and then has so many names again.
    #[cycle(statements)]
    fn run_scope<K: Sink, B: BlockRunner>(
        &mut self,
        names: usize,
        body: &ResolvedStmts,
        propagates: bool,
        sink: &mut K,
        runner: &B,
    ) -> Result<Option<Exception>, HostEnd>
        requires sound { B.is_sound runner.now }
        requires ready { IsReady self.old.objects }
        ensures runs { RunsByOrders B.allows K.held K.faults K.room K.counts_failures sink.old sink.new
            self.old.objects self.new.objects
            (λ orders guards e. inside names (exec_resolved propagates orders body.now guards e)) result }
        ensures persists { Persists self.old.objects self.new.objects }
        ensures counts { counts_of (state_of self.new.objects) ≡ take names (counts_of (state_of self.old.objects)) }
    {
        let ended = self.run_statements(body, propagates, sink, runner);
        self.objects.leave_scope(names);
        ended
    }

    #[cycle(statements)]
    #[inline(never)]
    fn run_declare<K: Sink, B: BlockRunner>(
        &mut self,
        line: u64,
        decls: &[ResolvedDecl],
        body: &ResolvedStmts,
        propagates: bool,
        sink: &mut K,
        runner: &B,
    ) -> Result<Option<Exception>, HostEnd>
        requires sound { B.is_sound runner.now }
        requires ready { IsReady self.old.objects }
        ensures runs { RunsByOrders B.allows K.held K.faults K.room K.counts_failures sink.old sink.new
            self.old.objects self.new.objects
            (λ orders guards e. block_of propagates orders body.now guards e (declares_at line decls.now)) result }
        ensures leaves { Leaves self.old.objects self.new.objects }
    {
        match self.objects.enter_scope(decls) {
            Ok(names) => self.run_scope(names, body, propagates, sink, runner),
            Err(DeclareFault::Spent { line }) => {
                write_refusal(line, Reason::NamesSpent, &mut self.text, sink)
            }
            Err(DeclareFault::NoMemory) => Err(HostEnd::NoMemory),
        }
    }

    /// Runs what a block tries, and behind an exception that leaves it the first handler that takes it.
    #[cycle(statements)]
    #[inline(never)]
    fn run_handled<K: Sink, B: BlockRunner>(
        &mut self,
        body: &ResolvedStmts,
        handlers: &[ResolvedHandler],
        propagates: bool,
        sink: &mut K,
        runner: &B,
    ) -> Result<Option<Exception>, HostEnd>
        requires sound { B.is_sound runner.now }
        requires ready { IsReady self.old.objects }
        ensures runs { RunsByOrders B.allows K.held K.faults K.room K.counts_failures sink.old sink.new
            self.old.objects self.new.objects (λ orders. handled_of propagates orders body.now (resolved_handlers_of handlers.now)) result }
        ensures leaves { Leaves self.old.objects self.new.objects }
    {
        let ended = self.run_statements(body, propagates, sink, runner)?;
        match ended {
            None => Ok(None),
            Some(raised) => self.run_handler(raised, handlers, propagates, sink, runner),
        }
    }

    /// Runs the first of these handlers that takes the exception, which else goes on.
    #[cycle(statements)]
    fn run_handler<K: Sink, B: BlockRunner>(
        &mut self,
        raised: Exception,
        handlers: &[ResolvedHandler],
        propagates: bool,
        sink: &mut K,
        runner: &B,
    ) -> Result<Option<Exception>, HostEnd>
        requires sound { B.is_sound runner.now }
        requires ready { IsReady self.old.objects }
        ensures runs { RunsByOrders B.allows K.held K.faults K.room K.counts_failures sink.old sink.new
            self.old.objects self.new.objects
            (λ orders guards e. resolved_behind propagates orders (resolved_handlers_of handlers.now) guards (Some raised) e) result }
        ensures leaves { Leaves self.old.objects self.new.objects }
    {
        match handler_of(handlers, raised) {
            Some(body) => self.run_statements(body, propagates, sink, runner),
            None => Ok(Some(raised)),
        }
    }

    #[cycle(statements)]
    #[inline(always)]
    fn run_statement<K: Sink, B: BlockRunner>(
        &mut self,
        stmt: &ResolvedStmt,
        propagates: bool,
        sink: &mut K,
        runner: &B,
    ) -> Result<Option<Exception>, HostEnd>
        requires sound { B.is_sound runner.now }
        requires ready { IsReady self.old.objects }
        ensures runs { RunsByOrders B.allows K.held K.faults K.room K.counts_failures sink.old sink.new
            self.old.objects self.new.objects (statement_outcome stmt.now propagates) result }
        ensures leaves { Leaves self.old.objects self.new.objects }
    {
        match stmt {
            ResolvedStmt::Call {
                line,
                target,
                object,
                operation,
                args,
            } => self.run_call(
                *line,
                *target,
                *object,
                *operation,
                args.items(),
                sink,
                runner,
            ),
            ResolvedStmt::Set { line, target, from } => self.run_set(*line, *target, from, sink),
            ResolvedStmt::Sum {
                line,
                target,
                from,
                minus,
                number,
            } => self.run_sum(*line, *target, *from, *minus, *number, sink),
            ResolvedStmt::Loop {
                line,
                elements,
                backward,
                object,
                body,
            } => self.run_loop(
                *line, *elements, *backward, *object, body, propagates, sink, runner,
            ),
            ResolvedStmt::View {
                line,
                kind,
                object,
                at,
                body,
            } => {
                let head = ViewHead::Element {
                    kind: *kind,
                    object: *object,
                    at: *at,
                };
                self.run_view(*line, head, body, propagates, sink, runner)
            }
            ResolvedStmt::Stable { line, object, body } => {
                let head = ViewHead::Stable { object: *object };
                self.run_view(*line, head, body, propagates, sink, runner)
            }
            ResolvedStmt::Declare { line, decls, body } => {
                self.run_declare(*line, decls.items(), body, propagates, sink, runner)
            }
            ResolvedStmt::Tasks { tasks, .. } => self.run_tasks(tasks, sink, runner),
            ResolvedStmt::Handled { body, handlers } => {
                self.run_handled(body, handlers.items(), propagates, sink, runner)
            }
        }
    }

    /// Runs statements in order, where exceptions propagate up to one that raises.
    #[cycle(statements)]
    pub(crate) fn run_statements<K: Sink, B: BlockRunner>(
        &mut self,
        stmts: &ResolvedStmts,
        propagates: bool,
        sink: &mut K,
        runner: &B,
    ) -> Result<Option<Exception>, HostEnd>
        requires sound { B.is_sound runner.now }
        requires ready { IsReady self.old.objects }
        ensures runs { RunsByOrders B.allows K.held K.faults K.room K.counts_failures sink.old sink.new
            self.old.objects self.new.objects (λ orders. exec_resolved propagates orders stmts.now) result }
        ensures leaves { Leaves self.old.objects self.new.objects }
    {
        for stmt in stmts.items() {
            let ended = self.run_statement(stmt, propagates, sink, runner)?;
            let passed = passed_on(propagates, ended);
            if passed.is_some() {
                return Ok(passed);
            }
        }
        Ok(None)
    }
}
