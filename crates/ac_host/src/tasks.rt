//! Blocks of tasks among a script's statements.
ghost use Rattle.ac_meaning.specs.Execution.{gathered};
ghost use Rattle.ac_host.specs.Running.{RunsByOrders, Leaves};

use crate::end::HostEnd;
use crate::fitting::{all_fit, ranked};
use crate::host::Host;
use crate::places::queue_places;
use crate::prepared::run_over;
use crate::runner::BlockRunner;
use crate::task_code::{next_place, tasks_of};
use crate::task_lines::write_block;
use ac_base::Exception;
use ac_io::Sink;
use ac_rules::ResolvedTasks;

impl Host {
    /// Runs a block of tasks: its queues are lent to it, the lines of what was done are written, and the queues go back.
    #[inline(never)]
    pub(crate) fn run_tasks<K: Sink, B: BlockRunner>(
        &mut self,
        tasks: &ResolvedTasks,
        sink: &mut K,
        runner: &B,
    ) -> Result<Option<Exception>, HostEnd>
        requires sound { B.is_sound runner.now }
        ensures runs { RunsByOrders B.allows K.held K.faults K.room K.counts_failures sink.old sink.new
            self.old.objects self.new.objects (λ orders guards e. gathered (orders e.blocks) tasks.now e) result }
        ensures leaves { Leaves self.old.objects self.new.objects }
    {
        let alloc = *self.text.allocator();
        let places = queue_places(alloc, tasks)?;
        let first = next_place(self.objects.names())?;
        let gathered = tasks_of(alloc, &places, first, tasks)?;
        let ranked = ranked(alloc, &self.objects, &places)?;
        if !all_fit(&ranked, &gathered) {
            return Ok(None);
        }
        let queues = self.objects.lend_queues(&places)?;
        let done = run_over(alloc, queues, &gathered, runner)?;
        write_block(&gathered, &done, &mut self.text, sink)?;
        self.objects.return_queues(&places, done.close());
        Ok(None)
    }
}
