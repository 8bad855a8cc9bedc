//! What is done where a script of a size is asked for.
ghost use Rattle.std.specs.Prelude.{◌≡◌, ◌≢◌, [], IfOk};
ghost use Rattle.ac_meaning.specs.Meanings.{Meaning, IsMeaningBy, ran, written};
ghost use Rattle.ac_top.specs.Answers.{Answers};
ghost use Rattle.ac_top.specs.Generator.{generated};
ghost use Rattle.ac_top.specs.Status.{Writes, Counted};
ghost use Rattle.ac_top.specs.Summary.{summary_text};

use crate::answering::run_input;
use crate::generator::generated;
use crate::line::tell;
use crate::mode::Mode;
use crate::status::Status;
use crate::summary::summary_of;
use ac_base::NoMemory;
use ac_io::{GrowSink, Sink};
use std::alloc::Global;

/// Runs the script of a size, as one that is read is run by one task, and keeps its lines in memory.
fn run_generated(alloc: Global, size: u64) -> Result<GrowSink, NoMemory>
    ensures { IfOk result (λ told. (m : Meaning) × IsMeaningBy ran (generated size) m × (told.held ≡ m.text)) }
{
    let script = generated(alloc, size)?;
    let mut told = GrowSink::new(alloc);
    match run_input(alloc, &script, &mut told) {
        Status::Done | Status::Refused => Ok(told),
        _ => Err(NoMemory),
    }
}

/// Writes the summary of a text.
fn write_summary<K: Sink>(alloc: Global, text: &[u8], sink: &mut K) -> Status
    ensures writes { Writes (written (summary_text text.now)) (K.held sink.old) (K.held sink.new) (K.room sink.old) result }
    ensures counted { Counted (K.counts_failures sink.old) (K.faults sink.old) (K.faults sink.new) result }
    ensures kind { (result ≢ Status.Usage) × (result ≢ Status.ReadFault) }
{
    match summary_of(alloc, text) {
        Ok(summary) => tell(sink, &summary),
        Err(_) => Status::NoMemory,
    }
}

/// Runs the script of a size, and writes a summary of its lines.
pub fn answer_size<K: Sink>(alloc: Global, size: u64, sink: &mut K) -> Status
    ensures answers { Answers (Mode.Generate size) [] (K.held sink.old) (K.held sink.new) (K.room sink.old) result }
    ensures counted { Counted (K.counts_failures sink.old) (K.faults sink.old) (K.faults sink.new) result }
    ensures kind { (result ≢ Status.Usage) × (result ≢ Status.ReadFault) }
{
    match run_generated(alloc, size) {
        Ok(told) => write_summary(alloc, told.bytes(), sink),
        Err(NoMemory) => Status::NoMemory,
    }
}
