//! The top call.
ghost use Rattle.std.specs.Prelude.{◌≡◌, ◌≢◌, ◌≤◌, ◌⊎◌, true, false, Some, None, [], length, IfSome};
ghost use Rattle.ac_io.specs.Outside.{Rose, GrewBy, GrewByFront};
ghost use Rattle.ac_meaning.specs.Meanings.{Meaning};
ghost use Rattle.ac_top.specs.Words.{mode_of};
ghost use Rattle.ac_top.specs.Modes.{Means, asks_to_read, limit_asked, limit_of};
ghost use Rattle.ac_top.specs.Status.{number_of, IsAnswer, Counted};
ghost use Rattle.ac_top.specs.Answers.{Answers, IfAsked, HasRoom};

use crate::answering::answer_input;
use crate::generating::answer_size;
use crate::line::refuse;
use crate::mode::{Mode, Task};
use crate::status::Status;
use crate::words::asked_for;
use ac_io::{ReadEnd, Sink, Source, read_all};
use ac_tasks::Gate;
use std::alloc::Global;
use std::sync::Wait;
use std::thread::Threads;

/// Reads the source to its end, and answers what it held.
fn answer_source<R: Threads + Wait + Sync, S: Source, K: Sink, G: Gate + Sync>(
    rt: &R,
    alloc: Global,
    task: &Task,
    source: &mut S,
    sink: &mut K,
    gate: &G,
) -> Status
    ensures answers { IfSome (S.left source.old) (λ input.
        Answers (Mode.Read task.now) input (K.held sink.old) (K.held sink.new) (K.room sink.old) result) }
    ensures drained { IsAnswer result → IfSome (S.left source.old) (λ input.
        length input ≤ limit_of task.now → S.left source.new ≡ Some []) }
    ensures read_fault { result ≡ Status.ReadFault → Rose (S.faults source.old) (S.faults source.new) }
    ensures unwritten { result ≡ Status.ReadFault → sink.new ≡ sink.old }
    ensures counted { Counted (K.counts_failures sink.old) (K.faults sink.old) (K.faults sink.new) result }
    ensures steady { S.is_steady source.old ≡ true → result ≢ Status.ReadFault }
    ensures source_counts { S.counts_failures source.old ≡ true → result ≢ Status.ReadFault → S.faults source.new ≡ S.faults source.old }
    ensures kind { result ≢ Status.Usage }
{
    match read_all(alloc, source, task.limit()) {
        Ok(input) => answer_input(rt, alloc, task, input, sink, gate),
        Err(ReadEnd::TooLong) => refuse(sink, b"input: limit\n"),
        Err(ReadEnd::ReadFault) => Status::ReadFault,
        Err(ReadEnd::NoMemory) => Status::NoMemory,
    }
}

/// Runs the script that the source holds, and writes the line of each command to the sink as soon as it has run. `words` are the
/// words after the program's name. With `--audit` a script that ran to its end is followed by `nodes ` and how many elements its
/// outermost objects have. With `--ask TEXT` it is followed by `ask: ` and the answer to this question about its outermost variables
/// and objects. A question that is refused gets the one line `ask: ` and the reason, and nothing is run. With `--save` the line
/// `--state` follows, and behind it the state of the outermost variables and objects, a line for each. It comes last, behind what
/// `--audit` and `--ask` add. With `--resume` the source holds a saved state, the line `--script` and a script, whose outermost
/// variables and objects hold at the beginning what the state says. Where there is no such line, or a line of the state is refused or
/// matches none of the script's outermost names, one line says so, as `state line 2: mismatch`, and nothing is run. With `--check`
/// nothing is run, and the script's canonical text is written. With `--generate N` nothing is read: a script of that size is run in
/// memory, and the number of its lines and the last four are written; it goes before `--check`, and the other words add nothing to
/// either. An input that isn't a script that can run gets one line, which says where and why, as `line 3: wrong type`, and one of more
/// than 1,048,576 bytes, or 67,108,864 with `--resume`, gets `input: limit`. Each task of a block runs in a thread of its own, and the
/// gate looks on: it is called before each round of a task's worker.
pub fn run<R: Threads + Wait + Sync, S: Source, K: Sink, G: Gate + Sync>(
    rt: &R,
    alloc: Global,
    words: &[String],
    source: &mut S,
    sink: &mut K,
    gate: &G,
) -> Status
    // Words that aren't the command's, by clap's definition of it: nothing is read or written.
    ensures usage { result ≡ Status.Usage → mode_of words.now ≡ None }
    ensures refused { mode_of words.now ≡ None → (result ≡ Status.Usage) ⊎ (result ≡ Status.NoMemory) }
    ensures untouched { mode_of words.now ≡ None → (source.new ≡ source.old) × (sink.new ≡ sink.old) }

    // An answer is the whole of a meaning of all the bytes: what the script writes as it runs, that and the number of nodes, or its
    // canonical text, or its refusal; or, where nothing is read, the summary of what the script of a size writes. What a script with
    // blocks of tasks writes is what it does by some orders of their turns.
    ensures written { IsAnswer result → IfAsked (mode_of words.now) (S.left source.old) (λ mode input.
        (m : Meaning) × Means mode input m × GrewBy (K.held sink.old) (K.held sink.new) m.text × (number_of result ≡ m.status)) }
    ensures drained { IsAnswer result → asks_to_read (mode_of words.now) ≡ true → IfSome (S.left source.old) (λ input.
        length input ≤ limit_asked (mode_of words.now) → S.left source.new ≡ Some []) }
    ensures unread { asks_to_read (mode_of words.now) ≡ false → source.new ≡ source.old }

    // Any other end comes after a front of it, a fault only where a count rose.
    ensures front { IfAsked (mode_of words.now) (S.left source.old) (λ mode input.
        (m : Meaning) × Means mode input m × GrewByFront (K.held sink.old) (K.held sink.new) m.text) }
    ensures read_fault { result ≡ Status.ReadFault → Rose (S.faults source.old) (S.faults source.new) }
    ensures unwritten { result ≡ Status.ReadFault → sink.new ≡ sink.old }
    ensures write_fault { result ≡ Status.WriteFault → Rose (K.faults sink.old) (K.faults sink.new) }

    // Where a count rises in failed calls alone, no other end moves it.
    ensures source_counts { S.counts_failures source.old ≡ true → result ≢ Status.ReadFault → S.faults source.new ≡ S.faults source.old }
    ensures sink_counts { K.counts_failures sink.old ≡ true → result ≢ Status.WriteFault → K.faults sink.new ≡ K.faults sink.old }

    // Where no count rises, the input is answered, unless memory runs out. What isn't read can't fail.
    ensures complete { mode_of words.now ≢ None
        → (asks_to_read (mode_of words.now) ≡ true → Rose (S.faults source.old) (S.faults source.new) → ⊥)
        → (Rose (K.faults sink.old) (K.faults sink.new) → ⊥)
        → IsAnswer result ⊎ (result ≡ Status.NoMemory) }
    ensures complete_with_room { (asks_to_read (mode_of words.now) ≡ true → S.is_steady source.old ≡ true)
        → IfAsked (mode_of words.now) (S.left source.old) (λ mode input.
        IfSome (K.room sink.old) (λ room. HasRoom mode input room → IsAnswer result ⊎ (result ≡ Status.NoMemory))) }
{
    match asked_for(alloc, words) {
        Ok(Mode::Read(task)) => answer_source(rt, alloc, &task, source, sink, gate),
        Ok(Mode::Generate(size)) => answer_size(alloc, size, sink),
        Err(status) => status,
    }
}
