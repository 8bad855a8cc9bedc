//! Runs over a source and a sink in memory.
use ac_io::{MemorySink, MemorySource};
use ac_top::{FreeGate, Gate, run};
use std::alloc::Global;
use std::sync::Wait;
use std::test::Fail;
use std::thread::Threads;

/// More bytes than a source or a sink has: they go in one piece.
pub(crate) const WHOLE: usize = 1 << 30;

/// What a run is given.
#[derive(Clone, Copy)]
pub(crate) struct Given<'a> {
    /// The words behind the program's name, with blanks between them.
    pub words: &'a str,
    pub script: &'a [u8],
    /// How many bytes the sink takes at a time, and the source gives.
    pub piece: usize,
    /// The numbers of the calls at which the source fails, and those at which the sink does.
    pub failing: (&'a [u64], &'a [u64]),
}

/// How a run ended, what it had written by then, and what was left at its source.
#[derive(Drop)]
pub(crate) struct Ended {
    pub status: u8,
    pub text: Vec<u8>,
    pub left: Vec<u8>,
}

impl Ended {
    pub fn is(&self, status: u8, text: &[u8]) -> bool {
        self.status == status && self.text.as_slice() == text
    }
}

fn words_of(alloc: Global, text: &str) -> Result<Vec<String>, Fail> {
    let mut words = Vec::new(alloc);
    for word in text.split(' ') {
        if !word.is_empty() {
            words.push(String::from_str(alloc, word)?)?;
        }
    }
    Ok(words)
}

pub(crate) fn end_of_run<R: Threads + Wait + Sync, G: Gate + Sync>(
    rt: &R,
    alloc: Global,
    given: &Given,
    gate: &G,
) -> Result<Ended, Fail> {
    let words = words_of(alloc, given.words)?;
    end_by_words(rt, alloc, &words, given, gate)
}

/// The same with these words in place of the ones that are given.
fn end_by_words<R: Threads + Wait + Sync, G: Gate + Sync>(
    rt: &R,
    alloc: Global,
    words: &[String],
    given: &Given,
    gate: &G,
) -> Result<Ended, Fail> {
    let piece = given.piece.max(1);
    let (reads, writes) = given.failing;
    let mut source = MemorySource::new(given.script.to_vec(alloc)?, piece, reads.to_vec(alloc)?);
    let made = MemorySink::with_room(alloc, 40_000, piece, writes.to_vec(alloc)?);
    let mut sink = made.ok().ok_or("no memory")?;
    let status = run(rt, alloc, words, &mut source, &mut sink, gate).number();
    Ok(Ended {
        status,
        text: sink.bytes().to_vec(alloc)?,
        left: source.rest().to_vec(alloc)?,
    })
}

/// The same of a script with these words, with nothing that fails.
pub(crate) fn end_of_plain_run<'a, R: Threads + Wait + Sync>(
    rt: &R,
    alloc: Global,
    words: &'a str,
    script: &'a [u8],
) -> Result<Ended, Fail> {
    let given = Given {
        words,
        script,
        piece: WHOLE,
        failing: (&[], &[]),
    };
    end_of_run(rt, alloc, &given, &FreeGate)
}

/// The same of a script and a question to its outermost scope.
pub(crate) fn end_of_asked_run<'a, R: Threads + Wait + Sync>(
    rt: &R,
    alloc: Global,
    question: &'a str,
    script: &'a [u8],
) -> Result<Ended, Fail> {
    let given = Given {
        words: "",
        script,
        piece: WHOLE,
        failing: (&[], &[]),
    };
    let mut words = Vec::new(alloc);
    words.push(String::from_str(alloc, "--ask")?)?;
    words.push(String::from_str(alloc, question)?)?;
    end_by_words(rt, alloc, &words, &given, &FreeGate)
}
