//! Lines and texts that are written of an input, besides those of its script.
ghost use Rattle.std.specs.Prelude.{◌≡◌, ◌≢◌, ◌++◌, decimal, codes, OnOk, IfOk};
ghost use Rattle.ac_meaning.specs.Meanings.{kind_text, refused_at, written};
ghost use Rattle.ac_top.specs.Beginnings.{state_line};
ghost use Rattle.ac_top.specs.Modes.{nodes_line};
ghost use Rattle.ac_top.specs.Status.{Writes, Counted, refusal_line};

use crate::status::Status;
use ac_io::{Sink, write_all};
use ac_syntax::RefusalKind;
use itoa::Buffer;
use std::alloc::{AllocError, Global};

/// Adds some words.
pub fn append(text: &mut Vec<u8>, words: &str) -> Result<(), AllocError>
    ensures { OnOk result (text.new.items ≡ text.old.items ++ words.now) }
{
    text.extend_from_slice(words.as_bytes())
}

/// Adds the line's number and the colon after it.
fn append_number(text: &mut Vec<u8>, number: u64) -> Result<(), AllocError>
    ensures { OnOk result (text.new.items ≡ text.old.items ++ decimal number ++ codes ": ") }
{
    append(text, Buffer::new().format(number))?;
    append(text, ": ")
}

fn kind_text(kind: RefusalKind) -> &'static str
    ensures { result.now ≡ kind_text kind }
{
    match kind {
        RefusalKind::Syntax => "syntax",
        RefusalKind::Limit => "limit",
        RefusalKind::UnknownName => "unknown name",
        RefusalKind::WrongType => "wrong type",
        RefusalKind::Twice => "twice",
    }
}

/// Adds the word for why a text is refused.
pub fn append_kind(text: &mut Vec<u8>, kind: RefusalKind) -> Result<(), AllocError>
    ensures { OnOk result (text.new.items ≡ text.old.items ++ kind_text kind) }
{
    append(text, kind_text(kind))
}

/// The line that says where and why a text is refused.
pub fn refusal_line(alloc: Global, line: u64, kind: RefusalKind) -> Result<Vec<u8>, AllocError>
    ensures { IfOk result (λ text. text.items ≡ (refused_at line kind).text) }
{
    let mut text = Vec::new(alloc);
    append(&mut text, "line ")?;
    append_number(&mut text, line)?;
    append_kind(&mut text, kind)?;
    append(&mut text, "\n")?;
    Ok(text)
}

/// The line that says why an entry of a state is refused, or stands for nothing.
pub fn state_line(alloc: Global, line: u64, why: &str) -> Result<Vec<u8>, AllocError>
    ensures { IfOk result (λ text. text.items ≡ (state_line line why.now).text) }
{
    let mut text = Vec::new(alloc);
    append(&mut text, "state line ")?;
    append_number(&mut text, line)?;
    append(&mut text, why)?;
    append(&mut text, "\n")?;
    Ok(text)
}

/// Adds the line that says how many elements there are.
pub fn append_nodes(text: &mut Vec<u8>, count: u64) -> Result<(), AllocError>
    ensures { OnOk result (text.new.items ≡ text.old.items ++ nodes_line count) }
{
    append(text, "nodes ")?;
    append(text, Buffer::new().format(count))?;
    append(text, "\n")
}

/// Writes a text of a script that can run.
pub fn tell<K: Sink>(sink: &mut K, text: &[u8]) -> Status
    ensures writes { Writes (written text.now) (K.held sink.old) (K.held sink.new) (K.room sink.old) result }
    ensures counted { Counted (K.counts_failures sink.old) (K.faults sink.old) (K.faults sink.new) result }
    ensures kind { (result ≢ Status.Usage) × (result ≢ Status.ReadFault) }
{
    match write_all(sink, text) {
        Ok(()) => Status::Done,
        Err(_) => Status::WriteFault,
    }
}

/// Writes the one line of a refusal.
pub fn refuse<K: Sink>(sink: &mut K, line: &[u8]) -> Status
    ensures writes { Writes (refusal_line line.now) (K.held sink.old) (K.held sink.new) (K.room sink.old) result }
    ensures counted { Counted (K.counts_failures sink.old) (K.faults sink.old) (K.faults sink.new) result }
    ensures kind { (result ≢ Status.Usage) × (result ≢ Status.ReadFault) }
{
    match write_all(sink, line) {
        Ok(()) => Status::Refused,
        Err(_) => Status::WriteFault,
    }
}
