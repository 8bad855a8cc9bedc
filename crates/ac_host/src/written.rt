//! The line of a command.
ghost use Rattle.std.specs.Prelude.{◌≡◌, ◌≢◌, ◌≤◌, ℕ, ◌∷◌, ◌++◌, [], false, true, codes, decimal, drop, None, Some, Err, IfSome, IfOk, OnOk};
ghost use Rattle.ac_base.specs.Reason.{exception_of};
ghost use Rattle.ac_base.specs.declared.fault.Fault.TheVariants as fault;
ghost use Rattle.ac_calls.specs.Answers.{Answer, line, lines_text, answers_list, answers_raised};
ghost use Rattle.ac_meaning.specs.Commands.{Performed};
ghost use Rattle.ac_meaning.specs.Environment.{State, object_at};
ghost use Rattle.ac_meaning.specs.Execution.{answer_end};
ghost use Rattle.ac_calls.specs.Holdings.{Held, listing_of};
ghost use Rattle.ac_objects.specs.Performs.{Performs, answered};
ghost use Rattle.ac_objects.specs.Shown.{Shows};
ghost use Rattle.ac_objects.specs.World.{World, state_of};
ghost use Rattle.ac_syntax.specs.Canonical.{literal_text};
ghost use Rattle.ac_host.specs.Lines.{is_listing, is_string, shown_text};
ghost use Rattle.ac_host.specs.Writing.{Writes};

use crate::end::HostEnd;
use crate::line::{begin_line, reason_line, value_line};
use crate::short::{LINE, put_value, write_numbered};
use ac_base::{Cursor, Exception, Fault, Reason, Value};
use ac_io::{Sink, add_last, pass};
use ac_objects::{Objects, Said};

/// Writes what a command answered, or why it was refused, and says how it ended.
#[inline(always)]
pub fn write_line<K: Sink>(
    objects: &Objects,
    object: usize,
    number: u64,
    done: Result<(), Fault>,
    said: &Said,
    text: &mut Vec<u8>,
    sink: &mut K,
) -> Result<Option<Exception>, HostEnd>
    ensures writes { (p : Performed) (old : World) → Performs p object old objects.now (answered said.now done) →
        Writes K.held K.faults K.room K.counts_failures sink.old sink.new (lines_text (line number p.answer ∷ [])) result }
    ensures ended { (p : Performed) (old : World) → Performs p object old objects.now (answered said.now done) →
        IfOk result (λ end. end ≡ answer_end p.answer) }
    ensures answered { OnOk result (done ≢ Err fault.NoMemory) }
{
    match done {
        Ok(()) => {
            write_answer(objects, object, number, said, text, sink)?;
            Ok(None)
        }
        Err(Fault::Raised(reason)) => write_refusal(number, reason, text, sink),
        Err(Fault::NoMemory) => Err(HostEnd::NoMemory),
    }
}

#[inline(always)]
fn write_answer<K: Sink>(
    objects: &Objects,
    object: usize,
    number: u64,
    said: &Said,
    text: &mut Vec<u8>,
    sink: &mut K,
) -> Result<(), HostEnd>
    ensures { (e : State) (answered : Answer) → state_of objects.now ≡ e → Shows e object said.now answered →
        Writes K.held K.faults K.room K.counts_failures sink.old sink.new (lines_text (line number answered ∷ [])) result }
{
    match said {
        Said::Listing => write_listing(objects, number, object, text, sink),
        _ => write_short(number, said, text, sink),
    }
}

/// Writes the line of a listing, which is told in pieces.
fn write_listing<K: Sink>(
    objects: &Objects,
    number: u64,
    place: usize,
    text: &mut Vec<u8>,
    sink: &mut K,
) -> Result<(), HostEnd>
    ensures { (h : Held) → object_at (state_of objects.now) place ≡ Some h →
        Writes K.held K.faults K.room K.counts_failures sink.old sink.new
        (lines_text (line number (answers_list (listing_of h)) ∷ [])) result }
{
    begin_line(text, number)?;
    objects.listing(place, text, sink)?;
    add_last(text, b"\n", sink)?;
    Ok(())
}

/// Writes the line of any other answer.
#[inline(always)]
fn write_short<K: Sink>(
    number: u64,
    said: &Said,
    text: &mut Vec<u8>,
    sink: &mut K,
) -> Result<(), HostEnd>
    requires { is_listing said.now ≡ false }
    ensures { (e : State) (object : ℕ) (answered : Answer) → Shows e object said.now answered →
        Writes K.held K.faults K.room K.counts_failures sink.old sink.new (lines_text (line number answered ∷ [])) result }
{
    write_shown(number, said, text, sink)
}

/// Writes the line of a command, as its answer is shown.
#[inline(always)]
fn write_shown<K: Sink>(
    number: u64,
    said: &Said,
    text: &mut Vec<u8>,
    sink: &mut K,
) -> Result<(), HostEnd>
    requires { is_listing said.now ≡ false }
    ensures { Writes K.held K.faults K.room K.counts_failures sink.old sink.new
        (decimal number ++ (codes ": " ++ (shown_text said.now ++ 10 ∷ []))) result }
{
    let mut line = [b'\n'; LINE];
    match put_short(&mut line, said) {
        Some(start) => write_numbered(&mut line, start, number, sink),
        None => write_text(number, said, text, sink),
    }
}

/// Puts what a line says behind its number at the array's end, and says where that starts. A string is put nowhere.
#[inline(always)]
fn put_short(line: &mut [u8; LINE], said: &Said) -> Option<usize>
    requires listing { is_listing said.now ≡ false }
    requires end { drop 42 line.old ≡ 10 ∷ [] }
    ensures start { IfSome result (λ start. 20 ≤ start) }
    ensures within { IfSome result (λ start. start ≤ LINE) }
    ensures said { IfSome result (λ start. drop start line.new ≡ codes ": " ++ (shown_text said.now ++ 10 ∷ [])) }
    ensures none { result ≡ None → is_string said.now ≡ true }
{
    match said {
        Said::Done => {
            *line = *b"                                      : ok\n";
            Some(38)
        }
        Said::Value(Value::Int(integer)) => Some(put_value(line, *integer)),
        Said::Value(Value::Text(_)) => None,
        Said::Truth(true) => {
            *line = *b"                                    : true\n";
            Some(36)
        }
        Said::Truth(false) => {
            *line = *b"                                   : false\n";
            Some(35)
        }
        Said::Place(Cursor::At { .. }) => {
            *line = *b"                                  : cursor\n";
            Some(34)
        }
        Said::Place(Cursor::NoElement) => {
            *line = *b"                              : no_element\n";
            Some(30)
        }
        Said::Stalled => {
            *line = *b"                                 : stalled\n";
            Some(33)
        }
        Said::Listing => unreachable!(),
    }
}

/// Writes the line of a command that was answered with a string.
#[inline(never)]
fn write_text<K: Sink>(
    number: u64,
    said: &Said,
    text: &mut Vec<u8>,
    sink: &mut K,
) -> Result<(), HostEnd>
    requires { is_string said.now ≡ true }
    ensures { Writes K.held K.faults K.room K.counts_failures sink.old sink.new
        (decimal number ++ (codes ": " ++ (shown_text said.now ++ 10 ∷ []))) result }
{
    match said {
        Said::Value(value) => write_value(number, value, text, sink),
        _ => unreachable!(),
    }
}

/// Writes the line of a command that was answered with a value, however long it is.
fn write_value<K: Sink>(
    number: u64,
    value: &Value,
    text: &mut Vec<u8>,
    sink: &mut K,
) -> Result<(), HostEnd>
    ensures { Writes K.held K.faults K.room K.counts_failures sink.old sink.new
        (decimal number ++ (codes ": " ++ (literal_text value.now ++ 10 ∷ []))) result }
{
    value_line(text, number, value)?;
    pass(text, sink)?;
    Ok(())
}

/// Writes why a command was refused, or a block doesn't begin, and says what that raises.
#[inline(never)]
pub fn write_refusal<K: Sink>(
    number: u64,
    reason: Reason,
    text: &mut Vec<u8>,
    sink: &mut K,
) -> Result<Option<Exception>, HostEnd>
    ensures writes { Writes K.held K.faults K.room K.counts_failures sink.old sink.new
        (lines_text (line number (answers_raised reason) ∷ [])) result }
    ensures ended { IfOk result (λ end. end ≡ Some (exception_of reason)) }
{
    reason_line(text, number, reason)?;
    pass(text, sink)?;
    Ok(Some(reason.exception()))
}
