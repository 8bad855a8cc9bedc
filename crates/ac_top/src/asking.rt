//! The question of `--ask`: how it is read, and what is written of it.
ghost use Rattle.std.specs.Prelude.{◌≡◌, ◌++◌, codes, flat_map, Err, IfOk, OnOk};
ghost use Rattle.ac_syntax.specs.Canonical.{literal_text};
ghost use Rattle.ac_syntax.specs.declared.refusal.RefusalKind.{RefusalKind as Kind};
ghost use Rattle.ac_calls.specs.Answers.{answer_text};
ghost use Rattle.ac_calls.specs.Listings.{bracketed, separated};
ghost use Rattle.ac_objects.specs.World.{state_of};
ghost use Rattle.ac_aggregate.specs.declared.fault.AskFault.TheVariants as fault;
ghost use Rattle.ac_aggregate.specs.Answers.{answer_view, given_view, givens_view};
ghost use Rattle.ac_top.specs.Asks.{refuses, Becomes, asking_of, question_refused, given, next_text, answer_line, ask_lines};
ghost use Rattle.ac_top.specs.Modes.{nodes_lines, lines_behind};

use crate::line::{append, append_kind, append_nodes};
use crate::saving::append_saved;
use ac_aggregate::{AskAnswer, AskFault, Given, Question, Values};
use ac_base::NoMemory;
use ac_objects::Objects;
use ac_plains::plain;
use ac_script::append_quoted;
use ac_syntax::{Decls, RefusalKind, Script, StringBytes};
use itoa::Buffer;
use std::alloc::{AllocError, Global};

/// What follows the lines of a script that ran to its end.
#[derive(Drop)]
pub struct Ends {
    pub audit: bool,
    pub question: Option<Question>,
    pub save: bool,
}

/// The question with this text, if there is one.
pub fn question_of(
    alloc: Global,
    word: &Option<StringBytes>,
    script: &Script,
) -> Result<Option<Question>, AskFault>
    ensures taken { IfOk result (λ question. Becomes word.now script.now (asking_of question)) }
    ensures refused { (kind : Kind) → result ≡ Err (fault.Refused kind) → Becomes word.now script.now (refuses kind) }
{
    match word {
        Some(word) => match Question::read(alloc, word.bytes(), &script.decls) {
            Ok(question) => Ok(Some(question)),
            Err(fault) => Err(fault),
        },
        None => Ok(None),
    }
}

/// The line that says why a question is refused.
pub fn refused_line(alloc: Global, kind: RefusalKind) -> Result<Vec<u8>, AllocError>
    ensures { IfOk result (λ text. text.items ≡ (question_refused kind).text) }
{
    let mut text = Vec::new(alloc);
    append(&mut text, "ask: ")?;
    append_kind(&mut text, kind)?;
    append(&mut text, "\n")?;
    Ok(text)
}

fn append_given(text: &mut Vec<u8>, value: &Given) -> Result<(), AllocError>
    ensures { OnOk result (text.new.items ≡ text.old.items ++ literal_text (given_view value.now)) }
{
    match value {
        Given::Int(number) => text.extend_from_slice(Buffer::new().format(*number).as_bytes()),
        Given::Text(string) => append_quoted(text, string.bytes()),
    }
}

/// Adds a value behind another one.
fn append_next(text: &mut Vec<u8>, value: &Given) -> Result<(), AllocError>
    ensures { OnOk result (text.new.items ≡ text.old.items ++ next_text value.now) }
{
    append(text, ", ")?;
    append_given(text, value)
}

fn append_rest(text: &mut Vec<u8>, values: &[Given]) -> Result<(), AllocError>
    ensures { OnOk result (text.new.items ≡ text.old.items ++ flat_map next_text values.now) }
{
    for value in values {
        append_next(text, value)?;
    }
    Ok(())
}

fn append_items(text: &mut Vec<u8>, values: &[Given]) -> Result<(), AllocError>
    ensures { OnOk result (text.new.items ≡ text.old.items ++ separated literal_text (givens_view values.now)) }
{
    match values.split_first() {
        Some((first, rest)) => {
            append_given(text, first)?;
            append_rest(text, rest)
        }
        None => Ok(()),
    }
}

fn append_list(text: &mut Vec<u8>, values: &Values) -> Result<(), AllocError>
    ensures { OnOk result (text.new.items ≡ text.old.items ++ bracketed literal_text (givens_view values.now.items.items)) }
{
    append(text, "[")?;
    append_items(text, values.items())?;
    append(text, "]")
}

/// Adds an answer as a command would give it.
fn append_answer(text: &mut Vec<u8>, answer: &AskAnswer) -> Result<(), AllocError>
    ensures { OnOk result (text.new.items ≡ text.old.items ++ answer_text (given (answer_view answer.now))) }
{
    match answer {
        AskAnswer::Number(number) => append(text, Buffer::new().format(*number)),
        AskAnswer::Listing(values) => append_list(text, values),
        AskAnswer::Overflow => append_overflow(text),
    }
}

fn append_overflow(text: &mut Vec<u8>) -> Result<(), AllocError>
    ensures { OnOk result (text.new.items ≡ text.old.items ++ codes "raised CONSTRAINT_ERROR (overflow)") }
{
    append(text, "raised CONSTRAINT_ERROR (overflow)")
}

fn append_answer_line(text: &mut Vec<u8>, answer: &AskAnswer) -> Result<(), AllocError>
    ensures { OnOk result (text.new.items ≡ text.old.items ++ answer_line (answer_view answer.now)) }
{
    append(text, "ask: ")?;
    append_answer(text, answer)?;
    append(text, "\n")
}

/// Adds the line that answers a question to these objects, if there is one.
fn append_answered(
    alloc: Global,
    text: &mut Vec<u8>,
    question: &Option<Question>,
    decls: &Decls,
    objects: &Objects,
) -> Result<(), NoMemory>
    ensures { OnOk result (text.new.items ≡ text.old.items ++ ask_lines (asking_of question.now) decls.now (state_of objects.now)) }
{
    match question {
        Some(question) => {
            let answer = question.answer(alloc, &plain(objects, decls)?)?;
            Ok(append_answer_line(text, &answer)?)
        }
        None => Ok(()),
    }
}

/// Adds the line that says how many elements these objects have, where it is wanted.
fn append_audited(text: &mut Vec<u8>, audit: bool, objects: &Objects) -> Result<(), NoMemory>
    ensures { OnOk result (text.new.items ≡ text.old.items ++ nodes_lines audit (state_of objects.now)) }
{
    if audit {
        let count = objects.live_nodes()?;
        append_nodes(text, count)?;
    }
    Ok(())
}

/// What follows a run's lines, where the end left these objects.
pub fn lines_behind(
    alloc: Global,
    ends: &Ends,
    decls: &Decls,
    objects: &Objects,
) -> Result<Vec<u8>, NoMemory>
    ensures { IfOk result (λ text. text.items
        ≡ lines_behind ends.now.audit (asking_of ends.now.question) ends.now.save decls.now (state_of objects.now)) }
{
    let mut text = Vec::new(alloc);
    append_audited(&mut text, ends.audit, objects)?;
    append_answered(alloc, &mut text, &ends.question, decls, objects)?;
    append_saved(&mut text, ends.save, decls, objects)?;
    Ok(text)
}
