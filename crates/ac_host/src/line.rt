//! The lines that a script's commands write.
ghost use Rattle.std.specs.Prelude.{◌≡◌, ◌∷◌, ◌++◌, [], codes, decimal, OnOk};
ghost use Rattle.ac_syntax.specs.Canonical.{literal_text};
ghost use Rattle.ac_calls.specs.Answers.{answers_raised, raised_text, line, line_text};

use ac_base::{NoMemory, Reason, Value};
use ac_printer::append_literal;
use itoa::Buffer;

#[inline(always)]
pub fn append(text: &mut Vec<u8>, words: &str) -> Result<(), NoMemory>
    ensures { OnOk result (text.new.items ≡ text.old.items ++ words.now) }
{
    Ok(text.extend_from_slice(words.as_bytes())?)
}

/// Makes the text the beginning of a line: its number and the colon after it.
pub fn begin_line(text: &mut Vec<u8>, number: u64) -> Result<(), NoMemory>
    ensures { OnOk result (text.new.items ≡ decimal number ++ codes ": ") }
{
    text.clear();
    append(text, Buffer::new().format(number))?;
    append(text, ": ")
}

#[inline(always)]
pub fn end_line(text: &mut Vec<u8>) -> Result<(), NoMemory>
    ensures { OnOk result (text.new.items ≡ text.old.items ++ 10 ∷ []) }
{
    append(text, "\n")
}

/// Makes the text the line of a command that was answered with a value.
pub fn value_line(text: &mut Vec<u8>, number: u64, value: &Value) -> Result<(), NoMemory>
    ensures { OnOk result (text.new.items ≡ decimal number ++ (codes ": " ++ (literal_text value.now ++ 10 ∷ []))) }
{
    begin_line(text, number)?;
    append_literal(text, value)?;
    end_line(text)
}

/// Adds the exception that a refusal raises, and its reason.
pub fn append_reason(text: &mut Vec<u8>, reason: Reason) -> Result<(), NoMemory>
    ensures { OnOk result (text.new.items ≡ text.old.items ++ raised_text reason) }
{
    append(text, "raised ")?;
    append(text, reason.exception().name())?;
    append(text, " (")?;
    append(text, reason.text())?;
    append(text, ")")
}

/// Makes the text the line of a command that was refused.
pub fn reason_line(text: &mut Vec<u8>, number: u64, reason: Reason) -> Result<(), NoMemory>
    ensures { OnOk result (text.new.items ≡ line_text (line number (answers_raised reason))) }
{
    begin_line(text, number)?;
    append_reason(text, reason)?;
    end_line(text)
}
