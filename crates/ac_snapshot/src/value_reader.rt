//! Readers of words, numbers and values from the front of a text: each answers None where it isn't what is wanted.
ghost use Rattle.std.specs.Prelude.{◌≡◌, ◌≤◌, length, true, IfOk};
ghost use Rattle.std.specs.Char.{is_ascii_digit};
ghost use Rattle.std.specs.List.{prefix_len, AllPass};
ghost use Rattle.ac_syntax.specs.Characters.{is_word_byte};
ghost use Rattle.ac_syntax.specs.Tokens as tokens;
ghost use Rattle.ac_snapshot.specs.Outcomes.{Finds, Passes};
ghost use Rattle.ac_snapshot.specs.RowValidity.{is_text};
ghost use Rattle.ac_snapshot.specs.ValueReaders as readers;

use ac_base::{NoMemory, Text, TextFault, Value};
use ac_syntax::ElemKind;
use itoa::Buffer;
use std::alloc::Global;

/// The longest name, in bytes.
const LONGEST_NAME: usize = 64;

/// What stands behind these bytes.
pub fn after<'a>(text: &'a [u8], wanted: &[u8]) -> Option<&'a [u8]>
    ensures { Passes result (readers.after wanted.now text.now) }
{
    text.strip_prefix(wanted)
}

/// How many bytes of words a text begins with.
pub fn word_len(text: &[u8]) -> usize
    ensures len { result ≡ prefix_len is_word_byte text.now }
    ensures within { result ≤ length text.now }
{
    text.iter()
        .take_while(|b| b.is_ascii_alphanumeric() || **b == b'_')
        .count()
}

fn digits_len(text: &[u8]) -> usize
    ensures len { result ≡ prefix_len is_ascii_digit text.now }
    ensures within { result ≤ length text.now }
{
    text.iter().take_while(|b| b.is_ascii_digit()).count()
}

/// A word that may be a name.
pub fn word(text: &[u8]) -> Option<(&[u8], &[u8])>
    ensures { Finds (λ word. word.now) result (readers.word text.now) }
{
    let len = word_len(text);
    if len <= LONGEST_NAME {
        Some(text.split_at(len))
    } else {
        None
    }
}

#[tactic(auto, using(std::proofs::lemmas::Int::Digits::digits_value_more))]
fn number_value(digits: &[u8]) -> u64
    requires { AllPass is_ascii_digit digits.now }
    ensures { result ≡ tokens.number_value digits.now }
{
    let mut value: u64 = 0;
    for b in digits {
        value = value
            .saturating_mul(10)
            .saturating_add(u64::from(*b - b'0'));
    }
    value
}

/// The number of these digits, where they are spelled as it is written.
fn spelled(digits: &[u8]) -> Option<u64>
    requires { AllPass is_ascii_digit digits.now }
    ensures { result ≡ readers.spelled digits.now }
{
    let value = number_value(digits);
    if Buffer::new().format(value).as_bytes() == digits {
        Some(value)
    } else {
        None
    }
}

pub fn number(text: &[u8]) -> Option<(u64, &[u8])>
    ensures { Finds (λ n. n) result (readers.number text.now) }
{
    let (digits, rest) = text.split_at(digits_len(text));
    let n = spelled(digits)?;
    Some((n, rest))
}

fn positive(n: u64) -> Option<i64>
    ensures { result ≡ readers.positive n }
{
    if n <= 9_223_372_036_854_775_807 {
        Some(n as i64)
    } else {
        None
    }
}

/// The integer behind a minus.
fn negative(n: u64) -> Option<i64>
    ensures { result ≡ readers.negative n }
{
    if 1 <= n && n <= 9_223_372_036_854_775_808 {
        Some(-1 - (n - 1) as i64)
    } else {
        None
    }
}

pub fn integer(text: &[u8]) -> Option<(i64, &[u8])>
    ensures { Finds (λ z. z) result (readers.integer text.now) }
{
    match after(text, b"-") {
        Some(rest) => {
            let (n, rest) = number(rest)?;
            let z = negative(n)?;
            Some((z, rest))
        }
        None => {
            let (n, rest) = number(text)?;
            let z = positive(n)?;
            Some((z, rest))
        }
    }
}

/// A byte that stands for itself.
fn plain_byte(text: &[u8]) -> Option<(Option<u8>, &[u8])>
    ensures { Finds (λ b. b) result (readers.plain_byte text.now) }
{
    match text {
        [b, rest @ ..] if (32..=126).contains(b) => Some((Some(*b), rest)),
        _ => None,
    }
}

/// A byte of a string, and nothing where it ends.
fn string_byte(text: &[u8]) -> Option<(Option<u8>, &[u8])>
    ensures { Finds (λ b. b) result (readers.string_byte text.now) }
{
    if let Some(rest) = after(text, b"\"\"") {
        return Some((Some(b'"'), rest));
    }
    if let Some(rest) = after(text, b"\"") {
        return Some((None, rest));
    }
    plain_byte(text)
}

/// The bytes of a string from behind its first quote, at most 1,000.
fn string_bytes(alloc: Global, text: &[u8]) -> Result<Option<(Vec<u8>, &[u8])>, NoMemory>
    ensures { IfOk result (λ read. Finds (λ bytes. bytes.items) read (readers.string_by 1001 text.now)) }
{
    let mut bytes = Vec::new(alloc);
    let mut left = text;
    for _ in 0..1_001_u64 {
        match string_byte(left) {
            Some((Some(b), rest)) => {
                bytes.push(b)?;
                left = rest;
            }
            Some((None, rest)) => return Ok(Some((bytes, rest))),
            None => return Ok(None),
        }
    }
    Ok(None)
}

/// A text of these bytes.
fn text_of(alloc: Global, bytes: &[u8]) -> Result<Text, NoMemory>
    requires { is_text bytes.now ≡ true }
    ensures { IfOk result (λ text. text ≡ bytes.now) }
{
    match Text::new(alloc, bytes) {
        Ok(text) => Ok(text),
        Err(TextFault::NoMemory) => Err(NoMemory),
        Err(TextFault::BadByte(_)) => unreachable!(),
        Err(TextFault::TooLong) => unreachable!(),
    }
}

/// A string between its quotes.
pub fn quoted(alloc: Global, text: &[u8]) -> Result<Option<(Text, &[u8])>, NoMemory>
    ensures { IfOk result (λ read. Finds (λ bytes. bytes) read (readers.quoted_bytes text.now)) }
{
    let Some(rest) = after(text, b"\"") else {
        return Ok(None);
    };
    match string_bytes(alloc, rest)? {
        Some((bytes, rest)) => Ok(Some((text_of(alloc, &bytes)?, rest))),
        None => Ok(None),
    }
}

/// A value of this sort.
pub fn literal(
    alloc: Global,
    elem: ElemKind,
    text: &[u8],
) -> Result<Option<(Value, &[u8])>, NoMemory>
    ensures { IfOk result (λ read. Finds (λ value. value) read (readers.literal elem text.now)) }
{
    match elem {
        ElemKind::Integer => match integer(text) {
            Some((z, rest)) => Ok(Some((Value::Int(z), rest))),
            None => Ok(None),
        },
        ElemKind::Str => match quoted(alloc, text)? {
            Some((bytes, rest)) => Ok(Some((Value::Text(bytes), rest))),
            None => Ok(None),
        },
    }
}
