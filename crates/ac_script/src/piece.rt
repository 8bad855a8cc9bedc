ghost use Rattle.std.specs.Prelude.{◌≡◌, ◌<◌, ◌≤◌, ◌+◌, ◌^◌, ◌&&◌, not, length, map, Option, IfOk, IfSome};
ghost use Rattle.std.specs.List.{prefix_len, AllPass};
ghost use Rattle.std.specs.Char.{is_ascii_digit, to_ascii_lowercase};
ghost use Rattle.ac_syntax.specs.Characters as characters;
ghost use Rattle.ac_syntax.specs.Characters.{is_word_byte, is_comment_byte, is_quote};
ghost use Rattle.ac_syntax.specs.Tokens as tokens;
ghost use Rattle.ac_script.specs.StringBytes.{by_byte};

use ac_base::NoMemory;
use ac_syntax::{Ident, Mark, Piece, StringBytes, Token};
use std::alloc::{AllocError, Global};

/// What a byte behind a string's first quote does.
#[derive(Clone, Copy, PartialEq, Eq)]
enum StringByte {
    /// It stands for itself.
    Keeps,
    /// It is a quote, which ends the string or is doubled.
    Quotes,
    /// It stands behind the string.
    Ends,
    Malformed,
}

fn is_blank(first: u8, after: &[u8]) -> bool
    ensures { result ≡ characters.is_blank first after.now }
{
    match first {
        b' ' | b'\t' | b'\n' => true,
        b'\r' => matches!(after, [b'\n', ..]),
        _ => false,
    }
}

fn word_len(text: &[u8]) -> usize
    ensures len { result ≡ prefix_len is_word_byte text.now }
    ensures within { result ≤ length text.now }
{
    text.iter()
        .take_while(|b| b.is_ascii_alphanumeric() || **b == b'_')
        .count()
}

fn digits_len(text: &[u8]) -> usize
    ensures len { result ≡ prefix_len is_ascii_digit text.now }
    ensures within { result ≤ length text.now }
{
    text.iter().take_while(|b| b.is_ascii_digit()).count()
}

fn comment_len(text: &[u8]) -> usize
    ensures len { result ≡ prefix_len is_comment_byte text.now }
    ensures within { result ≤ length text.now }
{
    text.iter().take_while(|b| **b != b'\n').count()
}

fn lower_case(alloc: Global, word: &[u8]) -> Result<Vec<u8>, AllocError>
    ensures { IfOk result (λ lower. lower.items ≡ map to_ascii_lowercase word.now) }
{
    word.iter().map(|b| b.to_ascii_lowercase()).collect(alloc)
}

fn word_piece(alloc: Global, text: &[u8]) -> Result<Option<Piece>, NoMemory>
    ensures { IfOk result (λ piece. piece ≡ tokens.word_piece text.now) }
{
    let len = word_len(text);
    let word = Ident::new(lower_case(alloc, &text[..len])?);
    Ok(Some(Piece {
        len,
        token: Some(Token::Word(word)),
    }))
}

#[tactic(auto, using(std::proofs::lemmas::Int::Digits::digits_value_more))]
fn number_value(digits: &[u8]) -> u64
    requires { AllPass is_ascii_digit digits.now }
    ensures { result ≡ tokens.number_value digits.now }
{
    let mut value: u64 = 0;
    for b in digits {
        value = value
            .saturating_mul(10)
            .saturating_add(u64::from(*b - b'0'));
    }
    value
}

fn number_piece(text: &[u8]) -> Option<Piece>
    ensures { result ≡ tokens.number_piece text.now }
{
    let len = digits_len(text);
    if word_len(text) != len {
        return None;
    }
    Some(Piece {
        len,
        token: Some(Token::Number(number_value(&text[..len]))),
    })
}

fn blank(len: usize) -> Option<Piece>
    ensures { result ≡ tokens.blank_of len }
{
    Some(Piece { len, token: None })
}

fn mark(len: usize, mark: Mark) -> Option<Piece>
    ensures { result ≡ tokens.mark_of len mark }
{
    Some(Piece {
        len,
        token: Some(Token::Mark(mark)),
    })
}

fn string_byte(after_quote: bool, b: u8) -> StringByte
    ensures { (e : Option tokens.Ending) → tokens.string_step after_quote b e ≡ by_byte result b e }
{
    match b {
        b'"' if after_quote => StringByte::Keeps,
        b'"' => StringByte::Quotes,
        _ if after_quote => StringByte::Ends,
        32..=126 => StringByte::Keeps,
        _ => StringByte::Malformed,
    }
}

/// Whether a byte is a quote that may be the last one.
fn may_end(after_quote: bool, b: u8) -> bool
    ensures { result ≡ not after_quote && is_quote b }
{
    !after_quote && b == b'"'
}

fn string_of(value: Vec<u8>, len: usize) -> Option<Piece>
    requires { len < 2 ^ 63 }
    ensures { result ≡ tokens.token_of (1 + len) (Token.Text value.items) }
{
    Some(Piece {
        len: 1 + len,
        token: Some(Token::Text(StringBytes::new(value))),
    })
}

/// A string, whose first quote stands before the text.
fn string_piece(alloc: Global, text: &[u8]) -> Result<Option<Piece>, NoMemory>
    ensures { IfOk result (λ piece. piece ≡ tokens.string_piece text.now) }
{
    let mut value = Vec::new(alloc);
    let mut after_quote = false;
    for (len, b) in text.iter().enumerate() {
        match string_byte(after_quote, *b) {
            StringByte::Keeps => value.push(*b)?,
            StringByte::Quotes => {}
            StringByte::Ends => return Ok(string_of(value, len)),
            StringByte::Malformed => return Ok(None),
        }
        after_quote = may_end(after_quote, *b);
    }
    Ok(if after_quote {
        string_of(value, text.len())
    } else {
        None
    })
}

fn colon_piece(after: &[u8]) -> Option<Piece>
    ensures { result ≡ tokens.colon_piece after.now }
{
    match after {
        [b'=', ..] => mark(2, Mark::Assign),
        _ => mark(1, Mark::Colon),
    }
}

fn minus_piece(after: &[u8]) -> Option<Piece>
    ensures { result ≡ tokens.minus_piece after.now }
{
    match after {
        [b'-', rest @ ..] => blank(2 + comment_len(rest)),
        _ => mark(1, Mark::Minus),
    }
}

/// The longer mark where this byte follows, and the shorter one where it doesn't.
fn longer_piece(next: u8, longer: Mark, shorter: Mark, after: &[u8]) -> Option<Piece>
    ensures { result ≡ tokens.longer_piece next longer shorter after.now }
{
    match after {
        [b, ..] if *b == next => mark(2, longer),
        _ => mark(1, shorter),
    }
}

/// What begins with `/`, which is no mark alone.
fn slash_piece(after: &[u8]) -> Option<Piece>
    ensures { result ≡ tokens.slash_piece after.now }
{
    match after {
        [b'=', ..] => mark(2, Mark::NotEqual),
        _ => None,
    }
}

fn mark_piece(first: u8) -> Option<Piece>
    ensures { result ≡ tokens.mark_piece first }
{
    match first {
        b';' => mark(1, Mark::Semicolon),
        b',' => mark(1, Mark::Comma),
        b'(' => mark(1, Mark::Open),
        b')' => mark(1, Mark::Close),
        b'.' => mark(1, Mark::Dot),
        b'+' => mark(1, Mark::Plus),
        b'[' => mark(1, Mark::BracketOpen),
        b']' => mark(1, Mark::BracketClose),
        b'\'' => mark(1, Mark::Tick),
        b'*' => mark(1, Mark::Star),
        _ => None,
    }
}

fn any_piece(alloc: Global, text: &[u8]) -> Result<Option<Piece>, NoMemory>
    ensures { IfOk result (λ piece. piece ≡ tokens.front_piece text.now) }
{
    Ok(match text {
        [first, ..] if first.is_ascii_alphabetic() => return word_piece(alloc, text),
        [first, ..] if first.is_ascii_digit() => number_piece(text),
        [first, after @ ..] if is_blank(*first, after) => blank(1),
        [b'"', after @ ..] => return string_piece(alloc, after),
        [b':', after @ ..] => colon_piece(after),
        [b'-', after @ ..] => minus_piece(after),
        [b'=', after @ ..] => longer_piece(b'>', Mark::Arrow, Mark::Equal, after),
        [b'<', after @ ..] => longer_piece(b'=', Mark::LessEqual, Mark::Less, after),
        [b'>', after @ ..] => longer_piece(b'=', Mark::GreaterEqual, Mark::Greater, after),
        [b'/', after @ ..] => slash_piece(after),
        [first, ..] => mark_piece(*first),
        [] => None,
    })
}

/// The piece at the front of a text, and None where it is malformed.
pub fn piece_at(alloc: Global, text: &[u8]) -> Result<Option<Piece>, NoMemory>
    ensures piece { IfOk result (λ piece. piece ≡ tokens.front_piece text.now) }
    ensures some { IfOk result (λ piece. IfSome piece (λ p. 0 < p.len)) }
    ensures within { IfOk result (λ piece. IfSome piece (λ p. p.len ≤ length text.now)) }
{
    any_piece(alloc, text)
}
