ghost use Rattle.std.specs.Prelude.{◌≡◌, ◌++◌, ◌<◌, ◌-◌, ◌^◌, map, OnOk, IfOk};
ghost use Rattle.ac_syntax.specs.Keywords as keywords;
ghost use Rattle.ac_syntax.specs.Keywords.{reserved_where};
ghost use Rattle.ac_syntax.specs.Tokens as tokens;
ghost use Rattle.ac_syntax.specs.Tokens.{cut_of, placed_at};

use crate::keyword::{is_keyword_text, reserved_token};
use crate::piece::piece_at;
use ac_base::NoMemory;
use ac_syntax::{Keyword, Piece, Placed, Token};
use std::alloc::{AllocError, Global};

/// A text cut into tokens, up to the first malformed piece.
#[derive(Drop)]
pub struct CutText {
    pub placed: Vec<Placed>,
    /// The line of the malformed piece, if there is one.
    pub malformed: Option<u64>,
}

/// Adds the piece's token, if it is one.
fn note(placed: &mut Vec<Placed>, token: Option<Token>, line: u64) -> Result<(), AllocError>
    ensures { OnOk result (placed.new.items ≡ placed.old.items ++ placed_at line token) }
{
    match token {
        None => Ok(()),
        Some(token) => Ok(placed.push(Placed { token, line })?),
    }
}

fn line_after(line: u64, first: u8) -> u64
    requires { line < 2 ^ 64 - 1 }
    ensures { result ≡ tokens.line_after line first }
{
    if first == b'\n' { line + 1 } else { line }
}

/// Cuts a text into its tokens, each with its line.
pub fn cut(alloc: Global, text: &[u8]) -> Result<CutText, NoMemory>
    ensures placed { IfOk result (λ made. made.placed.items ≡ (cut_of text.now).placed) }
    ensures malformed { IfOk result (λ made. made.malformed ≡ (cut_of text.now).malformed) }
{
    let mut placed = Vec::new(alloc);
    let mut line = 1;
    let mut rest = text;
    while let [first, ..] = rest {
        let Some(Piece { len, token }) = piece_at(alloc, rest)? else {
            return Ok(CutText {
                placed,
                malformed: Some(line),
            });
        };
        note(&mut placed, token, line)?;
        line = line_after(line, *first);
        (_, rest) = rest.split_at(len);
    }
    Ok(CutText {
        placed,
        malformed: None,
    })
}

/// The first two tokens are the words `pragma` and `propagate`.
fn begins_propagating(placed: &[Placed]) -> bool
    ensures { result ≡ keywords.begins_propagating placed.now }
{
    match placed {
        [first, second, ..] => {
            is_keyword_text(Keyword::Pragma, &first.token)
                && is_keyword_text(Keyword::Propagate, &second.token)
        }
        _ => false,
    }
}

fn reserved_placed(placed: Placed) -> Placed
    ensures { result ≡ keywords.reserved_placed placed }
{
    let Placed { token, line } = placed;
    Placed {
        token: reserved_token(token),
        line,
    }
}

/// The same tokens where the keywords are reserved.
fn reserved(alloc: Global, placed: Vec<Placed>) -> Result<Vec<Placed>, NoMemory>
    ensures { IfOk result (λ made. made.items ≡ map keywords.reserved_placed placed.items) }
{
    let mut made = Vec::new(alloc);
    for one in placed {
        made.push(reserved_placed(one))?;
    }
    Ok(made)
}

/// The tokens of a script, whose keywords are reserved where it begins with the pragma.
fn with_keywords(alloc: Global, placed: Vec<Placed>) -> Result<Vec<Placed>, NoMemory>
    ensures { IfOk result (λ made. made.items ≡ reserved_where (keywords.begins_propagating placed.items) placed.items) }
{
    if begins_propagating(&placed) {
        reserved(alloc, placed)
    } else {
        Ok(placed)
    }
}

/// Cuts a script's text into its tokens, each with its line.
pub fn script_cut(alloc: Global, text: &[u8]) -> Result<CutText, NoMemory>
    ensures placed { IfOk result (λ made. made.placed.items ≡ (keywords.script_cut text.now).placed) }
    ensures malformed { IfOk result (λ made. made.malformed ≡ (keywords.script_cut text.now).malformed) }
{
    let CutText { placed, malformed } = cut(alloc, text)?;
    let placed = with_keywords(alloc, placed)?;
    Ok(CutText { placed, malformed })
}
