//! The pragma, and the heads of handlers.
ghost use Rattle.std.specs.Prelude.{◌≡◌};
ghost use Rattle.ac_script.specs.Outcomes.{Reads};
ghost use Rattle.ac_script.specs.Views.{item_view};
ghost use Rattle.ac_script.specs.ItemReader as readers;

use crate::item::Item;
use crate::reader::{keyword, mark};
use crate::stop::Stop;
use ac_base::Exception;
use ac_syntax::{Keyword, Mark, Placed, Token};

/// What follows `pragma`.
#[tactic(auto, unfolding(crate::specs::ItemReader::pragma_item))]
pub fn pragma_item(line: u64, tokens: &[Placed]) -> Result<(Item, &[Placed]), Stop<'_>>
    ensures { Reads item_view result (readers.pragma_item line tokens.now) }
{
    let rest = keyword(tokens, Keyword::Propagate)?;
    let rest = mark(rest, Mark::Semicolon)?;
    Ok((Item::Propagates { line }, rest))
}

/// What a handler of this keyword takes.
fn caught_of(found: Keyword) -> Option<Option<Exception>>
    ensures { result ≡ readers.caught_of found }
{
    match found {
        Keyword::Others => Some(None),
        Keyword::ProgramError => Some(Some(Exception::ProgramError)),
        Keyword::ConstraintError => Some(Some(Exception::ConstraintError)),
        Keyword::CapacityError => Some(Some(Exception::CapacityError)),
        Keyword::Pragma | Keyword::Propagate | Keyword::Exception | Keyword::When => None,
    }
}

/// What a handler takes: the exception that is named, or None for all others.
fn caught(tokens: &[Placed]) -> Result<(Option<Exception>, &[Placed]), Stop<'_>>
    ensures { Reads (λ value. value) result (readers.caught tokens.now) }
{
    if let [
        Placed {
            token: Token::Keyword(found),
            ..
        },
        rest @ ..,
    ] = tokens
        && let Some(exception) = caught_of(*found)
    {
        return Ok((exception, rest));
    }
    Err(Stop::At(tokens))
}

/// What follows `when`.
#[tactic(auto, unfolding(crate::specs::ItemReader::handler_item))]
pub fn handler_item(line: u64, tokens: &[Placed]) -> Result<(Item, &[Placed]), Stop<'_>>
    ensures { Reads item_view result (readers.handler_item line tokens.now) }
{
    let (exception, rest) = caught(tokens)?;
    let rest = mark(rest, Mark::Arrow)?;
    Ok((Item::Catches { line, exception }, rest))
}

/// A handler.
#[tactic(auto, unfolding(crate::specs::ItemReader::in_catching))]
pub fn in_catching(line: u64, tokens: &[Placed]) -> Result<(Item, &[Placed]), Stop<'_>>
    ensures { Reads item_view result (readers.in_catching line tokens.now) }
{
    let rest = keyword(tokens, Keyword::When)?;
    handler_item(line, rest)
}
