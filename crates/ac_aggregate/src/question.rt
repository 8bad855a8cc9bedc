//! Questions and their texts.
ghost use Rattle.std.specs.Prelude.{◌≡◌, ◌≤◌, ℕ, List, length, None, Err, IfOk};
ghost use Rattle.ac_syntax.specs.declared.refusal.RefusalKind.{RefusalKind as Kind};
ghost use Rattle.ac_syntax.specs.Tokens as scripts;
ghost use Rattle.ac_syntax.specs.Tokens.{cut_of};
ghost use Rattle.ac_aggregate.specs.declared.fault.AskFault.TheVariants as fault;
ghost use Rattle.ac_aggregate.specs.Asked.{Asked};
ghost use Rattle.ac_aggregate.specs.Asking.{asked_by, IsAnswer, Takes, Refuses};
ghost use Rattle.ac_aggregate.specs.Grammar.{Derives, questions};
ghost use Rattle.ac_aggregate.specs.Refusals as refusals;
ghost use Rattle.ac_aggregate.specs.Refusals.{word_tokens, IsRefused, IsTaken};
ghost use Rattle.ac_aggregate.specs.Views.{asked, asked_in};

use crate::fault::AskFault;
use crate::limits::{has_long, is_deep};
use crate::names::{is_known, names_differ};
use crate::part::Part;
use crate::part_reader::whole;
use crate::scope::outermost;
use crate::sorting::sort_of;
use ac_base::NoMemory;
use ac_script::{CutText, cut};
use ac_syntax::{Decl, Decls, Placed, RefusalKind, Token};
use std::alloc::Global;

/// How many bytes a question has at most.
const LONGEST: usize = 4_096;
/// How many steps its tokens are read in at most.
const STEPS: u32 = 16_385;

/// A question to the outermost scope.
#[derive(Drop)]
pub struct Question {
    part: Box<Part>,
}

fn refused(kind: RefusalKind) -> AskFault
    ensures { result ≡ fault.Refused kind }
{
    AskFault::Refused(kind)
}

fn token_of(placed: Placed) -> Token
    ensures { result ≡ placed.token }
{
    let Placed { token, .. } = placed;
    token
}

/// The tokens without their lines.
fn bare(alloc: Global, placed: Vec<Placed>) -> Result<Vec<Token>, NoMemory>
    ensures { IfOk result (λ made. made.items ≡ scripts.tokens placed.items) }
{
    let mut made = Vec::new(alloc);
    for one in placed {
        made.push(token_of(one))?;
    }
    Ok(made)
}

/// The first fault of a question with these tokens.
fn first_fault(
    alloc: Global,
    tokens: &[Token],
    decls: &[Decl],
    part: &Part,
) -> Result<Option<RefusalKind>, NoMemory>
    ensures { IfOk result (λ kind. kind ≡ refusals.first_fault (refusals.outermost decls.now) tokens.now (asked part.now)) }
{
    if is_deep(tokens) || has_long(part) {
        return Ok(Some(RefusalKind::Limit));
    }
    let scope = outermost(alloc, decls)?;
    if !is_known(alloc, &scope, part, &[])? {
        return Ok(Some(RefusalKind::UnknownName));
    }
    if sort_of(alloc, &scope, part, &[])?.is_none() {
        return Ok(Some(RefusalKind::WrongType));
    }
    if !names_differ(alloc, &scope, part, &[])? {
        return Ok(Some(RefusalKind::Twice));
    }
    Ok(None)
}

/// A question with these tokens, where it has no fault.
#[tactic(auto, using(crate::proofs::Asking::faulty_by, crate::proofs::Asking::taken_by))]
fn judged(
    alloc: Global,
    tokens: &[Token],
    decls: &[Decl],
    part: Box<Part>,
) -> Result<Question, AskFault>
    requires { Derives questions (asked_in part) tokens.now }
    ensures { (word : List ℕ) → length word ≤ 4096 → (cut_of word).malformed ≡ None → word_tokens word ≡ tokens.now
        → IsAnswer (refusals.outermost decls.now) word result }
{
    match first_fault(alloc, tokens, decls, &part)? {
        Some(kind) => Err(refused(kind)),
        None => Ok(Question { part }),
    }
}

/// The question that these tokens are.
#[tactic(auto, using(crate::proofs::Asking::unread_by, crate::proofs::Tokens::whole_by, crate::proofs::Tokens::rest_by))]
fn asked_in(alloc: Global, tokens: &[Token], decls: &[Decl]) -> Result<Question, AskFault>
    requires { length tokens.now ≤ 4096 }
    ensures { (word : List ℕ) → length word ≤ 4096 → (cut_of word).malformed ≡ None → word_tokens word ≡ tokens.now
        → IsAnswer (refusals.outermost decls.now) word result }
{
    match whole(alloc, tokens, STEPS)? {
        Some((part, rest)) => {
            if rest.is_empty() {
                judged(alloc, tokens, decls, part)
            } else {
                Err(refused(RefusalKind::Syntax))
            }
        }
        None => Err(refused(RefusalKind::Syntax)),
    }
}

#[tactic(auto, using(crate::proofs::Asking::long_by, crate::proofs::Asking::malformed_by, crate::proofs::Tokens::few_by, crate::proofs::Tokens::answered_by))]
fn answer(alloc: Global, word: &[u8], decls: &[Decl]) -> Result<Question, AskFault>
    ensures { IsAnswer (refusals.outermost decls.now) word.now result }
{
    if word.len() > LONGEST {
        return Err(refused(RefusalKind::Limit));
    }
    let CutText { placed, malformed } = cut(alloc, word)?;
    if malformed.is_some() {
        return Err(refused(RefusalKind::Syntax));
    }
    let tokens = bare(alloc, placed)?;
    asked_in(alloc, &tokens, decls)
}

impl Question {
    /// The question that a text asks of the outermost variables and objects of these declarations.
    pub fn read(alloc: Global, word: &[u8], decls: &Decls) -> Result<Question, AskFault>
        ensures taken { IfOk result (λ q. IsTaken (refusals.outermost decls.now) word.now (asked_by q)) }
        ensures refused { (kind : Kind) → result ≡ Err (fault.Refused kind) → IsRefused (refusals.outermost decls.now) word.now kind }
        ensures takes { (q : Asked) → IsTaken (refusals.outermost decls.now) word.now q → Takes result q }
        ensures refuses { (kind : Kind) → IsRefused (refusals.outermost decls.now) word.now kind → Refuses result kind }
    {
        answer(alloc, word, decls.items())
    }

    pub(crate) fn part(&self) -> &Part
        ensures { asked result.now ≡ asked_by self.now }
    {
        &self.part
    }
}
