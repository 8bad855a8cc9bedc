//! Scripts from their texts.
ghost use Rattle.std.specs.Prelude.{◌≡◌, ℕ, Bool, List, [], ◌∷◌, ◌++◌, Ok, Err, IfOk, IsTrue};
ghost use Rattle.std.specs.List.{list_all};
ghost use Rattle.ac_syntax.specs.declared.refusal.RefusalKind.{RefusalKind as Kind};
ghost use Rattle.ac_syntax.specs.declared.script.Script.{Script as Made};
ghost use Rattle.ac_syntax.specs.declared.token.Placed.{Placed as Token};
ghost use Rattle.ac_syntax.specs.Tokens.{tokens};
ghost use Rattle.ac_syntax.specs.Canonical.{is_written};
ghost use Rattle.ac_syntax.specs.Limits.{AreWithinLimits};
ghost use Rattle.ac_syntax.specs.Refusals.{Spells, IsFirstRefusal};
ghost use Rattle.ac_syntax.specs.declared.fault.ScriptFault.TheVariants.{Refused};
ghost use Rattle.ac_script.specs.Answers.{IsAnswer, IsOrNoMemory, IsCut, EndPast};

use crate::build::build;
use crate::cut_text::{CutText, script_cut};
use crate::limits::within;
use crate::reading::{Reading, read};
use ac_base::NoMemory;
use ac_syntax::{Placed, RefusalKind, Script, ScriptFault};
use std::alloc::Global;

fn refused(line: u64, kind: RefusalKind) -> ScriptFault
    ensures { result ≡ Refused line kind }
{
    ScriptFault::Refused { line, kind }
}

/// Why a text is refused of whose tokens these are the front, up to the one past a limit.
fn fault_at_limit(alloc: Global, front: &[Placed], line: u64) -> ScriptFault
    ensures { (text : List ℕ) → EndPast text front.now line → IsAnswer text (Err result) }
{
    match read(alloc, front) {
        Ok(Reading::Bad { line: earlier }) => refused(earlier, RefusalKind::Syntax),
        Ok(Reading::Early) => refused(line, RefusalKind::Limit),
        Ok(Reading::Whole(_)) => refused(line, RefusalKind::Limit),
        Err(NoMemory) => ScriptFault::NoMemory,
    }
}

/// The line of the last token, where there is one.
fn last_line(placed: &[Placed]) -> u64
    ensures { (before : List Token) (last : Token) → placed.now ≡ before ++ last ∷ [] → result ≡ last.line }
{
    match placed {
        [.., last] => last.line,
        [] => 1,
    }
}

/// The script of tokens that are within the limits, where no malformed piece follows them.
fn script_within(
    alloc: Global,
    placed: &[Placed],
    malformed: Option<u64>,
) -> Result<Script, ScriptFault>
    requires within { AreWithinLimits (tokens placed.now) }
    requires written { (propagating : Bool) × IsTrue (list_all (is_written propagating) (tokens placed.now)) }
    ensures { (text : List ℕ) → IsCut text placed.now malformed → IsAnswer text result }
{
    match read(alloc, placed)? {
        Reading::Bad { line } => Err(refused(line, RefusalKind::Syntax)),
        Reading::Early => {
            let line = malformed.unwrap_or(last_line(placed));
            Err(refused(line, RefusalKind::Syntax))
        }
        Reading::Whole(items) => match malformed {
            Some(line) => Err(refused(line, RefusalKind::Syntax)),
            None => Ok(build(alloc, items)?),
        },
    }
}

fn answer(alloc: Global, bytes: &[u8]) -> Result<Script, ScriptFault>
    ensures { IsAnswer bytes.now result }
{
    let CutText { placed, malformed } = script_cut(alloc, bytes)?;
    let count = within(&placed);
    match placed.get(count) {
        Some(past) => Err(fault_at_limit(alloc, &placed[..=count], past.line)),
        None => script_within(alloc, &placed, malformed),
    }
}

/// The script that the bytes spell. Bytes that spell none are refused for their first fault.
pub fn parse(alloc: Global, bytes: &[u8]) -> Result<Script, ScriptFault>
    ensures found { IfOk result (λ script. Spells script bytes.now) }
    ensures only { IfOk result (λ script. (other : Made) → Spells other bytes.now → other ≡ script) }
    ensures refused { (line : ℕ) (kind : Kind) → result ≡ Err (Refused line kind) → IsFirstRefusal bytes.now line kind }
    ensures spelled { (script : Made) → Spells script bytes.now → IsOrNoMemory result (Ok script) }
    ensures faulty { (line : ℕ) (kind : Kind) → IsFirstRefusal bytes.now line kind → IsOrNoMemory result (Err (Refused line kind)) }
{
    answer(alloc, bytes)
}
