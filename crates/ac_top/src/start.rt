//! What an input holds: a script that can run, and the state that stands before it, if one does.
ghost use Rattle.std.specs.Prelude.{◌≡◌, ◌⊎◌, ℕ, Err, IfErr, IfOk, true};
ghost use Rattle.ac_rules.specs.Faults.{IsChecked};
ghost use Rattle.ac_snapshot.specs.Validity.{is_valid};
ghost use Rattle.ac_syntax.specs.Refusals.{IsFirstRefusal, Spells};
ghost use Rattle.ac_syntax.specs.declared.fault.ScriptFault.TheVariants.{Refused as RefusedAt};
ghost use Rattle.ac_syntax.specs.declared.refusal.RefusalKind.{RefusalKind as Kind};
ghost use Rattle.ac_top.specs.Answers.{IsFaulty};
ghost use Rattle.ac_top.specs.Inputs.{IsFaultOf, IsFaultOn, IsStartOf, IsStartOn, fault_meaning, state_fault};

use crate::line::{refusal_line, state_line};
use crate::line_cut::first_line;
use ac_base::NoMemory;
use ac_calls::Plains;
use ac_check::{Checked, check};
use ac_meaning::INPUT_LIMIT;
use ac_script::parse;
use ac_snapshot::{StateFault, read_state};
use ac_syntax::{RefusalKind, ScriptFault};
use std::alloc::{AllocError, Global};

/// The line between a state and the script that is resumed on it.
const SCRIPT_LINE: &[u8] = b"--script";

/// A script that can run, and the state on which it begins.
#[derive(Drop)]
pub struct Start {
    pub script: Checked,
    pub state: Plains,
}

/// Why an input has none.
#[derive(Clone, Copy)]
pub enum InputFault {
    /// The script has too many bytes.
    TooLong,
    /// No line is just `--script`.
    NoScript,
    /// The state's first line that isn't the line of an entry that is valid with those before it.
    State { line: u64 },
    Script { line: u64, kind: RefusalKind },
    NoMemory,
}

/// The script that a text spells, where it can run.
pub fn checked(alloc: Global, text: &[u8]) -> Result<Checked, ScriptFault>
    ensures spelled { IfOk result (λ script. Spells script text.now) }
    ensures checked { IfOk result (λ script. IsChecked script) }
    ensures refused { (line : ℕ) (kind : Kind) → result ≡ Err (RefusedAt line kind) →
        IsFirstRefusal text.now line kind ⊎ IsFaulty text.now line kind }
{
    let script = parse(alloc, text)?;
    check(alloc, script)
}

/// The script that a text spells, on a state.
fn start_on(alloc: Global, state: Plains, text: &[u8]) -> Result<Start, InputFault>
    requires { is_valid state ≡ true }
    ensures read { IfOk result (λ start. IsStartOn state text.now start.script start.state) }
    ensures refused { IfErr result (λ fault. (fault ≡ InputFault.NoMemory) ⊎ IsFaultOn text.now fault) }
{
    if text.len() as u64 > INPUT_LIMIT {
        return Err(InputFault::TooLong);
    }
    match checked(alloc, text) {
        Ok(script) => Ok(Start { script, state }),
        Err(ScriptFault::Refused { line, kind }) => Err(InputFault::Script { line, kind }),
        Err(ScriptFault::NoMemory) => Err(InputFault::NoMemory),
    }
}

/// What is wrong with an input whose state has this fault.
fn state_fault(fault: StateFault) -> InputFault
    ensures { result ≡ state_fault fault }
{
    match fault {
        StateFault::Refused { line } => InputFault::State { line },
        StateFault::NoMemory => InputFault::NoMemory,
    }
}

/// The script behind the first line `--script`, on the state before it.
fn read_resumed(alloc: Global, input: &[u8]) -> Result<Start, InputFault>
    ensures read { IfOk result (λ start. IsStartOf true input.now start.script start.state) }
    ensures refused { IfErr result (λ fault. (fault ≡ InputFault.NoMemory) ⊎ IsFaultOf true input.now fault) }
{
    let Some(at) = first_line(input, SCRIPT_LINE) else {
        return Err(InputFault::NoScript);
    };
    let (_, script) = input.split_at(at + SCRIPT_LINE.len() + 1);
    match read_state(alloc, &input[..at]) {
        Ok(state) => start_on(alloc, state, script),
        Err(fault) => Err(state_fault(fault)),
    }
}

/// What an input holds.
pub fn read_start(alloc: Global, resumes: bool, input: &[u8]) -> Result<Start, InputFault>
    ensures read { IfOk result (λ start. IsStartOf resumes input.now start.script start.state) }
    ensures refused { IfErr result (λ fault. (fault ≡ InputFault.NoMemory) ⊎ IsFaultOf resumes input.now fault) }
{
    if resumes {
        return read_resumed(alloc, input);
    }
    start_on(alloc, Plains::from_vec(Vec::new(alloc)), input)
}

/// The line that says what is wrong with an input.
pub fn fault_line(alloc: Global, fault: InputFault) -> Result<Vec<u8>, AllocError>
    ensures { IfOk result (λ text. text.items ≡ (fault_meaning fault).text) }
{
    match fault {
        InputFault::TooLong | InputFault::NoMemory => b"input: limit\n".to_vec(alloc),
        InputFault::NoScript => b"input: no script\n".to_vec(alloc),
        InputFault::State { line } => state_line(alloc, line, "refused"),
        InputFault::Script { line, kind } => refusal_line(alloc, line, kind),
    }
}
