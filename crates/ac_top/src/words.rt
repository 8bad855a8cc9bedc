//! What the words after the program's name ask for. clap reads them.
ghost use Rattle.std.specs.Prelude.{◌≡◌, ◌≢◌, ◌⊎◌, None, Some, [], false, codes, map, string_bytes, IfOk, IfErr};
ghost use Rattle.clap.specs.Faults.{fault_of};
ghost use Rattle.clap.specs.Kinds.{HasKind};
ghost use Rattle.clap.specs.Words.{app_of, first_of, found_of, kind_of, matches_of, rows_of, rule_of};
ghost use Rattle.clap.specs.declared.error.kind.ErrorKind.TheVariants.{OutOfMemory};
ghost use Rattle.ac_top.specs.Words.{adacont, is_set, number_given, options_by, task_by, mode_by, mode_of, flag_rule, number_rule, text_rule};

use crate::mode::{Mode, Options, Task};
use crate::status::Status;
use ac_syntax::StringBytes;
use clap::builder::ValueParser;
use clap::error::ErrorKind;
use clap::{Arg, ArgAction, ArgMatches, Command, Error};
use std::alloc::{AllocError, Global};

const CHECK: &str = "check";

const AUDIT: &str = "audit";

const GENERATE: &str = "generate";

const ASK: &str = "ask";

const SAVE: &str = "save";

const RESUME: &str = "resume";

/// A flag, which is given by its name.
fn flag<'a>(alloc: Global, name: &'a str) -> Arg<'a>
    ensures rule { rule_of result ≡ flag_rule name.now }
    ensures local { result.global ≡ false }
{
    Arg::new(alloc, name).long(name).action(ArgAction::SetTrue)
}

/// The option that asks for a script of a size.
fn generate<'a>(alloc: Global) -> Arg<'a>
    ensures rule { rule_of result ≡ number_rule (codes "generate") 1 200000 }
    ensures local { result.global ≡ false }
{
    Arg::new(alloc, GENERATE)
        .long(GENERATE)
        .action(ArgAction::Set)
        .value_parser(ValueParser::unsigned(1, 200_000))
}

/// The option that asks a question.
fn ask<'a>(alloc: Global) -> Arg<'a>
    ensures rule { rule_of result ≡ text_rule (codes "ask") }
    ensures local { result.global ≡ false }
{
    Arg::new(alloc, ASK).long(ASK).action(ArgAction::Set)
}

/// The command, with its flags and its options.
fn command<'a>(alloc: Global) -> Result<Command<'a>, AllocError>
    ensures { IfOk result (λ made. app_of made ≡ adacont) }
{
    let bare = Command::new(alloc, "adacont").no_binary_name(true);
    let checking = bare.arg(flag(alloc, CHECK))?;
    let auditing = checking.arg(flag(alloc, AUDIT))?;
    let generating = auditing.arg(generate(alloc))?;
    let asking = generating.arg(ask(alloc))?;
    let saving = asking.arg(flag(alloc, SAVE))?;
    saving.arg(flag(alloc, RESUME))
}

/// What clap finds in the words.
fn find<'a>(alloc: Global, words: &'a [String]) -> Result<ArgMatches<'a>, Error>
    ensures taken { IfOk result (λ found. (fault_of adacont (map string_bytes words.now) ≡ [])
        × (rows_of (found_of found) ≡ matches_of adacont (map string_bytes words.now))) }
    ensures refused { IfErr result (HasKind (fault_of adacont (map string_bytes words.now))) }
{
    command(alloc)?.try_get_matches_from(words)
}

fn is_set(matches: &ArgMatches<'_>, flag: &str) -> bool
    ensures { result ≡ is_set flag.now (rows_of (found_of matches.now)) }
{
    matches.get_one::<bool>(flag) == Some(true)
}

/// The text of the question, if there is one.
fn question_given(
    alloc: Global,
    matches: &ArgMatches<'_>,
) -> Result<Option<StringBytes>, AllocError>
    ensures { IfOk result (λ word. word ≡ first_of (codes "ask") (rows_of (found_of matches.now))) }
{
    match matches.get_str(ASK) {
        Some(word) => Ok(Some(StringBytes::new(word.as_bytes().to_vec(alloc)?))),
        None => Ok(None),
    }
}

fn options_by(alloc: Global, matches: &ArgMatches<'_>) -> Result<Options, AllocError>
    ensures { IfOk result (λ options. options ≡ options_by (rows_of (found_of matches.now))) }
{
    let ask = question_given(alloc, matches)?;
    Ok(Options {
        resume: is_set(matches, RESUME),
        audit: is_set(matches, AUDIT),
        ask,
        save: is_set(matches, SAVE),
    })
}

fn task_by(alloc: Global, matches: &ArgMatches<'_>) -> Result<Task, AllocError>
    ensures { IfOk result (λ task. task ≡ task_by (rows_of (found_of matches.now))) }
{
    if is_set(matches, CHECK) {
        return Ok(Task::Check);
    }
    Ok(Task::Run(options_by(alloc, matches)?))
}

fn size_given(matches: &ArgMatches<'_>) -> Option<u64>
    ensures { result ≡ number_given (codes "generate") (rows_of (found_of matches.now)) }
{
    matches.get_one::<u64>(GENERATE)
}

fn mode_by(alloc: Global, matches: &ArgMatches<'_>) -> Result<Mode, AllocError>
    ensures { IfOk result (λ mode. mode ≡ mode_by (rows_of (found_of matches.now))) }
{
    match size_given(matches) {
        Some(size) => Ok(Mode::Generate(size)),
        None => Ok(Mode::Read(task_by(alloc, matches)?)),
    }
}

/// What the words that clap found come to.
fn mode_found(alloc: Global, matches: &ArgMatches<'_>) -> Result<Mode, Status>
    ensures asked { IfOk result (λ mode. mode ≡ mode_by (rows_of (found_of matches.now))) }
    ensures failed { IfErr result (λ status. status ≡ Status.NoMemory) }
{
    match mode_by(alloc, matches) {
        Ok(mode) => Ok(mode),
        Err(_) => Err(Status::NoMemory),
    }
}

/// How the program ends where clap refuses its words.
fn refusal(error: &Error) -> Status
    ensures { (result ≡ Status.NoMemory) ⊎ ((result ≡ Status.Usage) × (kind_of error.now ≢ OutOfMemory)) }
{
    match error.kind() {
        ErrorKind::OutOfMemory => Status::NoMemory,
        _ => Status::Usage,
    }
}

/// What the words after the program's name ask for, or how the program ends where they aren't the command's.
pub fn asked_for(alloc: Global, words: &[String]) -> Result<Mode, Status>
    ensures asked { IfOk result (λ mode. mode_of words.now ≡ Some mode) }
    ensures refused { IfErr result (λ status. (status ≡ Status.NoMemory) ⊎ ((status ≡ Status.Usage) × (mode_of words.now ≡ None))) }
{
    match find(alloc, words) {
        Ok(matches) => mode_found(alloc, &matches),
        Err(error) => Err(refusal(&error)),
    }
}
