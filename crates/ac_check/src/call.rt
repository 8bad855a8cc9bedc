//! Calls against the table.
ghost use Rattle.std.specs.Prelude.{◌≡◌};
ghost use Rattle.std.specs.Option.{option_map, option_copied};
ghost use Rattle.ac_rules.specs.Operations as operations;
ghost use Rattle.ac_check.specs.Rows.{row_view, row_operation, first_row, first_grouped};
ghost use Rattle.ac_rules.specs.Rules as rules;
ghost use Rattle.ac_check.specs.Views.{given_view, typed_view};

use crate::given::{
    Given, Typed, given_by, is_cursor, is_object, is_value, is_variable, object_of, takes,
};
use crate::kinds::element_of;
use crate::scope::Scope;
use crate::table::{Row, rows_of};
use ac_rules::{Answer, Letter};
use ac_syntax::{Arg, ElemKind, Ident, Operation, Stmt};

/// Whether an argument is what the letter asks of a call on an object of the type.
fn fits(scope: &Scope, typed: Typed<'_>, letter: Letter, arg: &Arg) -> bool
    ensures { result ≡ rules.fits scope.now (typed_view typed.entry) letter arg.now }
{
    match letter {
        Letter::Cursor => is_cursor(typed.of, given_by(scope, arg)),
        Letter::CursorVariable => is_variable(scope, typed.of, arg),
        Letter::Integer => is_value(ElemKind::Integer, given_by(scope, arg)),
        Letter::Element => is_value(element_of(typed.def), given_by(scope, arg)),
        Letter::Key => is_value(typed.def.first, given_by(scope, arg)),
        Letter::Object => is_object(scope, typed.of, arg),
    }
}

fn fits_optional(scope: &Scope, typed: Typed<'_>, optional: Option<Letter>, args: &[Arg]) -> bool
    ensures { result ≡ rules.fits_optional scope.now (typed_view typed.entry) optional args.now }
{
    match (args, optional) {
        ([], _) => true,
        ([arg], Some(last)) => fits(scope, typed, last, arg),
        _ => false,
    }
}

/// Whether the arguments are what the letters ask, with one more at most.
fn all_fit(
    scope: &Scope,
    typed: Typed<'_>,
    letters: &[Letter],
    optional: Option<Letter>,
    args: &[Arg],
) -> bool
    ensures { result ≡ rules.all_fit scope.now (typed_view typed.entry) letters.now optional args.now }
{
    let [letter, letters @ ..] = letters else {
        return fits_optional(scope, typed, optional, args);
    };
    let [arg, args @ ..] = args else {
        return false;
    };
    fits(scope, typed, *letter, arg) && all_fit(scope, typed, letters, optional, args)
}

fn answered(typed: Typed<'_>, answer: Answer) -> Given<'_>
    ensures { given_view result ≡ rules.answered (typed_view typed.entry) answer }
{
    match answer {
        Answer::Integer => Given::Value(ElemKind::Integer),
        Answer::Cursor => Given::Cursor(typed.of),
        Answer::Element => Given::Value(element_of(typed.def)),
        Answer::Key => Given::Value(typed.def.first),
        Answer::Done | Answer::Truth | Answer::Listing => Given::Nothing,
    }
}

fn takes_answer(scope: &Scope, target: &Option<Ident>, given: Given<'_>) -> bool
    ensures { result ≡ rules.takes_answer scope.now target.now (given_view given.entry) }
{
    match target {
        Some(name) => takes(scope.meaning(name.bytes()), given),
        None => true,
    }
}

/// Whether a call is a row's.
fn is_row(
    scope: &Scope,
    typed: Typed<'_>,
    target: &Option<Ident>,
    word: &[u8],
    args: &[Arg],
    row: &Row,
) -> bool
    ensures { result ≡ rules.is_row scope.now (typed_view typed.entry) target.now word.now args.now (row_view row.now) }
{
    row.word == word
        && all_fit(scope, typed, row.letters, row.optional, args)
        && takes_answer(scope, target, answered(typed, row.answer))
}

/// The first of the rows whose a call is.
fn row_in<'a>(
    scope: &Scope,
    typed: Typed<'_>,
    target: &Option<Ident>,
    word: &[u8],
    args: &[Arg],
    rows: &'a [Row],
) -> Option<&'a Row>
    ensures { option_map row_view (option_copied result)
        ≡ first_row (rules.is_row scope.now (typed_view typed.entry) target.now word.now args.now) rows.now }
{
    rows.iter()
        .find(|row| is_row(scope, typed, target, word, args, row))
}

/// What a call means by the first row of the groups whose it is.
fn operation_among(
    scope: &Scope,
    typed: Typed<'_>,
    target: &Option<Ident>,
    word: &[u8],
    args: &[Arg],
    groups: &[&[Row]],
) -> Option<Operation>
    ensures { result
        ≡ option_map row_operation
        (first_grouped (rules.is_row scope.now (typed_view typed.entry) target.now word.now args.now) groups.now) }
{
    for rows in groups {
        if let Some(row) = row_in(scope, typed, target, word, args, rows) {
            return Some(row.operation);
        }
    }
    None
}

/// What a call on an object of the type means, if it is in the table.
fn operation_of(
    scope: &Scope,
    typed: Option<Typed<'_>>,
    target: &Option<Ident>,
    word: &[u8],
    args: &[Arg],
) -> Option<Operation>
    ensures { result ≡ operations.operation_of scope.now (option_map typed_view typed.entry) target.now word.now args.now }
{
    match typed {
        Some(typed) => operation_among(scope, typed, target, word, args, rows_of(&typed.def)),
        None => None,
    }
}

/// What a statement means, if it is a call of the table.
pub fn meant(scope: &Scope, stmt: &Stmt) -> Option<Operation>
    ensures { result ≡ operations.meant scope.now stmt.now }
{
    match stmt {
        Stmt::Call {
            target,
            object,
            op,
            args,
            ..
        } => {
            let typed = object_of(scope, object.bytes());
            operation_of(scope, typed, target, op.bytes(), args.items())
        }
        _ => None,
    }
}
