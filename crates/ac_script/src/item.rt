//! Items as they are read, their numbers of any size.

use crate::argument::{Argument, Arguments};
use ac_base::Exception;
use ac_syntax::{Closing, Decl, Ident, ViewKind};

/// A command, with the line of its first token.
#[derive(Drop)]
pub enum Command {
    /// A call, whose answer the target takes where there is one.
    Call {
        line: u64,
        target: Option<Ident>,
        object: Ident,
        op: Ident,
        args: Arguments,
    },
    Set {
        line: u64,
        target: Ident,
        from: Argument,
    },
    /// A variable with a number added, or with `minus` taken away.
    Sum {
        line: u64,
        target: Ident,
        from: Ident,
        minus: bool,
        number: u64,
    },
}

/// The words that begin a block, with the line of the first one.
#[derive(Drop)]
pub enum Head {
    /// A loop over the cursors of an object, or with `elements` over its elements.
    Loop {
        line: u64,
        name: Ident,
        elements: bool,
        backward: bool,
        object: Ident,
    },
    View {
        line: u64,
        kind: ViewKind,
        object: Ident,
        at: Option<Ident>,
        name: Ident,
    },
    Stable {
        line: u64,
        object: Ident,
    },
    Declare {
        line: u64,
    },
    Tasks {
        line: u64,
    },
    Task {
        line: u64,
        name: Ident,
    },
}

/// One piece of a script in the order of its text.
#[derive(Drop)]
pub enum Item {
    Declares(Decl),
    Commands(Command),
    Opens(Head),
    /// The word `begin` after the declarations of a block.
    Begins,
    /// The words that end a block, or what is tried in one.
    Closes(Closing),
    /// The pragma.
    Propagates {
        line: u64,
    },
    /// The word `begin` of a block with handlers.
    Tries {
        line: u64,
    },
    /// A handler's head: the exception that it takes, or None where it takes all others.
    Catches {
        line: u64,
        exception: Option<Exception>,
    },
}
