ghost use Rattle.std.specs.Prelude.{◌≡◌};
ghost use Rattle.ac_syntax.specs.Keywords.{keyword_text};

use crate::ident::Ident;
use crate::string_bytes::StringBytes;

/// A mark of one or two bytes.
#[derive(Clone, Copy, PartialEq, Eq)]
pub enum Mark {
    Colon,
    Semicolon,
    Comma,
    Open,
    Close,
    Dot,
    Assign,
    Plus,
    Minus,
    /// `=>`
    Arrow,
    BracketOpen,
    BracketClose,
    /// `'`
    Tick,
    Star,
    Equal,
    /// `/=`
    NotEqual,
    Less,
    LessEqual,
    Greater,
    GreaterEqual,
}

/// A word that is reserved where exceptions propagate, and there alone.
#[derive(Clone, Copy, PartialEq, Eq)]
pub enum Keyword {
    Pragma,
    Propagate,
    Exception,
    When,
    Others,
    ProgramError,
    ConstraintError,
    CapacityError,
}

impl Keyword {
    /// The word, in lower case.
    pub fn text(&self) -> &'static str
        ensures { result.now ≡ keyword_text self.now }
    {
        match self {
            Keyword::Pragma => "pragma",
            Keyword::Propagate => "propagate",
            Keyword::Exception => "exception",
            Keyword::When => "when",
            Keyword::Others => "others",
            Keyword::ProgramError => "program_error",
            Keyword::ConstraintError => "constraint_error",
            Keyword::CapacityError => "capacity_error",
        }
    }
}

#[derive(Drop)]
pub enum Token {
    /// A word in lower case, reserved or not.
    Word(Ident),
    /// A word that is reserved because exceptions propagate.
    Keyword(Keyword),
    /// A number, or the greatest `u64` where the digits write a greater one.
    Number(u64),
    Text(StringBytes),
    Mark(Mark),
}

/// A token and the line that it stands on, from 1.
#[derive(Drop)]
pub struct Placed {
    pub token: Token,
    pub line: u64,
}
