//! The limits of a script's tokens.
ghost use Rattle.std.specs.Prelude.{◌≡◌, ◌<◌, ◌^◌, ◌-◌};
ghost use Rattle.ac_syntax.specs.Limits as limits;
ghost use Rattle.ac_syntax.specs.Limits.{is_word_of, seen_after, is_past_limit};
ghost use Rattle.ac_script.specs.Behind.{progress_view, seen_view, StandWithin};

use ac_printer::is_among;
use ac_syntax::{Mark, Placed, Token};

/// The longest name, in bytes.
const LONGEST_NAME: usize = 64;

/// The longest string, in bytes.
const LONGEST_STRING: usize = 1_000;

/// How many blocks may stand inside each other.
const DEEPEST: u64 = 16;

/// How many tasks a block may have.
const MOST_TASKS: u64 = 8;

/// How many commands a task may have.
const MOST_COMMANDS: u64 = 1_000;

/// The magnitude of the least integer.
pub const LEAST: u64 = 9223372036854775808;

const BLOCK_WORDS: [&[u8]; 8] = [
    b"for",
    b"query",
    b"update",
    b"update_key",
    b"reference",
    b"stable",
    b"declare",
    b"tasks",
];

const END_WORDS: [&[u8]; 1] = [b"end"];

const TASKS_WORDS: [&[u8]; 1] = [b"tasks"];

const TASK_WORDS: [&[u8]; 1] = [b"task"];

const BEGIN_WORDS: [&[u8]; 1] = [b"begin"];

const DECLARE_WORDS: [&[u8]; 1] = [b"declare"];

/// How far a task has come.
#[derive(Clone, Copy, PartialEq, Eq)]
enum Progress {
    /// No task is open.
    NoTask,
    /// At its front, up to `begin`.
    Opened,
    /// A command of it comes, or its end.
    Due,
    InCommand,
}

/// What the tokens so far say of the limits of the next one.
#[derive(Clone, Copy, PartialEq, Eq)]
struct Behind {
    /// How many blocks are open.
    depth: u64,
    /// The last token is a mark behind which a literal may begin.
    opened: bool,
    /// The last token is a literal's minus.
    minus: bool,
    /// The last token is `end`.
    ended: bool,
    /// The declarations of a block await its `begin`.
    awaited: bool,
    /// How many tasks the open block of tasks has so far.
    tasks: u64,
    progress: Progress,
    /// How many commands the task has so far.
    commands: u64,
}

fn is_block_word(token: &Token) -> bool
    ensures { result ≡ is_word_of limits.block_words token.now }
{
    match token {
        Token::Word(word) => is_among(word.bytes(), &BLOCK_WORDS),
        _ => false,
    }
}

fn is_end_word(token: &Token) -> bool
    ensures { result ≡ is_word_of limits.end_words token.now }
{
    match token {
        Token::Word(word) => is_among(word.bytes(), &END_WORDS),
        _ => false,
    }
}

fn is_tasks_word(token: &Token) -> bool
    ensures { result ≡ is_word_of limits.tasks_words token.now }
{
    match token {
        Token::Word(word) => is_among(word.bytes(), &TASKS_WORDS),
        _ => false,
    }
}

fn is_task_word(token: &Token) -> bool
    ensures { result ≡ is_word_of limits.task_words token.now }
{
    match token {
        Token::Word(word) => is_among(word.bytes(), &TASK_WORDS),
        _ => false,
    }
}

fn is_begin_word(token: &Token) -> bool
    ensures { result ≡ is_word_of limits.begin_words token.now }
{
    match token {
        Token::Word(word) => is_among(word.bytes(), &BEGIN_WORDS),
        _ => false,
    }
}

fn is_declare_word(token: &Token) -> bool
    ensures { result ≡ is_word_of limits.declare_words token.now }
{
    match token {
        Token::Word(word) => is_among(word.bytes(), &DECLARE_WORDS),
        _ => false,
    }
}

fn is_mark(token: &Token, wanted: Mark) -> bool
    ensures { result ≡ limits.is_mark wanted token.now }
{
    match token {
        Token::Mark(found) => *found == wanted,
        _ => false,
    }
}

fn is_before_literal(token: &Token) -> bool
    ensures { result ≡ limits.is_before_literal token.now }
{
    is_mark(token, Mark::Open) || is_mark(token, Mark::Comma) || is_mark(token, Mark::Assign)
}

impl Progress {
    fn is_open(self) -> bool
        ensures { result ≡ limits.is_open (progress_view self) }
    {
        !matches!(self, Progress::NoTask)
    }

    fn is_at_front(self) -> bool
        ensures { result ≡ limits.is_at_front (progress_view self) }
    {
        matches!(self, Progress::Opened)
    }

    fn is_due(self) -> bool
        ensures { result ≡ limits.is_due (progress_view self) }
    {
        matches!(self, Progress::Due)
    }

    /// The same behind one token more, which neither begins nor ends a task.
    fn goes_on(self, token: &Token) -> Progress
        ensures { progress_view result ≡ limits.goes_on (progress_view self) token.now }
    {
        match self {
            Progress::NoTask => Progress::NoTask,
            Progress::Opened if is_begin_word(token) => Progress::Due,
            Progress::Opened => Progress::Opened,
            Progress::Due => Progress::InCommand,
            Progress::InCommand if is_mark(token, Mark::Semicolon) => Progress::Due,
            Progress::InCommand => Progress::InCommand,
        }
    }

    /// The same behind one token more.
    fn after(self, token: &Token) -> Progress
        ensures { progress_view result ≡ limits.progress_after (progress_view self) token.now }
    {
        if is_task_word(token) {
            Progress::Opened
        } else if is_end_word(token) {
            Progress::NoTask
        } else {
            self.goes_on(token)
        }
    }
}

impl Behind {
    /// A block with handlers begins with this token.
    fn begins_handled(&self, token: &Token) -> bool
        ensures { result ≡ limits.begins_handled (seen_view self.now) token.now }
    {
        is_begin_word(token) && !self.awaited && !self.progress.is_at_front()
    }

    /// A block begins with this token.
    fn begins_block(&self, token: &Token) -> bool
        ensures { result ≡ limits.begins_block (seen_view self.now) token.now }
    {
        is_block_word(token) && !self.ended || self.begins_handled(token)
    }

    /// A command of a task begins with this token.
    fn begins_command(&self, token: &Token) -> bool
        ensures { result ≡ limits.begins_command (seen_view self.now) token.now }
    {
        self.progress.is_due() && !is_end_word(token)
    }

    /// Whether a block, a task or a command that begins with this token is one too many.
    fn is_one_too_many(&self, token: &Token) -> bool
        ensures { result ≡ limits.is_one_too_many (seen_view self.now) token.now }
    {
        self.begins_block(token) && self.depth >= DEEPEST
            || is_task_word(token) && self.tasks >= MOST_TASKS
            || self.begins_command(token) && self.commands >= MOST_COMMANDS
    }

    /// Whether the next token is past a limit.
    fn refuses(&self, token: &Token) -> bool
        ensures { result ≡ is_past_limit (seen_view self.now) token.now }
    {
        match token {
            Token::Word(word) => word.bytes().len() > LONGEST_NAME || self.is_one_too_many(token),
            Token::Number(number) => *number > self.most(),
            Token::Text(string) => string.bytes().len() > LONGEST_STRING,
            Token::Keyword(_) | Token::Mark(_) => false,
        }
    }

    /// The greatest number that may stand here.
    fn most(&self) -> u64
        ensures { result ≡ limits.most (seen_view self.now) }
    {
        if self.minus { LEAST } else { LEAST - 1 }
    }

    /// How many blocks are open behind one token more.
    fn depth_after(&self, token: &Token) -> u64
        requires { self.now.depth < 2 ^ 64 - 1 }
        ensures { result ≡ limits.depth_after (seen_view self.now) token.now }
    {
        if self.begins_block(token) {
            self.depth + 1
        } else if is_end_word(token) && !self.progress.is_open() {
            self.depth.saturating_sub(1)
        } else {
            self.depth
        }
    }

    /// Whether the declarations of a block await its `begin` behind one token more.
    fn awaited_after(&self, token: &Token) -> bool
        ensures { result ≡ limits.awaited_after (seen_view self.now) token.now }
    {
        is_declare_word(token) || self.awaited && !is_begin_word(token)
    }

    /// How many tasks the block has behind one token more.
    fn tasks_after(&self, token: &Token) -> u64
        requires { self.now.tasks < 2 ^ 64 - 1 }
        ensures { result ≡ limits.tasks_after (seen_view self.now) token.now }
    {
        if is_tasks_word(token) {
            0
        } else if is_task_word(token) {
            self.tasks + 1
        } else {
            self.tasks
        }
    }

    /// How many commands the task has behind one token more.
    fn commands_after(&self, token: &Token) -> u64
        requires { self.now.commands < 2 ^ 64 - 1 }
        ensures { result ≡ limits.commands_after (seen_view self.now) token.now }
    {
        if is_task_word(token) {
            0
        } else if self.begins_command(token) {
            self.commands + 1
        } else {
            self.commands
        }
    }

    /// The same behind one token more.
    fn one_more(&self, token: &Token) -> Behind
        requires depth { self.now.depth < 2 ^ 64 - 1 }
        requires tasks { self.now.tasks < 2 ^ 64 - 1 }
        requires commands { self.now.commands < 2 ^ 64 - 1 }
        ensures { seen_view result ≡ seen_after (seen_view self.now) token.now }
    {
        Behind {
            depth: self.depth_after(token),
            opened: is_before_literal(token),
            minus: is_mark(token, Mark::Minus) && self.opened,
            ended: is_end_word(token),
            awaited: self.awaited_after(token),
            tasks: self.tasks_after(token),
            progress: self.progress.after(token),
            commands: self.commands_after(token),
        }
    }
}

/// How many tokens stand before the first one that is past a limit.
pub fn within(placed: &[Placed]) -> usize
    ensures { StandWithin result placed.now }
{
    let mut behind = Behind {
        depth: 0,
        opened: false,
        minus: false,
        ended: false,
        awaited: false,
        tasks: 0,
        progress: Progress::NoTask,
        commands: 0,
    };
    for (count, next) in placed.iter().enumerate() {
        if behind.refuses(&next.token) {
            return count;
        }
        behind = behind.one_more(&next.token);
    }
    placed.len()
}
