ghost use Rattle.std.specs.Prelude.{◌≡◌};
ghost use Rattle.ac_syntax.specs.Parts.{marks};
ghost use Rattle.ac_syntax.specs.Canonical as canonical;

use ac_syntax::Mark;

pub fn mark_text(mark: Mark) -> &'static str
    ensures { result.now ≡ canonical.mark_text mark }
{
    match mark {
        Mark::Colon => ":",
        Mark::Semicolon => ";",
        Mark::Comma => ",",
        Mark::Open => "(",
        Mark::Close => ")",
        Mark::Dot => ".",
        Mark::Assign => ":=",
        Mark::Plus => "+",
        Mark::Minus => "-",
        Mark::Arrow => "=>",
        Mark::BracketOpen => "[",
        Mark::BracketClose => "]",
        Mark::Tick => "'",
        Mark::Star => "*",
        Mark::Equal => "=",
        Mark::NotEqual => "/=",
        Mark::Less => "<",
        Mark::LessEqual => "<=",
        Mark::Greater => ">",
        Mark::GreaterEqual => ">=",
    }
}

/// No space stands before the mark.
pub fn follows_closely(mark: Mark) -> bool
    ensures { result ≡ canonical.follows_closely (marks mark) }
{
    matches!(
        mark,
        Mark::Semicolon | Mark::Comma | Mark::Close | Mark::Dot | Mark::BracketClose
    )
}

/// No space stands behind the mark.
pub fn leads_closely(mark: Mark) -> bool
    ensures { result ≡ canonical.leads_closely (marks mark) }
{
    matches!(mark, Mark::Open | Mark::Dot | Mark::BracketOpen)
}
