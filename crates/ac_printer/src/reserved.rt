ghost use Rattle.std.specs.Prelude.{◌≡◌};
ghost use Rattle.std.specs.List.{list_any};
ghost use Rattle.std.specs.Str.{bytes_eq};
ghost use Rattle.ac_syntax.specs.Grammar as grammar;

/// The words that name nothing.
const RESERVED: [&[u8]; 36] = [
    b"type",
    b"is",
    b"bounded",
    b"keyed",
    b"cursor",
    b"integer",
    b"string",
    b"vector",
    b"list",
    b"hashed_map",
    b"ordered_map",
    b"hashed_set",
    b"ordered_set",
    b"tree",
    b"holder",
    b"queue",
    b"priority_queue",
    b"for",
    b"in",
    b"of",
    b"reverse",
    b"loop",
    b"end",
    b"query",
    b"update",
    b"reference",
    b"update_key",
    b"at",
    b"as",
    b"do",
    b"stable",
    b"declare",
    b"begin",
    b"tasks",
    b"task",
    b"no_element",
];

/// Whether a word is one of these.
pub fn is_among(word: &[u8], words: &[&[u8]]) -> bool
    ensures { result ≡ list_any (λ w. bytes_eq word.now w.now) words.now }
{
    words.iter().any(|w| word == *w)
}

/// Whether a word names nothing.
#[tactic(auto, unfolding(ac_syntax::specs::Grammar::reserved, ac_syntax::specs::Grammar::is_reserved))]
pub fn is_reserved(word: &[u8]) -> bool
    ensures { result ≡ grammar.is_reserved word.now }
{
    is_among(word, &RESERVED)
}
