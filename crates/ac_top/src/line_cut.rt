//! The first line of a text that is just a given one.
ghost use Rattle.std.specs.Prelude.{◌≡◌, ◌<◌, ◌≤◌, ◌==◌, ℕ, true, None, not, length, IfSome};
ghost use Rattle.std.specs.List.{list_all, prefix_len};
ghost use Rattle.ac_top.specs.LineCuts.{IsLineStart, BeginsWithLine, IsFirstLine, HasNoLine};

/// The text begins with the line and its LF.
fn begins_with_line(text: &[u8], line: &[u8]) -> bool
    ensures yes { result ≡ true → BeginsWithLine line.now text.now }
    ensures no { BeginsWithLine line.now text.now → result ≡ true }
{
    let Some(behind) = text.strip_prefix(line) else {
        return false;
    };
    match behind {
        [first, ..] => *first == b'\n',
        [] => false,
    }
}

/// How many bytes stand before the first LF.
fn line_len(text: &[u8]) -> usize
    ensures len { result ≡ prefix_len (λ byte. not (byte == 10)) text.now }
    ensures within { result ≤ length text.now }
{
    text.iter().take_while(|byte| **byte != b'\n').count()
}

/// Where the next line begins behind a place, or the text's end.
fn next_line(text: &[u8], at: usize) -> usize
    requires { at < length text.now }
    ensures later { at < result }
    ensures within { result ≤ length text.now }
    ensures starts { result < length text.now → IsLineStart text.now result }
    ensures between { (place : ℕ) → at < place → place < result → IsLineStart text.now place → ⊥ }
{
    let (_, rest) = text.split_at(at);
    let end = at + line_len(rest);
    if end < text.len() { end + 1 } else { end }
}

/// Where the first line begins that is just this one, with its LF. Each byte of the text is read at most twice, since the line has no LF.
pub fn first_line(text: &[u8], line: &[u8]) -> Option<usize>
    requires { list_all (λ byte. not (byte == 10)) line.now ≡ true }
    ensures found { IfSome result (λ at. IsFirstLine line.now text.now at) }
    ensures absent { result ≡ None → HasNoLine line.now text.now }
{
    let mut at = 0;
    while at < text.len() {
        let (_, rest) = text.split_at(at);
        if begins_with_line(rest, line) {
            return Some(at);
        }
        at = next_line(text, at);
    }
    None
}
