//! Every prefix of a script. It is taken where it is empty or ends behind a `;`; else it is refused at its last token.
use crate::outcome::end_of_plain_run;
use crate::rows::lines_of;
use itoa::Buffer;
use std::alloc::Global;
use std::process::Abort;
use std::sync::Wait;
use std::test::Fail;
use std::thread::Threads;

/// Two declarations and three commands, each with its `;` at the end of its line. So what is no end of an item ends in a token's line.
const SCRIPT: &str =
    "type L is list (integer); / A : L; / A.Append (5); / A.Append (7, 2); / A.Print;";

const LINES: &str = "3: ok / 4: ok / 5: [5, 7, 7]";

const DECLARATIONS: usize = 2;

fn count_of(text: &[u8], wanted: u8) -> usize {
    text.iter().filter(|byte| **byte == wanted).count()
}

fn is_whole(prefix: &[u8]) -> bool {
    match prefix.iter().rev().find(|byte| **byte != b'\n') {
        Some(last) => *last == b';',
        None => true,
    }
}

/// The refusal of a prefix that ends in a token's line.
fn refusal(alloc: Global, prefix: &[u8]) -> Result<Vec<u8>, Fail> {
    let line = count_of(prefix, b'\n').saturating_add(1);
    let mut text = b"line ".to_vec(alloc)?;
    text.extend_from_slice(Buffer::new().format(line as u64).as_bytes())?;
    text.extend_from_slice(b": syntax\n")?;
    Ok(text)
}

/// Whether a prefix is refused, or writes a line for each of its commands.
fn is_answered<R: Threads + Wait + Sync>(
    rt: &R,
    alloc: Global,
    prefix: &[u8],
    lines: &[u8],
) -> Result<bool, Fail> {
    let ended = end_of_plain_run(rt, alloc, "", prefix)?;
    if !is_whole(prefix) {
        return Ok(ended.is(1, &refusal(alloc, prefix)?));
    }
    let commands = count_of(prefix, b';').saturating_sub(DECLARATIONS);
    Ok(
        ended.status == 0
            && lines.starts_with(&ended.text)
            && count_of(&ended.text, b'\n') == commands,
    )
}

fn each_prefix_is_answered<R: Threads + Wait + Abort + Sync>(
    rt: &R,
    alloc: Global,
) -> Result<(), Fail> {
    let (script, lines) = (lines_of(alloc, SCRIPT)?, lines_of(alloc, LINES)?);
    let mut prefix = Vec::new(alloc);
    assert!(rt; is_answered(rt, alloc, &prefix, lines.as_bytes())?);
    for byte in script.as_bytes() {
        prefix.push(*byte)?;
        assert!(rt;
            is_answered(rt, alloc, &prefix, lines.as_bytes())?,
            "{}",
            prefix.len()
        );
    }
    Ok(())
}

#[test]
fn prefixes_are_taken_or_refused_at_their_last_token(rt: HostRuntime) -> Result<(), Fail> {
    each_prefix_is_answered(&rt, rt.alloc())
}
