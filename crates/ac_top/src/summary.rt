//! What `--generate` writes of the lines of its script.
ghost use Rattle.std.specs.Prelude.{◌≡◌, ◌++◌, decimal, OnOk, IfOk};
ghost use Rattle.ac_top.specs.Summary.{line_count, past_lines, summary_text};

use itoa::Buffer;
use std::alloc::{AllocError, Global};

/// How many lines are shown.
const SHOWN: usize = 4;

fn line_count(text: &[u8]) -> usize
    ensures { result ≡ line_count text.now }
{
    text.iter().filter(|byte| **byte == b'\n').count()
}

/// What stands behind so many lines.
fn past_lines(text: &[u8], lines: usize) -> &[u8]
    ensures { result.now ≡ past_lines text.now lines }
{
    let mut rest = text;
    let mut left = lines;
    while left > 0 {
        let Some((byte, after)) = rest.split_first() else {
            return rest;
        };
        left -= usize::from(*byte == b'\n');
        rest = after;
    }
    rest
}

/// The number of the lines of a text, and the last four.
pub fn summary_of(alloc: Global, text: &[u8]) -> Result<Vec<u8>, AllocError>
    ensures { IfOk result (λ summary. summary.items ≡ summary_text text.now) }
{
    let count = line_count(text);
    let mut summary = Vec::new(alloc);
    summary.extend_from_slice(b"lines ")?;
    summary.extend_from_slice(Buffer::new().format(count as u64).as_bytes())?;
    summary.push(b'\n')?;
    summary.extend_from_slice(past_lines(text, count.saturating_sub(SHOWN)))?;
    Ok(summary)
}
