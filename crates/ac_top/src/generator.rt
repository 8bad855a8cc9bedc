//! The script of a size that `--generate` runs.
ghost use Rattle.std.specs.Prelude.{◌≡◌, ◌≤◌, ◌++◌, decimal, length, OnOk, IfOk};
ghost use Rattle.ac_meaning.specs.declared.limits.TheConstants.{INPUT_LIMIT};
ghost use Rattle.ac_top.specs.Generator.{generated};

use crate::line::append;
use itoa::Buffer;
use std::alloc::{AllocError, Global};

/// The declarations, up to the size of the vector.
const DECLARATIONS: &str = "type V is vector (integer);
type S is ordered_set (integer);
type M is hashed_map (integer, integer);
A : V;
B : S;
D : M;
N : integer;
A.Append (0, ";

const START: &str = ");
N := ";

/// The loop, and what is asked of the set and the map after it, up to the greatest key.
const LOOP: &str = ";
for C in A loop
B.Insert (N);
D.Include (N, N);
N := N - 1;
end loop;
B.Length;
B.First_Element;
B.Last_Element;
D.Element (";

const END: &str = ");
";

/// Adds some words, and the number behind them.
fn append_with(text: &mut Vec<u8>, words: &str, number: u64) -> Result<(), AllocError>
    ensures { OnOk result (text.new.items ≡ (text.old.items ++ words.now) ++ decimal number) }
{
    append(text, words)?;
    append(text, Buffer::new().format(number))
}

/// The script.
pub fn generated(alloc: Global, number: u64) -> Result<Vec<u8>, AllocError>
    ensures text { IfOk result (λ text. text.items ≡ generated number) }
    ensures short { IfOk result (λ text. length text.items ≤ INPUT_LIMIT) }
{
    let mut text = Vec::new(alloc);
    append_with(&mut text, DECLARATIONS, number)?;
    append_with(&mut text, START, number)?;
    append_with(&mut text, LOOP, number)?;
    append(&mut text, END)?;
    Ok(text)
}
