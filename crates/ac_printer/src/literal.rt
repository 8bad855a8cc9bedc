ghost use Rattle.std.specs.Prelude.{◌≡◌, ◌++◌, flat_map, OnOk};
ghost use Rattle.ac_syntax.specs.Canonical.{quoted_byte, quoted, literal_text};

use ac_base::Value;
use itoa::Buffer;
use std::alloc::AllocError;

/// Adds a string's byte; a quote is doubled.
fn append_byte(text: &mut Vec<u8>, byte: u8) -> Result<(), AllocError>
    ensures { OnOk result (text.new.items ≡ text.old.items ++ quoted_byte byte) }
{
    if byte == b'"' {
        text.extend_from_slice(b"\"\"")
    } else {
        Ok(text.push(byte)?)
    }
}

fn append_bytes(text: &mut Vec<u8>, bytes: &[u8]) -> Result<(), AllocError>
    ensures { OnOk result (text.new.items ≡ text.old.items ++ flat_map quoted_byte bytes.now) }
{
    for byte in bytes {
        append_byte(text, *byte)?;
    }
    Ok(())
}

/// Adds a string between quotes, with the escapes of a canonical text.
pub fn append_quoted(text: &mut Vec<u8>, bytes: &[u8]) -> Result<(), AllocError>
    ensures { OnOk result (text.new.items ≡ text.old.items ++ quoted bytes.now) }
{
    text.extend_from_slice(b"\"")?;
    append_bytes(text, bytes)?;
    text.extend_from_slice(b"\"")
}

/// Adds a literal as a canonical text has it.
pub fn append_literal(text: &mut Vec<u8>, literal: &Value) -> Result<(), AllocError>
    ensures { OnOk result (text.new.items ≡ text.old.items ++ literal_text literal.now) }
{
    match literal {
        Value::Int(value) => text.extend_from_slice(Buffer::new().format(*value).as_bytes()),
        Value::Text(string) => append_quoted(text, string.bytes()),
    }
}
