//! Lines whose length is bounded: each is made in an array, from its end to its beginning, and written at once.
ghost use Rattle.std.specs.Prelude.{◌≡◌, ◌≤◌, ◌<◌, ◌+◌, ◌∷◌, ◌++◌, [], codes, decimal, drop, length};
ghost use Rattle.std.specs.Fmt.{signed_decimal};
ghost use Rattle.ac_host.specs.Writing.{Writes};

use crate::end::HostEnd;
use ac_io::{Sink, write_all};
use itoa::write_digits;

/// The most bytes of a line: a number of 20 digits, a colon, an integer and its end.
pub const LINE: usize = 43;

/// Writes a line of which all but its number stands in the array, behind this place.
#[inline(always)]
pub fn write_numbered<K: Sink>(
    line: &mut [u8],
    end: usize,
    number: u64,
    sink: &mut K,
) -> Result<(), HostEnd>
    requires { (20 ≤ end) × (end ≤ length line.old) }
    ensures { Writes K.held K.faults K.room K.counts_failures sink.old sink.new (decimal number ++ drop end line.old) result }
{
    let start = put_number(line, end, number);
    write_all(sink, &line[start..])?;
    Ok(())
}

/// Puts a number so that it ends at this place, and says where it starts. A line's number mostly has one or two digits.
#[inline(always)]
fn put_number(line: &mut [u8], end: usize, number: u64) -> usize
    requires { (20 ≤ end) × (end ≤ length line.old) }
    ensures start { result + length (decimal number) ≡ end }
    ensures written { drop result line.new ≡ decimal number ++ drop end line.old }
    ensures length { length line.new ≡ length line.old }
{
    if number < 10 {
        return put_digit(line, end, number);
    }
    if number < 100 {
        let tens = put_digit(line, end, number % 10);
        return put_digit(line, tens, number / 10);
    }
    write_digits(number, line, end)
}

/// Puts a digit before this place, and says where it stands.
#[inline(always)]
fn put_digit(line: &mut [u8], end: usize, digit: u64) -> usize
    requires { (0 < end) × (end ≤ length line.old) × (digit < 10) }
    ensures start { result + 1 ≡ end }
    ensures written { drop result line.new ≡ (48 + digit) ∷ drop end line.old }
    ensures length { length line.new ≡ length line.old }
{
    put_byte(line, end - 1, b'0' + digit as u8);
    end - 1
}

#[inline(always)]
fn put_byte(line: &mut [u8], at: usize, byte: u8)
    requires { at < length line.old }
    ensures written { drop at line.new ≡ byte ∷ drop (at + 1) line.old }
    ensures length { length line.new ≡ length line.old }
{
    line[at] = byte;
}

/// Puts an integer so that it ends at this place, and says where it starts.
#[inline(always)]
fn put_integer(line: &mut [u8], end: usize, value: i64) -> usize
    requires { (20 ≤ end) × (end ≤ length line.old) }
    ensures start { end ≤ result + 20 }
    ensures written { drop result line.new ≡ signed_decimal value ++ drop end line.old }
    ensures length { length line.new ≡ length line.old }
    ensures within { result ≤ end }
{
    let start = put_number(line, end, value.unsigned_abs());
    if value >= 0 {
        return start;
    }
    put_byte(line, start - 1, b'-');
    start - 1
}

/// Puts a colon and an integer before the end of a line, and says where they start.
#[inline(always)]
pub fn put_value(line: &mut [u8], value: i64) -> usize
    requires { (length line.old ≡ LINE) × (drop 42 line.old ≡ 10 ∷ []) }
    ensures start { 20 ≤ result }
    ensures within { result ≤ LINE }
    ensures written { drop result line.new ≡ codes ": " ++ (signed_decimal value ++ 10 ∷ []) }
    ensures length { length line.new ≡ LINE }
{
    let start = put_integer(line, LINE - 1, value);
    put_byte(line, start - 1, b' ');
    put_byte(line, start - 2, b':');
    start - 2
}
