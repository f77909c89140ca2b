// Writes text into a lent buffer, field by field.
#![tactic(auto)]

ghost use Rattle.std.specs.Prelude.{◌≡◌, ◌+◌, ◌≤◌, length};
ghost use Rattle.format3_writer.specs.Written.{written};
ghost use Rattle.text_writer.specs.Number.{field, signed_field};

use format3_writer::fields;

pub const SPACE: u8 = b' ';

pub const LINE_END: u8 = b'\n';

// The most digits of a 64-bit number.
const MAX_DIGITS: usize = 20;

// The most bytes of a field: a number and the byte after it.
pub const FIELD_BYTES: usize = MAX_DIGITS + 1;

// Writes bytes at an offset and returns where they end.
pub fn put_bytes(text: &mut [u8], at: usize, bytes: &[u8]) -> usize
    requires { at + length bytes.now ≤ length text.old }
    ensures value { result ≡ at + length bytes.now }
    ensures text_after { text.new ≡ written at bytes.now text.old }
{
    fields::write_bytes(text, at, bytes);
    at + bytes.len()
}

// Writes a number in decimal and the byte after it, and returns where they end.
pub fn put_field(text: &mut [u8], at: usize, number: u64, after: u8) -> usize
    requires { at + length (field number after) ≤ length text.old }
    ensures value { result ≡ at + length (field number after) }
    ensures text_after { text.new ≡ written at (field number after) text.old }
{
    let mut digits = [0u8; MAX_DIGITS];
    let length = io::decimal(number, &mut digits);
    let end = put_bytes(text, at, &digits[..length]);
    put_bytes(text, end, &[after])
}

// Writes a number that may be negative, in decimal, and the byte after it, and returns where they end.
pub fn put_signed_field(text: &mut [u8], at: usize, number: i32, after: u8) -> usize
    requires { at + length (signed_field number after) ≤ length text.old }
    ensures value { result ≡ at + length (signed_field number after) }
    ensures text_after { text.new ≡ written at (signed_field number after) text.old }
{
    let size = u64::from(number.unsigned_abs());
    if number < 0 {
        let sign_end = put_bytes(text, at, b"-");
        return put_field(text, sign_end, size, after);
    }
    put_field(text, at, size, after)
}
