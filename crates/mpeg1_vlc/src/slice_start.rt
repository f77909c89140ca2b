// Reads a slice's start code.
ghost use Rattle.std.specs.Prelude.{◌≡◌, ◌<◌, ◌≤◌};
ghost use Rattle.mpeg1_bits.specs.Requires.{InBytes};
ghost use Rattle.mpeg1_bits.specs.Bits.{bits_from, bits_in};
ghost use Rattle.mpeg1_vlc.specs.SliceStart.{slice_start_of};

use mpeg1_bits::{BitPosition, Window, peek};
use mpeg1_tables::code::{Code, CodeError};

// Fewer than 24 bits are left: truncated if all are zeros, else no code.
fn begun_start(height: u8, next: Window) -> Result<Code, CodeError>
    requires { next.count < 24 }
    ensures { result ≡ slice_start_of height (bits_in next) }
{
    let past = 32 - next.count;
    let front = (next.bits as usize) >> past;
    if front == 0 {
        return Err(CodeError::Truncated);
    }
    Err(CodeError::NoCode)
}

// The first 24 bits exist.
fn slice_start(height: u8, next: Window) -> Result<Code, CodeError>
    requires { (24 ≤ next.count) × (next.count ≤ 32) }
    ensures { result ≡ slice_start_of height (bits_in next) }
{
    let first = next.bits / 256;
    if first != 1 {
        return Err(CodeError::NoCode);
    }
    if next.count < 32 {
        return Err(CodeError::Truncated);
    }
    let row = next.bits % 256;
    if row < 1 || u32::from(height) < row {
        return Err(CodeError::NoCode);
    }
    Ok(Code {
        value: row as u16,
        length: 32,
    })
}

// A slice's start code in a picture `height` macroblocks high; its value is the row.
pub fn read_slice_start(bytes: &[u8], at: BitPosition, height: u8) -> Result<Code, CodeError>
    requires { InBytes bytes.now at }
    ensures { result ≡ slice_start_of height (bits_from bytes.now at) }
{
    let next = peek(bytes, at);
    if next.count < 24 {
        return begun_start(height, next);
    }
    slice_start(height, next)
}
