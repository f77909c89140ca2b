// Reads bits: a position in the bits of a byte slice, and the next 32 bits from there as one number.
// The count of a slice's bits may not fit a usize, so a position is a byte and a bit within it, and only the bits of the last four bytes
// are ever counted.
#![tactic(auto)]

ghost use Rattle.std.specs.Prelude.{◌≡◌, ◌+◌, ◌*◌, ◌/◌, ◌%◌, ◌^◌, ◌-◌, ◌<◌, ◌≤◌, length, get_or, drop};
ghost use Rattle.mpeg1_bits.specs.Bits.{bits, all_zeros, bits_from, skip, window_of, bit_offset, bit_limit};
ghost use Rattle.mpeg1_bits.specs.Requires.{InBytes};

// Bit `bit` of byte `byte`; bit 0 is the most significant.
#[derive(Clone, Copy)]
pub struct BitPosition {
    pub byte: usize,
    pub bit: usize,
}

// The next 32 bits as a number, with zeros past the end, and how many of them really exist.
#[derive(Clone, Copy)]
pub struct Window {
    pub bits: u32,
    pub count: usize,
}

// The byte at an index, or 0 past the end.
fn byte_or_zero(bytes: &[u8], index: usize) -> u8
    ensures { result ≡ get_or bytes.now index 0 }
{
    bytes.get(index).copied().unwrap_or(0)
}

// The 32 bits from bit `bit` on, of the 40 bits in `high` and `low`.
fn shifted(high: u32, low: u8, bit: usize) -> u32
    requires { bit < 8 }
    ensures { result ≡ (256 * high + low) / 2 ^ (8 - bit) % 2 ^ 32 }
{
    let forty = 256 * u64::from(high) + u64::from(low);
    let down = 8 - bit;
    let bits = (forty >> down) % 4294967296;
    bits as u32
}

// The next bits when fewer than five bytes are left.
fn last_bits(bytes: &[u8], at: BitPosition) -> Window
    requires { InBytes bytes.now at × (length bytes.now ≤ at.byte + 4) }
    ensures { result ≡ window_of (bits_from bytes.now at) }
{
    let byte = at.byte;
    let left = bytes.len() - byte;
    let first = byte_or_zero(bytes, byte);
    let second = byte_or_zero(bytes, byte + 1);
    let third = byte_or_zero(bytes, byte + 2);
    let fourth = byte_or_zero(bytes, byte + 3);
    let high = u32::from_be_bytes([first, second, third, fourth]);
    Window {
        bits: shifted(high, 0, at.bit),
        count: 8 * left - at.bit,
    }
}

// The next 32 bits from a position on. Except near the end, this is one length test and five adjacent bytes.
pub fn peek(bytes: &[u8], at: BitPosition) -> Window
    requires { InBytes bytes.now at }
    ensures { result ≡ window_of (bits_from bytes.now at) }
{
    let byte = at.byte;
    let left = bytes.len() - byte;
    if 4 < left {
        let high = u32::from_be_bytes([
            bytes[byte],
            bytes[byte + 1],
            bytes[byte + 2],
            bytes[byte + 3],
        ]);
        return Window {
            bits: shifted(high, bytes[byte + 4], at.bit),
            count: 32,
        };
    }
    last_bits(bytes, at)
}

// The position n bits further on.
pub fn skip(at: BitPosition, n: usize) -> BitPosition
    requires { (n < 64) × (at.bit < 8) × (bit_offset at + n < bit_limit) }
    ensures { result ≡ skip at n }
{
    let next = at.bit + n;
    BitPosition {
        byte: at.byte + next / 8,
        bit: next % 8,
    }
}

// Whether all bytes are zero.
fn zero_bytes(bytes: &[u8]) -> bool
    ensures { result ≡ all_zeros (bits bytes.now) }
{
    bytes.iter().all(|byte| *byte == 0)
}

// Whether all bits left, if any, are zeros. If the next 32 are, so is the rest of the current byte, and only whole bytes remain to be tested.
pub fn only_zeros_left(bytes: &[u8], at: BitPosition) -> bool
    requires { InBytes bytes.now at }
    ensures { result ≡ all_zeros (bits_from bytes.now at) }
{
    let next = peek(bytes, at);
    if next.bits != 0 {
        return false;
    }
    let byte = at.byte;
    if bytes.len() <= byte {
        return true;
    }
    zero_bytes(&bytes[byte + 1..])
}
