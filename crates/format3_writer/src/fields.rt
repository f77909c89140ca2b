// Fields written into a lent buffer at an offset. Bytes past the end of the buffer are dropped; the offset goes on.
ghost use Rattle.std.specs.Prelude.{◌≡◌, [], ◌∷◌, ◌+◌, leb};
ghost use Rattle.format3_writer.specs.Written.{written, saturating_add};
ghost use Rattle.format3_writer.specs.Bytes.{big_endian_bytes, signed_big_endian_bytes};

// An offset past the end of every buffer: no buffer is that long.
const MAX_OFFSET: usize = 1 << 63;

// Whether this many bytes, from an offset on, fit a buffer of this length.
pub(crate) fn has_room(length: usize, at: usize, bytes: usize) -> bool
    ensures { result ≡ leb (at + bytes) length }
{
    bytes <= length && at <= length - bytes
}

// The offset this many bytes on, at most `MAX_OFFSET`, so that offsets never overflow.
#[tactic(auto, unfolding(crate::specs::Written::saturating_add))]
pub fn saturating_add(at: usize, bytes: usize) -> usize
    ensures { result ≡ saturating_add at bytes }
{
    at.saturating_add(bytes).min(MAX_OFFSET)
}

// Writes one byte.
#[tactic(auto, unfolding(crate::specs::Written::written))]
pub fn write_u8(buffer: &mut [u8], at: usize, byte: u8)
    ensures { buffer.new ≡ written at (byte ∷ []) buffer.old }
{
    if at < buffer.len() {
        buffer[at] = byte;
    }
}

// Writes several bytes in order.
#[tactic(auto, using(crate::proofs::Laws::Written::written_past))]
pub fn write_bytes(buffer: &mut [u8], at: usize, bytes: &[u8])
    ensures { buffer.new ≡ written at bytes.now buffer.old }
{
    if buffer.len() <= at {
        return;
    }
    let fitting = bytes.len().min(buffer.len() - at);
    buffer[at..at + fitting].copy_from_slice(&bytes[..fitting]);
}

// Writes an unsigned 16-bit number, big-endian.
#[tactic(auto, unfolding(crate::specs::Written::written, crate::specs::Bytes::big_endian_bytes))]
fn write_u16(buffer: &mut [u8], at: usize, value: u16)
    ensures { buffer.new ≡ written at (big_endian_bytes value) buffer.old }
{
    let [high, low] = value.to_be_bytes();
    if has_room(buffer.len(), at, 2) {
        buffer[at] = high;
        buffer[at + 1] = low;
        return;
    }
    write_bytes(buffer, at, &[high, low]);
}

// Writes a signed 16-bit number, big-endian.
#[tactic(auto, using(crate::proofs::Laws::Bytes::word_cast))]
pub fn write_i16(buffer: &mut [u8], at: usize, value: i16)
    ensures { buffer.new ≡ written at (signed_big_endian_bytes value) buffer.old }
{
    write_u16(buffer, at, value.cast_unsigned());
}
