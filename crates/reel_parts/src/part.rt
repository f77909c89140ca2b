// Splits a reel (a sequence of coded pictures) into its files: per picture a 4-byte length and a file.
ghost use Rattle.std.specs.Prelude.{◌≡◌, ◌+◌, ◌≤◌, length};
ghost use Rattle.reel_parts.specs.Part.{is_long, file_length_at, part_at};

// The longest reel, in bytes, that is played.
pub const MAX_REEL_BYTES: usize = 16384;

// The size of a length field.
const LENGTH_BYTES: usize = 4;

// Where a file lies in a reel.
#[derive(Clone, Copy)]
pub struct Part {
    pub start: usize,
    pub length: usize,
}

// Whether a reel of this length is too long.
pub fn is_long(bytes: usize) -> bool
    ensures { result ≡ is_long bytes }
{
    MAX_REEL_BYTES < bytes
}

// The length field at an offset, big-endian.
fn file_length_at(reel: &[u8], at: usize) -> usize
    requires { at + 4 ≤ length reel.now }
    ensures { result ≡ file_length_at reel.now at }
{
    u32::from_be_bytes([reel[at], reel[at + 1], reel[at + 2], reel[at + 3]]) as usize
}

// The file whose length field is at an offset, if the reel doesn't end within either.
#[tactic(auto, unfolding(crate::specs::Part::part_at))]
pub fn part_at(reel: &[u8], at: usize) -> Option<Part>
    ensures { result ≡ part_at reel.now at }
{
    if reel.len() < LENGTH_BYTES {
        return None;
    }
    if reel.len() - LENGTH_BYTES < at {
        return None;
    }
    let start = at + LENGTH_BYTES;
    let length = file_length_at(reel, at);
    if reel.len() - start < length {
        return None;
    }
    Some(Part { start, length })
}
