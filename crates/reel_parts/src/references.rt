// Keeps the last two accepted I or P pictures as references, and picks the ones that each picture needs.
ghost use Rattle.std.specs.Prelude.{◌≡◌, length, take};
ghost use Rattle.format3_writer.specs.Written.{written};
ghost use Rattle.reel_parts.specs.References.{forward_for, backward_for};

use format3_header::file_start::{FileStart, RefusedAt};
use symbols::header::{B_PICTURE, P_PICTURE};

// The lengths of the kept references (the frame store), each at the start of its own buffer; 0 if there is none.
#[derive(Clone, Copy)]
pub struct Kept {
    pub older: usize,
    pub newer: usize,
}

// The first n bytes, or all if there are fewer.
pub fn first(bytes: &[u8], n: usize) -> &[u8]
    ensures { result.now ≡ take n bytes.now }
{
    if bytes.len() < n {
        return bytes;
    }
    &bytes[..n]
}

// The forward reference for a file that starts like this; empty for an I picture.
pub fn forward_for<'a>(
    start: Result<FileStart, RefusedAt>,
    kept: Kept,
    older: &'a [u8],
    newer: &'a [u8],
) -> &'a [u8]
    ensures { result.now ≡ forward_for start (take kept.older older.now) (take kept.newer newer.now) }
{
    let Ok(FileStart { header, .. }) = start else {
        return &older[0..0];
    };
    let coding_type = header.coding_type;
    if coding_type == P_PICTURE {
        return first(newer, kept.newer);
    }
    if coding_type == B_PICTURE {
        return first(older, kept.older);
    }
    &older[0..0]
}

// The backward reference for a file that starts like this; empty unless it is a B picture.
pub fn backward_for(start: Result<FileStart, RefusedAt>, kept: Kept, newer: &[u8]) -> &[u8]
    ensures { result.now ≡ backward_for start (take kept.newer newer.now) }
{
    let Ok(FileStart { header, .. }) = start else {
        return &newer[0..0];
    };
    if header.coding_type == B_PICTURE {
        return first(newer, kept.newer);
    }
    &newer[0..0]
}

// Copies as many bytes as fit to the buffer's start.
fn overwrite(bytes: &[u8], buffer: &mut [u8])
    ensures { buffer.new ≡ written 0 bytes.now buffer.old }
{
    let part = first(bytes, buffer.len());
    let length = part.len();
    buffer[..length].copy_from_slice(part);
}

// Keeps a picture as the newer reference; the previous newer one becomes the older.
pub fn keep(picture: &[u8], kept: Kept, older: &mut [u8], newer: &mut [u8]) -> Kept
    ensures value { result ≡ record { older = kept.newer; newer = length picture.now } }
    ensures older_after { older.new ≡ written 0 (take kept.newer newer.old) older.old }
    ensures newer_after { newer.new ≡ written 0 picture.now newer.old }
{
    let length = kept.newer;
    overwrite(first(newer, length), older);
    overwrite(picture, newer);
    Kept {
        older: length,
        newer: picture.len(),
    }
}
