// Plays a reel part by part, reconstructing each picture from the references kept so far.
ghost use Rattle.std.specs.Prelude.{◌≡◌, ◌≤◌, length};
ghost use Rattle.format3_writer.specs.Written.{written};
ghost use Rattle.format3_picture.specs.Picture.{answer_of};
ghost use Rattle.reel_player.specs.Items.{max_lent_bytes, lent_bytes, picture_into, carried_from};
ghost use Rattle.reel_player.specs.Requires.{StartWithin, KeptWithin};
ghost use Rattle.reel_player.specs.Next.{reel_start, held_in, kept_of, played_into, played_file, output_after, next_of};

use format3_header::file_start;
use format3_header::file_start::{FileStart, RefusedAt};
use format3_picture::reader;
use format3_picture::reader::Answer;
use reel_parts::references::Kept;
use reel_parts::{part, references};
use symbols::header::B_PICTURE;
use symbols::size::PictureSize;

// The most macroblocks for which the player lends an output buffer.
const MAX_LENT_MACROBLOCKS: usize = 40;

// The bytes of a picture of that size; each buffer is this long.
pub const PICTURE_BYTES: usize = 384 * MAX_LENT_MACROBLOCKS;

// A picture of a reel, once it has been read.
#[derive(Clone, Copy)]
pub struct Played {
    // Counted from 1.
    pub number: usize,
    // Its header, or why the file has no legal one.
    pub start: Result<FileStart, RefusedAt>,
    pub answer: Answer,
}

// A picture just played, how many bytes it has at the output's start (0 if refused), and the references kept after it.
#[derive(Clone, Copy)]
struct PlayedFile {
    played: Played,
    length: usize,
    kept: Kept,
}

// How far a reel has been read: the offset of the next length field, the pictures before it, the references kept.
#[derive(Clone, Copy)]
pub struct ReelPosition {
    pub at: usize,
    pub pictures: usize,
    pub kept: Kept,
}

// The next picture of a reel, how many bytes it has at the output's start (0 if refused), and where to read on.
#[derive(Clone, Copy)]
pub struct NextPicture {
    pub played: Played,
    pub length: usize,
    pub position: ReelPosition,
}

// The reel's start, with no references.
pub fn reel_start() -> ReelPosition
    ensures { result ≡ reel_start }
{
    ReelPosition {
        at: 0,
        pictures: 0,
        kept: Kept { older: 0, newer: 0 },
    }
}

// How many bytes of output to lend: the picture's size, or 0 if it is too large or has no legal header.
fn lent_bytes(start: Result<FileStart, RefusedAt>) -> usize
    requires { StartWithin start }
    ensures { result ≡ lent_bytes start }
{
    let Ok(FileStart { header, .. }) = start else {
        return 0;
    };
    let size = header.size;
    if size.macroblocks() <= MAX_LENT_MACROBLOCKS {
        return size.bytes();
    }
    0
}

// Reconstructs a file's picture, using the kept references that its type calls for.
#[tactic(auto, unfolding(crate::specs::Items::picture_into))]
fn make<'a>(
    start: Result<FileStart, RefusedAt>,
    file: &[u8],
    kept: Kept,
    older: &'a [u8],
    newer: &'a [u8],
    output: &mut [u8],
) -> Answer
    ensures value { result ≡ answer_of (picture_into start file.now (held_in kept older.now newer.now) output.old) }
    ensures output_after { output.new ≡ (picture_into start file.now (held_in kept older.now newer.now) output.old).output }
{
    let forward = references::forward_for(start, kept, older, newer);
    let backward = references::backward_for(start, kept, newer);
    reader::reconstruct_within(
        PictureSize::MAX_MACROBLOCKS,
        file,
        forward,
        backward,
        output,
    )
}

// Keeps an accepted picture as a reference, if its type is I or P.
fn carry(
    start: Result<FileStart, RefusedAt>,
    picture: &[u8],
    kept: Kept,
    older: &mut [u8],
    newer: &mut [u8],
) -> Kept
    requires { KeptWithin kept older.old newer.old }
    ensures value { result ≡ kept_of (carried_from start picture.now (held_in kept older.old newer.old)) }
    ensures older_after { older.new ≡ written 0 (carried_from start picture.now (held_in kept older.old newer.old)).older older.old }
    ensures newer_after { newer.new ≡ written 0 (carried_from start picture.now (held_in kept older.old newer.old)).newer newer.old }
{
    let Ok(FileStart { header, .. }) = start else {
        return kept;
    };
    if header.coding_type == B_PICTURE {
        return kept;
    }
    references::keep(picture, kept, older, newer)
}

// Reconstructs a picture into a lent output and keeps it if it is a reference.
#[tactic(auto, unfolding(crate::specs::Next::played_as))]
fn play_into(
    number: usize,
    start: Result<FileStart, RefusedAt>,
    file: &[u8],
    kept: Kept,
    older: &mut [u8],
    newer: &mut [u8],
    output: &mut [u8],
) -> PlayedFile
    requires { KeptWithin kept older.old newer.old }
    ensures value { result ≡ (played_into number start file.now kept older.old newer.old output.old).shows }
    ensures older_after { older.new ≡ (played_into number start file.now kept older.old newer.old output.old).older }
    ensures newer_after { newer.new ≡ (played_into number start file.now kept older.old newer.old output.old).newer }
    ensures output_after { output.new ≡ (picture_into start file.now (held_in kept older.old newer.old) output.old).output }
{
    let answer = make(start, file, kept, older, newer, output);
    let played = Played {
        number,
        start,
        answer,
    };
    if answer.verdict.is_err() {
        return PlayedFile {
            played,
            length: 0,
            kept,
        };
    }
    let after = carry(start, output, kept, older, newer);
    PlayedFile {
        played,
        length: output.len(),
        kept: after,
    }
}

// Reconstructs a picture of a reel into the part of the output that it needs.
#[tactic(auto, unfolding(crate::specs::Next::output_after))]
fn play_file(
    number: usize,
    file: &[u8],
    kept: Kept,
    older: &mut [u8],
    newer: &mut [u8],
    output: &mut [u8],
) -> PlayedFile
    requires kept_within { KeptWithin kept older.old newer.old }
    requires max_lent_bytes_in_bounds { max_lent_bytes ≤ length output.old }
    ensures value { result ≡ (played_file number file.now kept older.old newer.old).shows }
    ensures older_after { older.new ≡ (played_file number file.now kept older.old newer.old).older }
    ensures newer_after { newer.new ≡ (played_file number file.now kept older.old newer.old).newer }
    ensures output_after { output.new ≡ output_after file.now kept older.old newer.old output.old }
{
    let start = file_start::first_header(file);
    let lent = lent_bytes(start);
    play_into(number, start, file, kept, older, newer, &mut output[..lent])
}

// Plays the reel's next picture; `None` if the reel ends within its length field or its file. The first two buffers hold the references;
// the picture goes into the third.
#[tactic(auto, unfolding(crate::specs::Next::next_of))]
pub fn play_next(
    reel: &[u8],
    position: ReelPosition,
    older: &mut [u8; PICTURE_BYTES],
    newer: &mut [u8; PICTURE_BYTES],
    output: &mut [u8; PICTURE_BYTES],
) -> Option<NextPicture>
    requires pictures_le_at { position.pictures ≤ position.at }
    requires kept_within { KeptWithin position.kept older.old newer.old }
    ensures value { result ≡ (next_of reel.now position older.old newer.old output.old).next }
    ensures older_after { older.new ≡ (next_of reel.now position older.old newer.old output.old).older }
    ensures newer_after { newer.new ≡ (next_of reel.now position older.old newer.old output.old).newer }
    ensures output_after { output.new ≡ (next_of reel.now position older.old newer.old output.old).output }
{
    let part = part::part_at(reel, position.at)?;
    let number = position.pictures + 1;
    let end = part.start + part.length;
    let file = play_file(
        number,
        &reel[part.start..end],
        position.kept,
        older,
        newer,
        output,
    );
    Some(NextPicture {
        played: file.played,
        length: file.length,
        position: ReelPosition {
            at: end,
            pictures: number,
            kept: file.kept,
        },
    })
}
