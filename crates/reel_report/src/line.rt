// Writes the line of one item into a lent buffer.
ghost use Rattle.std.specs.Prelude.{◌≡◌, ◌+◌, ◌≤◌, length};
ghost use Rattle.format3_writer.specs.Written.{written};
ghost use Rattle.reel_player.specs.Items.{max_lent_bytes, picture, cut};
ghost use Rattle.reel_report.specs.Text.{three_fields_bytes, line_bytes, cut_bytes, letter_of, answer_text, sums_text, planes_text, line_text};

use crate::planes;
use crate::planes::Sums;
use format3_header::file_start::{FileStart, RefusedAt};
use format3_picture::reader::Answer;
use reel_player::play::Played;
use symbols::header::{I_PICTURE, P_PICTURE};
use text_writer::{LINE_END, SPACE};

// The most bytes of three fields.
const THREE_FIELDS_BYTES: usize = 3 * text_writer::FIELD_BYTES;

// The most bytes of a line: a field, a letter and a space, and twice three fields.
pub(crate) const LINE_BYTES: usize = text_writer::FIELD_BYTES + 2 + 2 * THREE_FIELDS_BYTES;

// The letter of a picture's type, or `?` if its file has no legal header.
fn letter_of(start: Result<FileStart, RefusedAt>) -> u8
    ensures { result ≡ letter_of start }
{
    let Ok(FileStart { header, .. }) = start else {
        return b'?';
    };
    if header.coding_type == I_PICTURE {
        return b'I';
    }
    if header.coding_type == P_PICTURE {
        return b'P';
    }
    b'B'
}

// The answer: its number, its place (an offset in the file) and made, the count of macroblocks written.
fn put_answer(buffer: &mut [u8], at: usize, answer: Answer) -> usize
    requires { at + three_fields_bytes ≤ length buffer.old }
    ensures value { result ≡ at + length (answer_text answer) }
    ensures upper_bound { result ≤ at + three_fields_bytes }
    ensures buffer_after { buffer.new ≡ written at (answer_text answer) buffer.old }
{
    let number = text_writer::put_field(
        buffer,
        at,
        u64::from(refusals::number(&answer.verdict)),
        SPACE,
    );
    let place = text_writer::put_field(buffer, number, answer.place as u64, SPACE);
    text_writer::put_field(buffer, place, answer.made as u64, SPACE)
}

// The sums of the three planes, and a line feed.
fn put_sums(buffer: &mut [u8], at: usize, sums: Sums) -> usize
    requires { at + three_fields_bytes ≤ length buffer.old }
    ensures value { result ≡ at + length (sums_text sums) }
    ensures upper_bound { result ≤ at + three_fields_bytes }
    ensures buffer_after { buffer.new ≡ written at (sums_text sums) buffer.old }
{
    let luma = text_writer::put_field(buffer, at, sums.y, SPACE);
    let chroma = text_writer::put_field(buffer, luma, sums.cb, SPACE);
    text_writer::put_field(buffer, chroma, sums.cr, LINE_END)
}

// The sums of an accepted picture, or `-` for each plane, and a line feed.
fn put_planes(buffer: &mut [u8], at: usize, answer: Answer, bytes: &[u8]) -> usize
    requires three_fields_bytes_in_bounds { at + three_fields_bytes ≤ length buffer.old }
    requires bytes_len_bound { length bytes.now ≤ max_lent_bytes }
    ensures value { result ≡ at + length (planes_text answer bytes.now) }
    ensures upper_bound { result ≤ at + three_fields_bytes }
    ensures buffer_after { buffer.new ≡ written at (planes_text answer bytes.now) buffer.old }
{
    if answer.verdict.is_err() {
        return text_writer::put_bytes(buffer, at, b"- - -\n");
    }
    put_sums(buffer, at, planes::sums_of(bytes))
}

// A picture's line.
#[tactic(auto, unfolding(crate::specs::Text::line_text))]
pub(crate) fn put_picture(buffer: &mut [u8], at: usize, played: Played, bytes: &[u8]) -> usize
    requires line_bytes_in_bounds { at + line_bytes ≤ length buffer.old }
    requires bytes_len_bound { length bytes.now ≤ max_lent_bytes }
    ensures value { result ≡ at + length (line_text (picture played bytes.now)) }
    ensures upper_bound { result ≤ at + line_bytes }
    ensures buffer_after { buffer.new ≡ written at (line_text (picture played bytes.now)) buffer.old }
{
    let start = played.start;
    let answer = played.answer;
    let letter = letter_of(start);
    let number_end = text_writer::put_field(buffer, at, played.number as u64, SPACE);
    let letter_end = text_writer::put_bytes(buffer, number_end, &[letter, SPACE]);
    let answer_end = put_answer(buffer, letter_end, answer);
    put_planes(buffer, answer_end, answer, bytes)
}

// The line that says where the reel is cut.
#[tactic(auto, unfolding(crate::specs::Text::line_text))]
pub(crate) fn put_cut(buffer: &mut [u8], at: usize, offset: usize) -> usize
    requires { at + cut_bytes ≤ length buffer.old }
    ensures value { result ≡ at + length (line_text (cut offset)) }
    ensures upper_bound { result ≤ at + cut_bytes }
    ensures buffer_after { buffer.new ≡ written at (line_text (cut offset)) buffer.old }
{
    let word_end = text_writer::put_bytes(buffer, at, b"cut ");
    text_writer::put_field(buffer, word_end, offset as u64, LINE_END)
}
