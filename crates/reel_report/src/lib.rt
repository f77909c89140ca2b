// Writes the whole report of a reel into a lent buffer: one line per picture, up to where the reel is cut, or `long`.
#![tactic(auto)]

pub mod line;
pub mod planes;

ghost use Rattle.std.specs.Prelude.{◌≡◌, ◌++◌, ◌+◌, ◌*◌, ◌/◌, ◌≤◌, length, drop};
ghost use Rattle.io.specs.Counts.{IsPrefixLen};
ghost use Rattle.format3_writer.specs.Written.{written};
ghost use Rattle.reel_report.specs.Text.{line_bytes};
ghost use Rattle.reel_report.specs.Report.{lines_of, report_of};

use reel_parts::{part, references};
use reel_player::play;

// The buffer needed for the longest reel that is played: a line for every 4 bytes, the least that a picture takes, and one for `cut`.
pub const REPORT_BYTES: usize = line::LINE_BYTES * (part::MAX_REEL_BYTES / 4 + 1);

// Writes the lines of a reel. A picture takes at least 4 bytes of the reel.
fn put_lines(reel: &[u8], text: &mut [u8]) -> usize
    requires { line_bytes * (length reel.now / 4 + 1) ≤ length text.old }
    ensures value { result ≡ length (lines_of reel.now) }
    ensures upper_bound { result ≤ length text.new }
    ensures text_after { text.new ≡ written 0 (lines_of reel.now) text.old }
{
    let mut older = [0u8; play::PICTURE_BYTES];
    let mut newer = [0u8; play::PICTURE_BYTES];
    let mut output = [0u8; play::PICTURE_BYTES];
    let mut position = play::reel_start();
    let mut end = 0usize;
    while position.at < reel.len() {
        let next = play::play_next(reel, position, &mut older, &mut newer, &mut output);
        let Some(picture) = next else {
            return line::put_cut(text, end, position.at);
        };
        let pels = references::first(&output, picture.length);
        end = line::put_picture(text, end, picture.played, pels);
        position = picture.position;
    }
    end
}

// Writes the report of a reel at the text's start and returns its length; the rest of the buffer stays. The contract first says that
// it fits, since callers take `&text[..r]`.
#[tactic(auto, unfolding(crate::specs::Report::report_of))]
pub fn report(reel: &[u8], text: &mut [u8; REPORT_BYTES]) -> usize
    ensures prefix_len { IsPrefixLen result text.new }
    ensures value { result ≡ length (report_of reel.now) }
    ensures text_after { text.new ≡ report_of reel.now ++ drop (length (report_of reel.now)) text.old }
{
    if part::is_long(reel.len()) {
        return text_writer::put_bytes(text, 0, b"long\n");
    }
    put_lines(reel, text)
}
