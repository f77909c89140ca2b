// The strict reader: reads a file's records in sequence into the lent output.
ghost use Rattle.std.specs.Prelude.{◌≡◌, ◌≤◌, length};
ghost use Rattle.refusals.specs.Refusal.{number_in};
ghost use Rattle.symbols.specs.Requires.{HeaderWithin};
ghost use Rattle.decode_idct.specs.Transform.{inverse_transform};
ghost use Rattle.decode_macroblock.specs.Compensation.{references};
ghost use Rattle.format3_picture.specs.Reconstruction.{reconstruction};
ghost use Rattle.format3_picture.specs.Picture.{answer_of, is_complete, refused_at, end_answer, records_after, symbols_of, picture_within};
ghost use Rattle.format3_picture.specs.Requires.{LentLengths};

use crate::state::PictureState;
use crate::{records, state};
use decode_coefficients::matrices;
use format3_header::file_start;
use format3_records::record;
use format3_records::record::MATRIX_KIND;
use format3_records::turn::Turn;
use refusals::Refusal;
use symbols::header::Header;

// The answer: whether the file is accepted, the place (a byte offset in the file), how many macroblocks were made (written), and the rows
// that the transform worked for them.
#[derive(Clone, Copy)]
pub struct Answer {
    pub verdict: Result<(), Refusal>,
    pub place: usize,
    pub made: usize,
    pub rows: usize,
}

// Whether every macroblock has been made.
fn is_complete(turn: Turn) -> bool
    ensures { result ≡ is_complete turn }
{
    matches!(turn, Turn::Complete)
}

// The answer at the file's end.
fn answer_at_end(file_length: usize, picture: PictureState) -> Answer
    ensures { result ≡ end_answer file_length picture }
{
    if !is_complete(picture.turn) {
        return refused_at(Refusal::FileEnds, file_length, picture.made, picture.rows);
    }
    Answer {
        verdict: Ok(()),
        place: file_length,
        made: picture.made,
        rows: picture.rows,
    }
}

// The answer for a refusal.
fn refused_at(refusal: Refusal, place: usize, made: usize, rows: usize) -> Answer
    ensures { result ≡ refused_at refusal place made rows }
{
    Answer {
        verdict: Err(refusal),
        place,
        made,
        rows,
    }
}

// Reads the records after the header.
fn read_records(
    file: &[u8],
    start: usize,
    header: Header,
    forward: &[u8],
    backward: &[u8],
    output: &mut [u8],
) -> Answer
    requires { HeaderWithin header × LentLengths header forward.now backward.now output.old × (start ≤ length file.now) }
    ensures value { result ≡ (records_after file.now header start).answer }
    ensures output_after { output.new ≡ reconstruction inverse_transform (references forward.now backward.now) header (symbols_of file.now header start) output.old }
{
    let mut at = start;
    let mut picture = state::start_state(header);
    let mut matrices = matrices::default_matrices();
    while at < file.len() {
        let record = match record::record_at(file, at) {
            Ok(record) => record,
            Err(not_found) => return refused_at(not_found, at, picture.made, picture.rows),
        };
        let end = record.start + record.length;
        let body = &file[record.start..end];
        picture = match records::apply_record(
            picture,
            record.kind,
            body,
            &matrices,
            forward,
            backward,
            output,
        ) {
            Ok(next) => next,
            Err(refusal) => return refused_at(refusal, at, picture.made, picture.rows),
        };
        if record.kind == MATRIX_KIND {
            matrices = format3_matrices::load_matrix(body, matrices);
        }
        at = end;
    }
    answer_at_end(file.len(), picture)
}

// Reconstructs the picture of a Format 3 file from its references, in the lent output, if it has at most `limit` macroblocks.
#[tactic(auto, unfolding(crate::specs::Picture::picture_refusing))]
pub fn reconstruct_within(
    limit: usize,
    file: &[u8],
    forward: &[u8],
    backward: &[u8],
    output: &mut [u8],
) -> Answer
    ensures value { result ≡ answer_of (picture_within limit inverse_transform file.now forward.now backward.now output.old) }
    ensures number { number_in result.verdict ≡ (picture_within limit inverse_transform file.now forward.now backward.now output.old).number }
    ensures output_after { output.new ≡ (picture_within limit inverse_transform file.now forward.now backward.now output.old).output }
{
    match file_start::read_file_start(limit, file, output.len(), forward.len(), backward.len()) {
        Ok(start) => read_records(file, start.end, start.header, forward, backward, output),
        Err(refused) => refused_at(refused.refusal, refused.place, 0, 0),
    }
}
