// The start of a file: its version, its first record (the header), the reader's limit, and the lengths of the lent buffers.
ghost use Rattle.std.specs.Prelude.{◌≡◌};
ghost use Rattle.format3_header.specs.FileStart.{first_record, first_header, file_start_of, file_header_of, header_numbers};

use crate::{header, lengths};
use format3_records::turn::Turn;
use format3_records::{record, turn};
use refusals::Refusal;
use symbols::header::Header;
use symbols::size::PictureSize;

const VERSION: u8 = 3;

// The header, and where the next record starts.
#[derive(Clone, Copy)]
pub struct FileStart {
    pub header: Header,
    pub end: usize,
}

// A refusal and its place, a byte offset in the file.
#[derive(Clone, Copy)]
pub struct RefusedAt {
    pub refusal: Refusal,
    pub place: usize,
}

// What a caller is told of a file's start: the picture's coding type and its size in macroblocks, and where the next record starts.
#[derive(Clone, Copy)]
pub struct FileHeader {
    pub coding_type: u8,
    pub size: PictureSize,
    pub records_start: usize,
}

impl RefusedAt {
    // A refusal of the file's first record, which starts after the version.
    fn first_record(refusal: Refusal) -> RefusedAt
        ensures { result ≡ record { refusal = refusal; place = 1 } }
    {
        RefusedAt { refusal, place: 1 }
    }
}

// Reads the header from the file's first record.
#[tactic(auto, using(symbols::proofs::Guard::guards), unfolding(crate::specs::FileStart::first_record))]
fn first_record(file: &[u8]) -> Result<FileStart, Refusal>
    ensures { result ≡ first_record file.now }
{
    let record = record::record_at(file, 1)?;
    if !turn::in_turn(Turn::Start, record.kind) {
        return Err(Refusal::OutOfTurn);
    }
    let end = record.start + record.length;
    let header = header::read_header(&file[record.start..end])?;
    Ok(FileStart { header, end })
}

// Reads the start of the file, up to the header.
#[tactic(auto, using(symbols::proofs::Guard::guards), unfolding(crate::specs::FileStart::first_header))]
pub fn first_header(file: &[u8]) -> Result<FileStart, RefusedAt>
    ensures { result ≡ first_header file.now }
{
    if file.len() < 1 {
        return Err(RefusedAt {
            refusal: Refusal::FileEmpty,
            place: 0,
        });
    }
    if file[0] != VERSION {
        return Err(RefusedAt {
            refusal: Refusal::Version,
            place: 0,
        });
    }
    if file.len() < 2 {
        return Err(RefusedAt {
            refusal: Refusal::FileEnds,
            place: 1,
        });
    }
    first_record(file).map_err(RefusedAt::first_record)
}

// Reads the start of the file, then tests the reader's limit and the lengths of the lent buffers.
#[tactic(auto, unfolding(crate::specs::FileStart::file_start_of))]
pub fn read_file_start(
    limit: usize,
    file: &[u8],
    output: usize,
    forward: usize,
    backward: usize,
) -> Result<FileStart, RefusedAt>
    ensures { result ≡ file_start_of limit file.now output forward backward }
{
    let start = first_header(file)?;
    let verdict = lengths::caller_verdict(limit, start.header, output, forward, backward);
    verdict.map_err(RefusedAt::first_record)?;
    Ok(start)
}

// Reads the start of the file for a caller who asks for its header alone.
pub fn file_header(file: &[u8]) -> Result<FileHeader, Refusal>
    ensures { header_numbers result ≡ file_header_of (first_header file.now) }
{
    let FileStart { header, end } = first_header(file).map_err(|refused| refused.refusal)?;
    Ok(FileHeader {
        coding_type: header.coding_type,
        size: header.size,
        records_start: end,
    })
}
