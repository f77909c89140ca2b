// The records of a file, type-length-value units: each is a 2-byte length of what comes after it, a kind byte and a body.
ghost use Rattle.std.specs.Prelude.{◌≡◌, ◌+◌};
ghost use Rattle.format3_records.specs.Record.{legal_kind, record_of, kind_of, body_start_of, body_of};

use crate::field;
use refusals::Refusal;

pub(crate) const HEADER_KIND: u8 = 1;

pub const MATRIX_KIND: u8 = 2;

pub const SLICE_KIND: u8 = 3;

pub const MACROBLOCK_KIND: u8 = 4;

const LAST_KIND: u8 = MACROBLOCK_KIND;

// A whole record: its kind, and its body's offset and length.
#[derive(Clone, Copy)]
pub struct Record {
    pub kind: u8,
    pub start: usize,
    pub length: usize,
}

// Whether a kind is one of the four.
fn legal_kind(kind: u8) -> bool
    ensures { result ≡ legal_kind kind }
{
    (HEADER_KIND..=LAST_KIND).contains(&kind)
}

// The record at an offset: cut (3), of an unknown kind (4), or found.
pub fn record_at(file: &[u8], offset: usize) -> Result<Record, Refusal>
    ensures { result ≡ record_of file.now offset }
{
    let left = field::after(file, offset);
    let [high, low, kind, ..] = *left else {
        return Err(Refusal::RecordCut);
    };
    let length = usize::from(u16::from_be_bytes([high, low]));
    if length < 1 {
        return Err(Refusal::RecordCut);
    }
    if left.len() - 2 < length {
        return Err(Refusal::RecordCut);
    }
    if !legal_kind(kind) {
        return Err(Refusal::RecordKind);
    }
    Ok(Record {
        kind,
        start: offset + 3,
        length: length - 1,
    })
}

// The kind of the record at an offset; 0 if it is refused.
fn shown_kind(file: &[u8], offset: usize) -> u8
    ensures { result ≡ kind_of (record_of file.now offset) }
{
    match record_at(file, offset) {
        Ok(record) => record.kind,
        Err(_) => 0,
    }
}

// The body of the record at an offset: a slice of the file itself, empty if the record is refused.
fn shown_body<'a>(file: &'a [u8], offset: usize) -> &'a [u8]
    ensures result_value { result.now ≡ body_of (record_of file.now offset) file.now }
    ensures ref_ptr_value { result.ref_ptr ≡ (file.entry.ref_ptr.0, body_start_of (record_of file.now offset) + file.entry.ref_ptr.1) }
{
    match record_at(file, offset) {
        Ok(record) => &file[record.start..record.start + record.length],
        Err(_) => &file[0..0],
    }
}

// A record shown by itself: its kind, and its body as a slice of the file itself; kind 0 and an empty slice if it is refused.
#[derive(Clone, Copy)]
pub struct Shown<'a> {
    pub kind: u8,
    pub body: &'a [u8],
}

pub fn show<'a>(file: &'a [u8], offset: usize) -> Shown<'a>
    ensures kind_value { result.kind ≡ kind_of (record_of file.now offset) }
    ensures body_value { result.body.now ≡ body_of (record_of file.now offset) file.now }
    ensures ptr_value { result.body.ref_ptr ≡ (file.entry.ref_ptr.0, body_start_of (record_of file.now offset) + file.entry.ref_ptr.1) }
{
    let kind = shown_kind(file, offset);
    let body = shown_body(file, offset);
    Shown { kind, body }
}

// The same with plain parameters: the body is returned, and the kind is written through a second reference.
pub fn show_body<'a, 'b>(file: &'a [u8], offset: usize, kind: &'b mut u8) -> &'a [u8]
    ensures kind_after { kind.new ≡ kind_of (record_of file.now offset) }
    ensures result_value { result.now ≡ body_of (record_of file.now offset) file.now }
    ensures ref_ptr_value { result.ref_ptr ≡ (file.entry.ref_ptr.0, body_start_of (record_of file.now offset) + file.entry.ref_ptr.1) }
{
    *kind = shown_kind(file, offset);
    shown_body(file, offset)
}
