// Every public entry of the project, and nothing else. Each takes every input (none has a `requires`) and returns. Its contract has an
// equation for the answer, and one for each thing that is lent by `&mut` (borrowed), as the call leaves it; what is lent by `&` stays
// as it is. An answer is a value or a refusal, and its number (`number`) is 0 or that of the refusal. Each entry calls the function of
// another crate that does the work.
#![tactic(auto)]

ghost use Rattle.std.specs.Prelude.{◌≡◌, true, false, ◌++◌, ◌+◌, length, drop, pos};
ghost use Rattle.refusals.specs.Refusal.{number_in, value_in};
ghost use Rattle.io.specs.Counts.{IsPrefixLen};
ghost use Rattle.symbols.specs.Size.{max_macroblocks_small};
ghost use Rattle.decode_coefficients.specs.Answer.{coefficient_number, coefficient_value};
ghost use Rattle.decode_idct.specs.Transform.{inverse_transform};
ghost use Rattle.decode_idct.specs.Answer.{no_residues, transform_number, transform_residues, transform_rows};
ghost use Rattle.decode_vectors.specs.Vector.{vector_number, vector_value};
ghost use Rattle.encode_vectors.specs.Encoding.{no_code, encoded_number, encoded_code, encoded_residual};
ghost use Rattle.format3_records.specs.Record.{record_of, kind_of, body_start_of, body_of};
ghost use Rattle.format3_header.specs.FileStart.{first_header, header_numbers, file_header_of};
ghost use Rattle.format3_picture.specs.Picture.{picture_within, picture_of};
ghost use Rattle.mpeg1_reader.specs.Answer.{given_fields, raw_slice_outcome};
ghost use Rattle.vector_list.specs.List.{vector_list};
ghost use Rattle.reel_report.specs.Report.{report_of};

use decode_coefficients::scaling;
use decode_idct::Residues;
use decode_vectors::vector;
use encode_vectors::EncodedVector;
use format3_header::file_start;
use format3_header::file_start::FileHeader;
use format3_picture::reader;
use format3_picture::reader::Answer;
use format3_records::record;
use format3_records::record::{Record, Shown};
use mpeg1_reader::entry;
pub use mpeg1_reader::entry::PictureParameters;
use mpeg1_reader::entry::ReadSlice;
use mpeg1_slice::refused::RefusedAt;
use reel_parts::part;
use refusals::Refusal;
// The number of an answer that is no refusal.
pub use refusals::ACCEPTED;
use symbols::size::PictureSize;

// The longest reel that `report` plays, in bytes.
pub const MAX_REEL_BYTES: usize = part::MAX_REEL_BYTES;

// The length of the buffer that `report` asks for.
pub const REPORT_BYTES: usize = reel_report::REPORT_BYTES;

// The length of the buffer that `list_vectors` asks for.
pub const VECTOR_LIST_BYTES: usize = vector_list::VECTOR_LIST_BYTES;

// The number of an answer.
// Takes any value or refusal.
// Answers 0 for a value, and for a refusal its number.
pub fn number<T>(answer: &Result<T, Refusal>) -> u32
    ensures { result ≡ number_in answer.now }
{
    refusals::number(answer)
}

// The picture of a Format 3 file.
// Takes the file, the forward and the backward reference (empty where the picture has none), and the output, 384 bytes a macroblock.
// Answers the verdict, place (the byte offset of the refused record; 0 for 1 and 2; the file's length if accepted and for 7), made, the count
// of macroblocks written, and rows, the total of the rows worked for these.
// Leaves exactly these macroblocks in the output; every other byte is what it was.
pub fn reconstruct(file: &[u8], forward: &[u8], backward: &[u8], output: &mut [u8]) -> Answer
    ensures number { number_in result.verdict ≡ (picture_of inverse_transform file.now forward.now backward.now output.old).number }
    ensures place { result.place ≡ (picture_of inverse_transform file.now forward.now backward.now output.old).place }
    ensures made { result.made ≡ (picture_of inverse_transform file.now forward.now backward.now output.old).made }
    ensures rows { result.rows ≡ (picture_of inverse_transform file.now forward.now backward.now output.old).rows }
    ensures output { output.new ≡ (picture_of inverse_transform file.now forward.now backward.now output.old).output }
{
    let limit = PictureSize::MAX_MACROBLOCKS;
    reader::reconstruct_within(limit, file, forward, backward, output)
}

// The picture of a Format 3 file, if it has at most PictureSize::MAX_MACROBLOCKS_SMALL macroblocks, for a caller with memory for no more.
// Does what `reconstruct` does, but refuses a legal header with more macroblocks by 27, at the header's place, and leaves the output as it
// was.
pub fn reconstruct_small(file: &[u8], forward: &[u8], backward: &[u8], output: &mut [u8]) -> Answer
    ensures number { number_in result.verdict ≡ (picture_within max_macroblocks_small inverse_transform file.now forward.now backward.now output.old).number }
    ensures place { result.place ≡ (picture_within max_macroblocks_small inverse_transform file.now forward.now backward.now output.old).place }
    ensures made { result.made ≡ (picture_within max_macroblocks_small inverse_transform file.now forward.now backward.now output.old).made }
    ensures rows { result.rows ≡ (picture_within max_macroblocks_small inverse_transform file.now forward.now backward.now output.old).rows }
    ensures output { output.new ≡ (picture_within max_macroblocks_small inverse_transform file.now forward.now backward.now output.old).output }
{
    let small_limit = PictureSize::MAX_MACROBLOCKS_SMALL;
    reader::reconstruct_within(small_limit, file, forward, backward, output)
}

// The header of a Format 3 file, as `reconstruct` reads it.
// Takes any file.
// Answers the coding type, the size in macroblocks, and where the record after the header starts; 1 to 8 if the file's start is refused.
pub fn read_header(file: &[u8]) -> Result<FileHeader, Refusal>
    ensures header { header_numbers result ≡ file_header_of (first_header file.now) }
{
    file_start::file_header(file)
}

// The inverse transform.
// Takes any sixty-four numbers, row by row.
// Answers the residues, and the rows worked: how many of the eight rows hold a number other than 0; 22 if a number is outside -2048..2047.
pub fn transform(coefficients: [i16; 64]) -> Result<Residues, Refusal>
    ensures number { number_in result ≡ transform_number coefficients }
    ensures residues { (value_in no_residues result).values ≡ transform_residues coefficients }
    ensures rows { (value_in no_residues result).rows ≡ transform_rows coefficients }
{
    decode_idct::transform(coefficients)
}

// The coefficient of a level in an intra block, other than its DC.
// Takes any level, quantizer scale and weight.
// Answers the coefficient; 22 if one of the three is out of range.
pub fn intra_coefficient(level: i32, scale: i32, weight: i32) -> Result<i16, Refusal>
    ensures number { number_in result ≡ coefficient_number level scale weight }
    ensures value { value_in (pos 0) result ≡ coefficient_value true level scale weight }
{
    scaling::coefficient(true, level, scale, weight)
}

// The coefficient of a level in a block that is not intra.
// Takes any level, quantizer scale and weight.
// Answers the coefficient; 22 if one of the three is out of range.
pub fn non_intra_coefficient(level: i32, scale: i32, weight: i32) -> Result<i16, Refusal>
    ensures number { number_in result ≡ coefficient_number level scale weight }
    ensures value { value_in (pos 0) result ≡ coefficient_value false level scale weight }
{
    scaling::coefficient(false, level, scale, weight)
}

// A component of a motion vector.
// Takes any f_code, the past (the predictor: the same component of the vector before it), its motion code and its residual.
// Answers the component, not yet doubled for full pels; 22 if one of the four is out of range.
pub fn vector(f_code: u32, past: i32, code: i32, residual: u32) -> Result<i32, Refusal>
    ensures number { number_in result ≡ vector_number f_code past code residual }
    ensures vector { value_in (pos 0) result ≡ vector_value f_code past code residual }
{
    vector::decode_vector(f_code, past, code, residual)
}

// The motion code and residual with which `vector` gives a wanted component.
// Takes any f_code, past and wanted component, the last two not doubled for full pels.
// Answers the code and the residual; where two pairs give the wanted component, those of code 16. 33 if no pair does, or if the f_code or the
// past is out of range.
pub fn encode_vector(f_code: u32, past: i32, wanted: i32) -> Result<EncodedVector, Refusal>
    ensures number { number_in result ≡ encoded_number f_code past wanted }
    ensures code { (value_in no_code result).code ≡ encoded_code f_code past wanted }
    ensures residual { (value_in no_code result).residual ≡ encoded_residual f_code past wanted }
{
    encode_vectors::encode_vector(f_code, past, wanted)
}

// As text, every input that `vector` accepts with f_code 1, then with f_code 2, and the component that it gives. A line has f_code, past,
// code, residual and component. The lines rise by past, then by code, then by residual.
// Takes a buffer for the text.
// Answers how long the text is. That it fits the buffer is a clause of its own, as a caller needs it for `&text[..r]`.
// Leaves the text at the start of the buffer; every other byte is what it was.
pub fn list_vectors(text: &mut [u8; VECTOR_LIST_BYTES]) -> usize
    ensures fits { IsPrefixLen result text.new }
    ensures length { result ≡ length vector_list }
    ensures text { text.new ≡ vector_list ++ drop (length vector_list) text.old }
{
    vector_list::list_vectors(text)
}

// Where the record at an offset is.
// Takes any file and offset.
// Answers the record's kind, and where its body starts and how long it is; 3 or 4 if there is no whole record of a known kind.
pub fn show_record(file: &[u8], offset: usize) -> Result<Record, Refusal>
    ensures record { result ≡ record_of file.now offset }
{
    record::record_at(file, offset)
}

// The record at an offset, shown by itself.
// Takes any file and offset.
// Answers its kind, and its body as a part of the caller's own file, not a copy; kind 0 and an empty part if the record is refused.
pub fn show<'a>(file: &'a [u8], offset: usize) -> Shown<'a>
    ensures kind { result.kind ≡ kind_of (record_of file.now offset) }
    ensures body { result.body.now ≡ body_of (record_of file.now offset) file.now }
    ensures place { result.body.ref_ptr ≡ (file.entry.ref_ptr.0, body_start_of (record_of file.now offset) + file.entry.ref_ptr.1) }
{
    record::show(file, offset)
}

// The record at an offset, with no struct that holds a reference, which would make the proofs of its callers longer.
// Takes any file and offset, and where to put the kind.
// Answers its body as a part of the caller's own file, not a copy; an empty part if the record is refused.
// Leaves the record's kind in `kind`, 0 if the record is refused.
pub fn show_body<'a, 'b>(file: &'a [u8], offset: usize, kind: &'b mut u8) -> &'a [u8]
    ensures kind { kind.new ≡ kind_of (record_of file.now offset) }
    ensures body { result.now ≡ body_of (record_of file.now offset) file.now }
    ensures place { result.ref_ptr ≡ (file.entry.ref_ptr.0, body_start_of (record_of file.now offset) + file.entry.ref_ptr.1) }
{
    record::show_body(file, offset, kind)
}

// The records of one raw slice.
// Takes the bytes of a slice from its start code on, the numbers of its picture's header (any), and a buffer for the records.
// Answers how many bytes were written, and the position (a byte and a bit) where the unread rest starts; or a refusal, and the position where
// the refused code starts.
// Leaves the records at the start of the buffer; every other byte, and the whole buffer if the slice is refused, is what it was.
pub fn read_slice(
    slice: &[u8],
    parameters: PictureParameters,
    records: &mut [u8],
) -> Result<ReadSlice, RefusedAt>
    ensures answer { result ≡ (raw_slice_outcome (given_fields parameters) slice.now records.old).answer }
    ensures records { records.new ≡ (raw_slice_outcome (given_fields parameters) slice.now records.old).buffer }
{
    entry::read_slice(slice, parameters, records)
}

// The report of a reel (a sequence of coded pictures): a line of text for each picture, and `cut` where the reel is cut;
// only `long` for a reel above MAX_REEL_BYTES bytes.
// Takes any reel, and a buffer for the text.
// Answers how long the text is. That it fits the buffer is a clause of its own, as a caller needs it for `&text[..r]`.
// Leaves the text at the start of the buffer; every other byte is what it was.
pub fn report(reel: &[u8], text: &mut [u8; REPORT_BYTES]) -> usize
    ensures fits { IsPrefixLen result text.new }
    ensures length { result ≡ length (report_of reel.now) }
    ensures text { text.new ≡ report_of reel.now ++ drop (length (report_of reel.now)) text.old }
{
    reel_report::report(reel, text)
}
