// The entries (crate `entries`) for C and Rust. Each returns the answer's number, 0 or that of a refusal, and writes the rest of its
// answer into the struct, the array or the number that is lent for it. A slice is a pointer and a length. include/format3.h says the
// same in words.
#![tactic(auto)]

ghost use Rattle.std.specs.Prelude.{◌≡◌, true, false};
ghost use Rattle.symbols.specs.Size.{max_macroblocks_small};
ghost use Rattle.decode_coefficients.specs.Answer.{coefficient_number, coefficient_value};
ghost use Rattle.decode_idct.specs.Transform.{inverse_transform};
ghost use Rattle.decode_idct.specs.Answer.{transform_number, transform_residues, transform_rows};
ghost use Rattle.decode_vectors.specs.Vector.{vector_number, vector_value};
ghost use Rattle.encode_vectors.specs.Encoding.{encoded_number, encoded_code, encoded_residual};
ghost use Rattle.format3_records.specs.Record.{record_of, record_number, kind_of, body_start_of, body_length_of};
ghost use Rattle.format3_header.specs.FileStart.{first_header, file_header_of};
ghost use Rattle.format3_picture.specs.Picture.{picture_within, picture_of};
ghost use Rattle.mpeg1_reader.specs.Answer.{given_fields, raw_slice_outcome, answer_number, answer_written, answer_byte, answer_bit};

use entries::PictureParameters;

// The version of these functions and structs. It increases when one of them changes or goes.
pub const API_VERSION: u32 = 2;

// What `format3_reconstruct` and `format3_reconstruct_small` answer besides the number.
#[repr(C)]
#[derive(Clone, Copy)]
pub struct PictureResult {
    pub place: usize,
    pub made: usize,
    pub rows: usize,
}

// What `format3_show_record` answers besides the number.
#[repr(C)]
#[derive(Clone, Copy)]
pub struct Record {
    pub kind: u8,
    pub start: usize,
    pub length: usize,
}

// What `format3_read_header` answers besides the number.
#[repr(C)]
#[derive(Clone, Copy)]
pub struct Header {
    pub coding_type: u32,
    pub width: u32,
    pub height: u32,
    pub records_start: usize,
}

// What `format3_read_slice` answers besides the number.
#[repr(C)]
#[derive(Clone, Copy)]
pub struct SliceResult {
    pub written: usize,
    pub byte: usize,
    pub bit: usize,
}

// The version that the library was built with.
#[unsafe(no_mangle)]
pub extern "C" fn format3_api_version() -> u32
    ensures { result ≡ 2 }
{
    API_VERSION
}

// The header of a Format 3 file: coding type, size in macroblocks, and where the next record starts; zeros if it is refused.
#[unsafe(no_mangle)]
pub extern "C" fn format3_read_header(file: &[u8], header: &mut Header) -> u32
    ensures number { result ≡ (file_header_of (first_header file.now)).number }
    ensures coding_type { header.new.coding_type ≡ (file_header_of (first_header file.now)).coding_type }
    ensures width { header.new.width ≡ (file_header_of (first_header file.now)).width }
    ensures height { header.new.height ≡ (file_header_of (first_header file.now)).height }
    ensures records_start { header.new.records_start ≡ (file_header_of (first_header file.now)).records_start }
{
    let answer = entries::read_header(file);
    let (coding_type, width, height, records_start) = match answer {
        Ok(found) => (
            found.coding_type as u32,
            found.size.width as u32,
            found.size.height as u32,
            found.records_start,
        ),
        Err(_) => (0, 0, 0, 0),
    };
    header.coding_type = coding_type;
    header.width = width;
    header.height = height;
    header.records_start = records_start;
    entries::number(&answer)
}

// The picture of a Format 3 file, from its references into the lent output: number, place, made, rows worked.
#[unsafe(no_mangle)]
pub extern "C" fn format3_reconstruct(
    file: &[u8],
    forward: &[u8],
    backward: &[u8],
    output: &mut [u8],
    res: &mut PictureResult,
) -> u32
    ensures number { result ≡ (picture_of inverse_transform file.now forward.now backward.now output.old).number }
    ensures place { res.new.place ≡ (picture_of inverse_transform file.now forward.now backward.now output.old).place }
    ensures made { res.new.made ≡ (picture_of inverse_transform file.now forward.now backward.now output.old).made }
    ensures rows { res.new.rows ≡ (picture_of inverse_transform file.now forward.now backward.now output.old).rows }
    ensures output { output.new ≡ (picture_of inverse_transform file.now forward.now backward.now output.old).output }
{
    let answer = entries::reconstruct(file, forward, backward, output);
    res.place = answer.place;
    res.made = answer.made;
    res.rows = answer.rows;
    entries::number(&answer.verdict)
}

// The same for a caller with memory for PictureSize::MAX_MACROBLOCKS_SMALL macroblocks, the limit of this reader.
#[unsafe(no_mangle)]
pub extern "C" fn format3_reconstruct_small(
    file: &[u8],
    forward: &[u8],
    backward: &[u8],
    output: &mut [u8],
    res: &mut PictureResult,
) -> u32
    ensures number { result ≡ (picture_within max_macroblocks_small inverse_transform file.now forward.now backward.now output.old).number }
    ensures place { res.new.place ≡ (picture_within max_macroblocks_small inverse_transform file.now forward.now backward.now output.old).place }
    ensures made { res.new.made ≡ (picture_within max_macroblocks_small inverse_transform file.now forward.now backward.now output.old).made }
    ensures rows { res.new.rows ≡ (picture_within max_macroblocks_small inverse_transform file.now forward.now backward.now output.old).rows }
    ensures output { output.new ≡ (picture_within max_macroblocks_small inverse_transform file.now forward.now backward.now output.old).output }
{
    let answer = entries::reconstruct_small(file, forward, backward, output);
    res.place = answer.place;
    res.made = answer.made;
    res.rows = answer.rows;
    entries::number(&answer.verdict)
}

// The residues of any sixty-four numbers, row by row, and the rows worked.
#[unsafe(no_mangle)]
pub extern "C" fn format3_transform(
    coefficients: &[i16; 64],
    residues: &mut [i16; 64],
    rows: &mut usize,
) -> u32
    ensures number { result ≡ transform_number coefficients.now }
    ensures residues { residues.new ≡ transform_residues coefficients.now }
    ensures rows { rows.new ≡ transform_rows coefficients.now }
{
    let transformed = entries::transform(*coefficients);
    match transformed {
        Ok(done) => {
            let values = done.values;
            *residues = values;
            *rows = done.rows;
        }
        Err(_) => {
            *residues = [0; 64];
            *rows = 0;
        }
    }
    entries::number(&transformed)
}

// The intra AC coefficient of a level.
#[unsafe(no_mangle)]
pub extern "C" fn format3_intra_coefficient(
    level: i32,
    scale: i32,
    weight: i32,
    coefficient: &mut i16,
) -> u32
    ensures number { result ≡ coefficient_number level scale weight }
    ensures coefficient { coefficient.new ≡ coefficient_value true level scale weight }
{
    let intra = entries::intra_coefficient(level, scale, weight);
    *coefficient = intra.unwrap_or(0);
    entries::number(&intra)
}

// The coefficient of a level where the macroblock is not intra.
#[unsafe(no_mangle)]
pub extern "C" fn format3_non_intra_coefficient(
    level: i32,
    scale: i32,
    weight: i32,
    coefficient: &mut i16,
) -> u32
    ensures number { result ≡ coefficient_number level scale weight }
    ensures coefficient { coefficient.new ≡ coefficient_value false level scale weight }
{
    let non_intra = entries::non_intra_coefficient(level, scale, weight);
    *coefficient = non_intra.unwrap_or(0);
    entries::number(&non_intra)
}

// A component of a vector from its code, its residual and the past (its predictor), not doubled.
#[unsafe(no_mangle)]
pub extern "C" fn format3_vector(
    f_code: u32,
    past: i32,
    code: i32,
    residual: u32,
    vector: &mut i32,
) -> u32
    ensures number { result ≡ vector_number f_code past code residual }
    ensures vector { vector.new ≡ vector_value f_code past code residual }
{
    let decoded = entries::vector(f_code, past, code, residual);
    *vector = decoded.unwrap_or(0);
    entries::number(&decoded)
}

// The code and the residual with which `format3_vector` gives a wanted component; zeros if it is refused.
#[unsafe(no_mangle)]
pub extern "C" fn format3_encode_vector(
    f_code: u32,
    past: i32,
    wanted: i32,
    code: &mut i32,
    residual: &mut u32,
) -> u32
    ensures number { result ≡ encoded_number f_code past wanted }
    ensures code { code.new ≡ encoded_code f_code past wanted }
    ensures residual { residual.new ≡ encoded_residual f_code past wanted }
{
    let encoded = entries::encode_vector(f_code, past, wanted);
    match encoded {
        Ok(found) => {
            *code = found.code;
            *residual = found.residual;
        }
        Err(_) => {
            *code = 0;
            *residual = 0;
        }
    }
    entries::number(&encoded)
}

// The record at an offset: its kind, and where its body starts and how long that is; zeros if it is refused.
#[unsafe(no_mangle)]
pub extern "C" fn format3_show_record(file: &[u8], offset: usize, shown: &mut Record) -> u32
    ensures number { result ≡ record_number (record_of file.now offset) }
    ensures kind { shown.new.kind ≡ kind_of (record_of file.now offset) }
    ensures start { shown.new.start ≡ body_start_of (record_of file.now offset) }
    ensures length { shown.new.length ≡ body_length_of (record_of file.now offset) }
{
    let answer = entries::show_record(file, offset);
    let (kind, start, length) = match answer {
        Ok(found) => (found.kind, found.start, found.length),
        Err(_) => (0, 0, 0),
    };
    shown.kind = kind;
    shown.start = start;
    shown.length = length;
    entries::number(&answer)
}

// The records of one raw slice, written into the lent buffer: number, bytes written, and the byte and bit where the refused code
// or the unread rest starts.
#[unsafe(no_mangle)]
pub extern "C" fn format3_read_slice(
    slice: &[u8],
    parameters: &PictureParameters,
    records: &mut [u8],
    res: &mut SliceResult,
) -> u32
    ensures number { result ≡ answer_number (raw_slice_outcome (given_fields parameters.now) slice.now records.old).answer }
    ensures records { records.new ≡ (raw_slice_outcome (given_fields parameters.now) slice.now records.old).buffer }
    ensures written { res.new.written ≡ answer_written (raw_slice_outcome (given_fields parameters.now) slice.now records.old).answer }
    ensures byte { res.new.byte ≡ answer_byte (raw_slice_outcome (given_fields parameters.now) slice.now records.old).answer }
    ensures bit { res.new.bit ≡ answer_bit (raw_slice_outcome (given_fields parameters.now) slice.now records.old).answer }
{
    let answer = entries::read_slice(slice, *parameters, records);
    let (written, at) = match answer {
        Ok(read) => (Ok(read.written), read.end),
        Err(refused) => (Err(refused.refusal), refused.at),
    };
    res.written = written.unwrap_or(0);
    res.byte = at.byte;
    res.bit = at.bit;
    entries::number(&written)
}
