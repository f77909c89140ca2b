// Lists every legal input of the vector entry for f_code 1 and then 2, each with its vector, as text in a lent buffer.
#![tactic(auto)]

ghost use Rattle.std.specs.Prelude.{◌≡◌, ◌++◌, ◌+◌, ◌≤◌, length, drop};
ghost use Rattle.io.specs.Counts.{IsPrefixLen};
ghost use Rattle.decode_vectors.specs.Vector.{f_of};
ghost use Rattle.format3_writer.specs.Written.{written};
ghost use Rattle.vector_list.specs.Cases.{residual_count, cases_of_code, cases_of_past, cases_of};
ghost use Rattle.vector_list.specs.List.{case_line, case_lines, vector_list};

use decode_vectors::vector;
use text_writer::{LINE_END, SPACE};

// The most bytes of a line, as in `2 -13 -10 0 -32` and its line feed.
const LINE_BYTES: usize = 16;

// The lines of f_code 1 and of f_code 2.
const LINES: usize = 1056 + 4160;

// The length of the buffer that is needed.
pub const VECTOR_LIST_BYTES: usize = LINE_BYTES * LINES;

// An input of the vector entry without its f_code, legal or not.
#[derive(Clone, Copy)]
pub struct VectorCase {
    pub past: i32,
    pub code: i32,
    pub residual: u32,
}

// How many residuals a code has: each below f, or 0 alone for code 0.
#[tactic(auto, unfolding(crate::specs::Cases::residual_count))]
fn residual_count(f: u32, code: i32) -> u32
    ensures { result ≡ residual_count f code }
{
    if code == 0 {
        return 1;
    }
    f
}

// Writes the line of a case and returns where it ends.
#[tactic(auto, unfolding(crate::specs::List::case_line))]
fn put_case(text: &mut [u8], at: usize, f_code: u32, case: VectorCase) -> usize
    requires { at + length (case_line f_code case) ≤ length text.old }
    ensures value { result ≡ at + length (case_line f_code case) }
    ensures text_after { text.new ≡ written at (case_line f_code case) text.old }
{
    let vector = vector::decode_vector(f_code, case.past, case.code, case.residual).unwrap_or(0);
    let f_code_end = text_writer::put_field(text, at, u64::from(f_code), SPACE);
    let past_end = text_writer::put_signed_field(text, f_code_end, case.past, SPACE);
    let code_end = text_writer::put_signed_field(text, past_end, case.code, SPACE);
    let residual_end = text_writer::put_field(text, code_end, u64::from(case.residual), SPACE);
    text_writer::put_signed_field(text, residual_end, vector, LINE_END)
}

// Writes the lines of one past and code: residual rising.
fn put_cases_of_code(text: &mut [u8], at: usize, f_code: u32, past: i32, code: i32) -> usize
    requires le_f_code { (1 ≤ f_code) × (f_code ≤ 7) }
    requires code_in_bounds { at + length (case_lines f_code (cases_of_code (f_of f_code) past code)) ≤ length text.old }
    ensures value { result ≡ at + length (case_lines f_code (cases_of_code (f_of f_code) past code)) }
    ensures text_after { text.new ≡ written at (case_lines f_code (cases_of_code (f_of f_code) past code)) text.old }
{
    let f = vector::f_of_code(f_code);
    let count = residual_count(f, code);
    let mut end = at;
    for residual in 0..count {
        let case = VectorCase {
            past,
            code,
            residual,
        };
        end = put_case(text, end, f_code, case);
    }
    end
}

// Writes the lines of one past: code rising.
fn put_cases_of_past(text: &mut [u8], at: usize, f_code: u32, past: i32) -> usize
    requires le_f_code { (1 ≤ f_code) × (f_code ≤ 7) }
    requires past_in_bounds { at + length (case_lines f_code (cases_of_past (f_of f_code) past)) ≤ length text.old }
    ensures value { result ≡ at + length (case_lines f_code (cases_of_past (f_of f_code) past)) }
    ensures text_after { text.new ≡ written at (case_lines f_code (cases_of_past (f_of f_code) past)) text.old }
{
    let mut end = at;
    for code in -16..17 {
        end = put_cases_of_code(text, end, f_code, past, code);
    }
    end
}

// Writes the lines of an f_code: past rising.
fn put_cases(text: &mut [u8], at: usize, f_code: u32) -> usize
    requires le_f_code { (1 ≤ f_code) × (f_code ≤ 7) }
    requires f_code_in_bounds { at + length (case_lines f_code (cases_of (f_of f_code))) ≤ length text.old }
    ensures value { result ≡ at + length (case_lines f_code (cases_of (f_of f_code))) }
    ensures text_after { text.new ≡ written at (case_lines f_code (cases_of (f_of f_code))) text.old }
{
    let f = vector::f_of_code(f_code) as i32;
    let mut end = at;
    for past in -(16 * f)..16 * f {
        end = put_cases_of_past(text, end, f_code, past);
    }
    end
}

// Writes the list at the text's start and returns its length; the rest of the buffer stays. The contract first says that it fits,
// since callers take `&text[..r]`.
#[tactic(auto, unfolding(crate::specs::List::vector_list))]
pub fn list_vectors(text: &mut [u8; VECTOR_LIST_BYTES]) -> usize
    ensures prefix_len { IsPrefixLen result text.new }
    ensures value { result ≡ length vector_list }
    ensures text_after { text.new ≡ vector_list ++ drop (length vector_list) text.old }
{
    let first_end = put_cases(text, 0, 1);
    put_cases(text, first_end, 2)
}
