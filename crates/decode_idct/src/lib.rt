// The exact inverse transform: rows, then columns, with no rounding in between. Rows of zeros are skipped, and the others counted.
#![tactic(auto)]

mod dc;
pub mod line;
pub mod pass;

ghost use Rattle.std.specs.Prelude.{◌≡◌, ◌^◌};
ghost use Rattle.math.specs.Bound.{AllWithin};
ghost use Rattle.refusals.specs.Refusal.{number_in, value_in};
ghost use Rattle.decode_idct.specs.Transform.{inverse_transform, residues_by};
ghost use Rattle.decode_idct.specs.Answer.{no_residues, transform_entry_in_range, transform_number, transform_residues, transform_rows};
ghost use Rattle.decode_coefficients.specs.Rows.{rows_worked};
ghost use Rattle.decode_coefficients.specs.Marks.{Marked};

use decode_coefficients::marks;
use refusals::Refusal;

// The residues of a block, and the rows worked: how many of its eight rows hold a coefficient other than 0.
#[derive(Clone, Copy)]
pub struct Residues {
    pub values: [i16; 64],
    pub rows: usize,
}

// The residues of sixty-four coefficients and their marks; the caller has checked their range.
pub fn inverse_transform(coefficients: [i16; 64], marks: u64) -> Residues
    requires { AllWithin (2 ^ 11) coefficients × Marked coefficients marks }
    ensures values { result.values ≡ residues_by inverse_transform coefficients }
    ensures rows { result.rows ≡ rows_worked coefficients }
{
    if !marks::has_ac(marks) {
        return dc::dc_residues(coefficients[0]);
    }
    let row_pass = pass::row_pass(coefficients, marks);
    Residues {
        values: pass::column_pass(row_pass.numbers),
        rows: row_pass.rows,
    }
}

// Whether every coefficient is in range. The loop has no early exit, so it compiles to SIMD code.
#[tactic(auto, unfolding(math::specs::Test::all_below, crate::specs::Answer::transform_entry_in_range))]
fn transform_entry_in_range(coefficients: &[i16; 64]) -> bool
    ensures { result ≡ transform_entry_in_range coefficients.now }
{
    let mut legal = true;
    for coefficient in coefficients {
        legal &= (-2048..=2047).contains(coefficient);
    }
    legal
}

// The transform entry: takes any sixty-four numbers.
pub fn transform(coefficients: [i16; 64]) -> Result<Residues, Refusal>
    ensures number { number_in result ≡ transform_number coefficients }
    ensures residues { (value_in no_residues result).values ≡ transform_residues coefficients }
    ensures rows { (value_in no_residues result).rows ≡ transform_rows coefficients }
{
    if !transform_entry_in_range(&coefficients) {
        return Err(Refusal::NumberOutOfRange);
    }
    let marks = marks::marks_of(&coefficients);
    Ok(inverse_transform(coefficients, marks))
}
