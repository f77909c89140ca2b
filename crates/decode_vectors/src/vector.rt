// A motion vector from its code, its residual and the past (its predictor), and the vectors for use.
ghost use Rattle.std.specs.Prelude.{◌≡◌, ◌^◌, ◌≤◌, ◌<◌, pos};
ghost use Rattle.math.specs.Bound.{Within};
ghost use Rattle.refusals.specs.Refusal.{number_in, value_in};
ghost use Rattle.decode_vectors.specs.Vector.{max_f, max_past, max_vector, f_of, vector_difference_of, wrapped, vector_of, code_in_range, residual_in_range, past_in_range, f_code_and_past_in_range, vector_entry_in_range, vector_number, vector_value, used_vector, chroma_vector};

use refusals::Refusal;

// f, which is 2^(f_code - 1); the caller has checked the f_code.
pub fn f_of_code(f_code: u32) -> u32
    requires { (1 ≤ f_code) × (f_code ≤ 7) }
    ensures { result ≡ f_of f_code }
{
    1 << (f_code - 1)
}

// The difference that a code and its residual encode.
fn vector_difference(f: i32, code: i32, residual: i32) -> i32
    requires { Within max_f f × Within 16 code × Within max_f residual }
    ensures { result ≡ vector_difference_of f code residual }
{
    code.signum() * ((code.abs() - 1) * f + residual + 1)
}

// A sum wrapped into -16f..16f-1.
#[tactic(auto, unfolding(crate::specs::Vector::wrapped))]
fn wrap(f: i32, sum: i32) -> i32
    requires { Within max_f f × Within (2 ^ 12) sum }
    ensures { result ≡ wrapped f sum }
{
    if sum < -(16 * f) {
        return sum + 32 * f;
    }
    if 16 * f - 1 < sum {
        return sum - 32 * f;
    }
    sum
}

// The vector, which becomes the next past; the caller has checked the ranges.
#[tactic(auto, unfolding(crate::specs::Vector::vector_of))]
pub fn next_vector(f: u32, past: i32, code: i32, residual: u32) -> i32
    requires { (f ≤ max_f) × Within max_past past × Within 16 code × (residual < max_f) }
    ensures { result ≡ vector_of f past code residual }
{
    let f_signed = f as i32;
    let moved = past + vector_difference(f_signed, code, residual as i32);
    wrap(f_signed, moved)
}

#[tactic(auto, unfolding(crate::specs::Vector::code_in_range))]
pub fn code_in_range(code: i32) -> bool
    ensures { result ≡ code_in_range code }
{
    (-16..=16).contains(&code)
}

#[tactic(auto, unfolding(crate::specs::Vector::residual_in_range))]
pub fn residual_in_range(f: u32, code: i32, residual: u32) -> bool
    ensures { result ≡ residual_in_range f code residual }
{
    if code == 0 {
        return residual == 0;
    }
    residual < f
}

// Whether the past, or a vector that is to be the next past, is in -16f..16f-1.
#[tactic(auto, unfolding(crate::specs::Vector::past_in_range))]
pub fn past_in_range(f: u32, past: i32) -> bool
    requires { f ≤ max_f }
    ensures { result ≡ past_in_range f past }
{
    let f_signed = f as i32;
    (-(16 * f_signed)..=16 * f_signed - 1).contains(&past)
}

// Whether the f_code is 1..7, and the past in the range of its f.
#[tactic(auto, unfolding(crate::specs::Vector::f_code_and_past_in_range))]
pub fn f_code_and_past_in_range(f_code: u32, past: i32) -> bool
    ensures { result ≡ f_code_and_past_in_range f_code past }
{
    (1..=7).contains(&f_code) && past_in_range(f_of_code(f_code), past)
}

// Whether every number is in the vector entry's range.
#[tactic(auto, unfolding(crate::specs::Vector::vector_entry_in_range))]
fn vector_entry_in_range(f_code: u32, past: i32, code: i32, residual: u32) -> bool
    ensures { result ≡ vector_entry_in_range f_code past code residual }
{
    f_code_and_past_in_range(f_code, past)
        && code_in_range(code)
        && residual_in_range(f_of_code(f_code), code, residual)
}

// The vector entry: takes any numbers, and refuses those out of range. The vector is not doubled.
pub fn decode_vector(f_code: u32, past: i32, code: i32, residual: u32) -> Result<i32, Refusal>
    ensures number { number_in result ≡ vector_number f_code past code residual }
    ensures vector { value_in (pos 0) result ≡ vector_value f_code past code residual }
{
    if !vector_entry_in_range(f_code, past, code, residual) {
        return Err(Refusal::NumberOutOfRange);
    }
    Ok(next_vector(f_of_code(f_code), past, code, residual))
}

// The vector for use, in half pels: doubled if the full-pel flag is set.
pub fn used_vector(full_pel: bool, vector: i32) -> i32
    requires { Within max_past vector }
    ensures { result ≡ used_vector full_pel vector }
{
    if full_pel {
        return 2 * vector;
    }
    vector
}

// The vector for the chroma planes: the vector for use, halved towards zero.
pub fn chroma_vector(vector: i32) -> i32
    requires { Within max_vector vector }
    ensures { result ≡ chroma_vector vector }
{
    vector / 2
}
