// Motion vectors encoded: the code and the residual with which decoding takes the past to a wanted vector.
#![tactic(auto)]

ghost use Rattle.std.specs.Prelude.{◌≡◌, ◌-◌, ◌^◌, ◌≤◌, nat_abs};
ghost use Rattle.math.specs.Bound.{Within};
ghost use Rattle.refusals.specs.Refusal.{number_in, value_in};
ghost use Rattle.decode_vectors.specs.Vector.{max_f, max_past};
ghost use Rattle.encode_vectors.specs.Encoding.{no_code, motion_code_of, residual_of, needed_difference, vector_reachable, encoded_number, encoded_code, encoded_residual};

use decode_vectors::vector;
use refusals::Refusal;

// The code and the residual of a vector.
#[derive(Clone, Copy)]
pub struct EncodedVector {
    pub code: i32,
    pub residual: u32,
}

// |difference| - 1, the number that f divides; 0 for a difference of 0.
fn size_less_one(difference: i32) -> u32
    requires { Within (2 ^ 12) difference }
    ensures { result ≡ nat_abs difference - 1 }
{
    difference.unsigned_abs().saturating_sub(1)
}

// The code of a difference.
fn motion_code_of(f: u32, difference: i32) -> i32
    requires { (1 ≤ f) × Within (2 ^ 12) difference }
    ensures { result ≡ motion_code_of f difference }
{
    let size = (size_less_one(difference) / f + 1) as i32;
    difference.signum() * size
}

// The residual of a difference.
#[tactic(auto, unfolding(crate::specs::Encoding::residual_of))]
fn residual_of(f: u32, difference: i32) -> u32
    requires { (1 ≤ f) × Within (2 ^ 12) difference }
    ensures { result ≡ residual_of f difference }
{
    size_less_one(difference) % f
}

// The difference that decoding must add to the past: in -16f+1..16f if past and wanted are in -16f..16f-1.
#[tactic(auto, unfolding(crate::specs::Encoding::needed_difference))]
fn needed_difference(f: i32, past: i32, wanted: i32) -> i32
    requires { Within max_f f × Within max_past past × Within max_past wanted }
    ensures { result ≡ needed_difference f past wanted }
{
    let difference = wanted - past;
    if difference < 1 - 16 * f {
        return difference + 32 * f;
    }
    if 16 * f < difference {
        return difference - 32 * f;
    }
    difference
}

// Whether the f_code and the past are in range, and so is the wanted vector: exactly then a pair reaches it.
#[tactic(auto, unfolding(crate::specs::Encoding::vector_reachable))]
fn vector_reachable(f_code: u32, past: i32, wanted: i32) -> bool
    ensures { result ≡ vector_reachable f_code past wanted }
{
    vector::f_code_and_past_in_range(f_code, past)
        && vector::past_in_range(vector::f_of_code(f_code), wanted)
}

// The code and the residual of a wanted vector, which is not doubled: takes any numbers, and refuses those that no pair reaches.
pub fn encode_vector(f_code: u32, past: i32, wanted: i32) -> Result<EncodedVector, Refusal>
    ensures number { number_in result ≡ encoded_number f_code past wanted }
    ensures code { (value_in no_code result).code ≡ encoded_code f_code past wanted }
    ensures residual { (value_in no_code result).residual ≡ encoded_residual f_code past wanted }
{
    if !vector_reachable(f_code, past, wanted) {
        return Err(Refusal::VectorUnreachable);
    }
    let f = vector::f_of_code(f_code);
    let difference = needed_difference(f as i32, past, wanted);
    Ok(EncodedVector {
        code: motion_code_of(f, difference),
        residual: residual_of(f, difference),
    })
}
