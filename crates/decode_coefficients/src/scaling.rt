// Coefficients from levels: quotient, move to odd, limit.
ghost use Rattle.std.specs.Prelude.{◌≡◌, ◌*◌, ◌/◌, pos};
ghost use Rattle.math.specs.Bound.{Within};
ghost use Rattle.refusals.specs.Refusal.{number_in, value_in};
ghost use Rattle.decode_coefficients.specs.Scaling.{quotient_over, moved_to_odd, scaled, doubled_level, coefficient_of, intra_dc};
ghost use Rattle.decode_coefficients.specs.Answer.{coefficient_entry_in_range, coefficient_number, coefficient_value};

use refusals::Refusal;

// A doubled level times scale and weight, over 16 towards zero.
fn divide(doubled: i32, scale: i32, weight: i32) -> i32
    requires { Within 511 doubled × Within 31 scale × Within 255 weight }
    ensures { result ≡ quotient_over 16 doubled scale weight }
{
    doubled * scale * weight / 16
}

// An even number moves one towards zero. The bound covers the largest quotient.
fn move_to_odd(z: i32) -> i32
    requires { Within (511 * 31 * 255 / 16) z }
    ensures { result ≡ moved_to_odd z }
{
    if z % 2 == 0 { z - z.signum() } else { z }
}

// Quotient, move to odd, limit.
#[tactic(auto, unfolding(crate::specs::Scaling::scaled))]
fn scale_doubled(doubled: i32, scale: i32, weight: i32) -> i16
    requires { Within 511 doubled × Within 31 scale × Within 255 weight }
    ensures { result ≡ scaled doubled scale weight }
{
    let divided = divide(doubled, scale, weight);
    let odd = move_to_odd(divided);
    odd.clamp(-2048, 2047) as i16
}

// Twice the level, plus its sign if the macroblock is not intra.
fn double_level(intra: bool, level: i32) -> i32
    requires { Within 255 level }
    ensures { result ≡ doubled_level intra level }
{
    if intra {
        return 2 * level;
    }
    2 * level + level.signum()
}

// The coefficient of a level; the caller has checked the ranges. A weight of 0 is allowed.
#[tactic(auto, unfolding(crate::specs::Scaling::coefficient_of))]
pub(crate) fn scale_level(intra: bool, level: i32, scale: i32, weight: i32) -> i16
    requires { Within 255 level × Within 31 scale × Within 255 weight }
    ensures { result ≡ coefficient_of intra level scale weight }
{
    let doubled = double_level(intra, level);
    scale_doubled(doubled, scale, weight)
}

// The DC of an intra block, from the past DC (its predictor); its range is tested later.
pub fn intra_dc(past: i16, difference: i16) -> i16
    requires { Within 2040 past × Within 255 difference }
    ensures { result ≡ intra_dc past difference }
{
    past + 8 * difference
}

#[tactic(auto, unfolding(crate::specs::Answer::coefficient_entry_in_range))]
fn coefficient_entry_in_range(level: i32, scale: i32, weight: i32) -> bool
    ensures { result ≡ coefficient_entry_in_range level scale weight }
{
    (-255..=255).contains(&level) && (1..=31).contains(&scale) && (1..=255).contains(&weight)
}

// The coefficient entry, intra AC or non-intra: takes any three numbers.
pub fn coefficient(intra: bool, level: i32, scale: i32, weight: i32) -> Result<i16, Refusal>
    ensures number { number_in result ≡ coefficient_number level scale weight }
    ensures value { value_in (pos 0) result ≡ coefficient_value intra level scale weight }
{
    if !coefficient_entry_in_range(level, scale, weight) {
        return Err(Refusal::NumberOutOfRange);
    }
    Ok(scale_level(intra, level, scale, weight))
}
