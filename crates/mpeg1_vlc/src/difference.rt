// Turns the bits of a coded DC difference into its value.
ghost use Rattle.std.specs.Prelude.{◌≡◌, ◌^◌, ◌<◌, ◌≤◌};
ghost use Rattle.mpeg1_vlc.specs.Difference.{dc_difference_of};

use crate::lookup::power_of_two;

// The difference coded by the `size`-bit number `value`.
#[tactic(auto, unfolding(crate::specs::Difference::dc_difference_of))]
pub fn dc_difference(size: usize, value: u16) -> i16
    requires { (size ≤ 8) × (value < 2 ^ size) }
    ensures { result ≡ dc_difference_of size value }
{
    let whole = power_of_two(size);
    let number = value as usize;
    if 2 * number < whole {
        let next = (number + 1) as i16;
        let all = whole as i16;
        return next - all;
    }
    number as i16
}
