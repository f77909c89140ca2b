// Adds up the bytes of each plane of a picture.
ghost use Rattle.std.specs.Prelude.{◌≡◌, ◌≤◌, length, sum};
ghost use Rattle.reel_player.specs.Items.{max_lent_bytes};
ghost use Rattle.reel_report.specs.Planes.{sums_of};

use format3_records::field;
use reel_parts::references;

// The bytes of one macroblock: 256 of Y, 64 of Cb, 64 of Cr.
const MACROBLOCK_BYTES: usize = 384;

// The sum of the pels in each plane.
#[derive(Clone, Copy)]
pub struct Sums {
    pub y: u64,
    pub cb: u64,
    pub cr: u64,
}

fn sum(pels: &[u8]) -> u64
    requires { length pels.now ≤ max_lent_bytes }
    ensures { result ≡ sum pels.now }
{
    pels.iter().map(|&pel| u64::from(pel)).sum()
}

// The sums of the three planes of a picture.
#[tactic(auto, unfolding(crate::specs::Planes::sums_of))]
pub(crate) fn sums_of(picture: &[u8]) -> Sums
    requires { length picture.now ≤ max_lent_bytes }
    ensures { result ≡ sums_of picture.now }
{
    let macroblocks = picture.len() / MACROBLOCK_BYTES;
    let y = sum(references::first(picture, 256 * macroblocks));
    let from_cb = field::after(picture, 256 * macroblocks);
    let cb = sum(references::first(from_cb, 64 * macroblocks));
    let cr = sum(field::after(picture, 320 * macroblocks));
    Sums { y, cb, cr }
}
