// A block of pels: prediction plus residue, limited, and put into a plane.
ghost use Rattle.std.specs.Prelude.{◌≡◌, ◌+◌, ◌*◌, ◌≤◌, pos, length};
ghost use Rattle.math.specs.Bound.{Within, AllWithin};
ghost use Rattle.math.specs.Limit.{limited};
ghost use Rattle.decode_macroblock.specs.Pel.{reconstructed_pel, reconstructed_block, with_pels};

// A sum limited to 0..255, kept in sixteen bits: one SIMD instruction packs sixteen such sums into bytes.
fn limit_pel(sum: i16) -> i16
    ensures { result ≡ limited (pos 0) (pos 255) sum }
{
    sum.clamp(0, 255)
}

// Prediction plus residue, limited to 0..255.
#[tactic(auto, unfolding(crate::specs::Pel::reconstructed_pel))]
fn reconstruct_pel(predicted: u8, residue: i16) -> u8
    requires { Within 256 residue }
    ensures { result ≡ reconstructed_pel predicted residue }
{
    limit_pel(i16::from(predicted) + residue) as u8
}

// The pels of a block; an intra block is predicted as 0 everywhere.
pub(crate) fn reconstruct_block(predicted: [u8; 64], residue: [i16; 64]) -> [u8; 64]
    requires { AllWithin 256 residue }
    ensures { result ≡ reconstructed_block predicted residue }
{
    let mut block = [0u8; 64];
    for k in 0..64 {
        block[k] = reconstruct_pel(predicted[k], residue[k]);
    }
    block
}

// Puts SIDE by SIDE pels at column x of line y. The inner loop compiles to a store of eight or sixteen bytes.
pub(crate) fn put_pels<const SIDE: usize, const PELS: usize>(
    plane: &mut [u8],
    stride: usize,
    x: usize,
    y: usize,
    pels: [u8; PELS],
)
    requires sides { (SIDE * SIDE ≡ PELS) × (SIDE ≤ 16) }
    requires inside { (x + SIDE ≤ stride) × ((y + SIDE) * stride ≤ length plane.old) }
    ensures { plane.new ≡ with_pels SIDE stride x y pels.entry plane.old }
{
    for j in 0..SIDE {
        for i in 0..SIDE {
            plane[(y + j) * stride + x + i] = pels[j * SIDE + i];
        }
    }
}
