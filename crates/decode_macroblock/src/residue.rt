// The residue of a coded block, added to its prediction.
ghost use Rattle.std.specs.Prelude.{◌≡◌, ◌<◌};
ghost use Rattle.decode_coefficients.specs.Requires.{Transformable};
ghost use Rattle.decode_coefficients.specs.Rows.{rows_worked};
ghost use Rattle.decode_coefficients.specs.BlockArray.{block_in, six_blocks};
ghost use Rattle.decode_idct.specs.Transform.{inverse_transform, residues_by};
ghost use Rattle.decode_macroblock.specs.Pel.{reconstructed_block};
ghost use Rattle.decode_macroblock.specs.Block.{coefficients_at, with_residue};
ghost use Rattle.decode_macroblock.specs.Rows.{block_rows};

use crate::block;
use symbols::pattern;

// One block's sixty-four coefficients out of the macroblock's 384.
fn block_coefficients(coefficients: &[i16; 384], block: usize) -> [i16; 64]
    requires { block < 6 }
    ensures { result ≡ block_in coefficients.now block }
{
    let mut own = [0i16; 64];
    for k in 0..64 {
        own[k] = coefficients[64 * block + k];
    }
    own
}

// The pels of a block, and the rows that the transform worked for it.
#[derive(Clone, Copy)]
pub struct Reconstructed {
    pub pels: [u8; 64],
    pub rows: usize,
}

// A coded block: prediction plus residue.
#[tactic(auto, unfolding(decode_idct::specs::Transform::residues_by))]
pub(crate) fn reconstruct_coded_block(
    predicted: [u8; 64],
    coefficients: &[i16; 384],
    marks: &[u64; 6],
    block: usize,
) -> Reconstructed
    requires { Transformable coefficients.now marks.now × (block < 6) }
    ensures pels_value { result.pels ≡ reconstructed_block predicted (residues_by inverse_transform (coefficients_at (six_blocks coefficients.now) block)) }
    ensures rows_value { result.rows ≡ rows_worked (coefficients_at (six_blocks coefficients.now) block) }
{
    let own = block_coefficients(coefficients, block);
    let residues = decode_idct::inverse_transform(own, marks[block]);
    let values = residues.values;
    let pels = block::reconstruct_block(predicted, values);
    Reconstructed {
        pels,
        rows: residues.rows,
    }
}

#[tactic(auto, unfolding(crate::specs::Block::with_residue))]
pub(crate) fn add_residue(
    predicted: [u8; 64],
    pattern: u8,
    coefficients: &[i16; 384],
    marks: &[u64; 6],
    block: usize,
) -> Reconstructed
    requires { Transformable coefficients.now marks.now × (block < 6) }
    ensures pels_value { result.pels ≡ with_residue inverse_transform pattern (six_blocks coefficients.now) block predicted }
    ensures rows_value { result.rows ≡ block_rows pattern (six_blocks coefficients.now) block }
{
    if !pattern::is_coded(pattern, block) {
        return Reconstructed {
            pels: predicted,
            rows: 0,
        };
    }
    reconstruct_coded_block(predicted, coefficients, marks, block)
}
