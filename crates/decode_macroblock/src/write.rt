// Writing a macroblock into the lent output, block by block.
ghost use Rattle.std.specs.Prelude.{◌≡◌, true, cond, [], ◌≤◌, ◌<◌, length, replicate};
ghost use Rattle.symbols.specs.Size.{picture_bytes};
ghost use Rattle.symbols.specs.Pattern.{is_coded};
ghost use Rattle.decode_coefficients.specs.Requires.{Transformable};
ghost use Rattle.decode_coefficients.specs.BlockArray.{six_blocks};
ghost use Rattle.decode_idct.specs.Transform.{inverse_transform, residues_by};
ghost use Rattle.decode_macroblock.specs.Pel.{reconstructed_block};
ghost use Rattle.decode_macroblock.specs.Location.{block_location, read_at, put_at};
ghost use Rattle.decode_macroblock.specs.Requires.{Inside, Readable, BlocksWritable, Writable, RunWritable, Copyable};
ghost use Rattle.decode_macroblock.specs.Compensation.{references, is_whole_pel, predicted_from, pointed_block};
ghost use Rattle.decode_macroblock.specs.Block.{coefficients_at, with_residue, pels_of};
ghost use Rattle.decode_macroblock.specs.Macroblock.{predicted_only, predicted_only_from, with_blocks, with_macroblock, with_macroblocks};
ghost use Rattle.decode_macroblock.specs.Rows.{block_rows, macroblock_rows};

use crate::compensation::{Motion, Vector};
use crate::location::MacroblockPosition;
use crate::{compensation, location, residue};
use symbols::pattern;
use symbols::size::PictureSize;

// Puts the prediction of a block at its location.
fn write_predicted_block(
    output: &mut [u8],
    forward: &[u8],
    backward: &[u8],
    position: MacroblockPosition,
    motion: Motion,
    block: usize,
)
    requires { BlocksWritable position motion forward.now backward.now output.old × (block < 6) }
    ensures { output.new ≡ put_at (block_location position block) (pels_of inverse_transform (references forward.now backward.now) position motion 0 [] block) output.old }
{
    let location = location::block_location(position, block);
    let predicted = compensation::predict(forward, backward, motion, location, block);
    location::put::<8, 64>(output, location, predicted);
}

// Copies one block from the whole pels that the vector for its plane points to.
fn copy_block_at(
    output: &mut [u8],
    reference: &[u8],
    position: MacroblockPosition,
    vector: Vector,
    block: usize,
)
    requires { Inside position × Readable (block_location position block) vector reference.now × (is_whole_pel vector ≡ true) × (block < 6) × (length output.old ≡ picture_bytes position.size) }
    ensures { output.new ≡ put_at (block_location position block) (predicted_from reference.now (block_location position block) vector) output.old }
{
    let location = location::block_location(position, block);
    let copied = compensation::copy_from::<8, 64>(reference, location, vector);
    location::put::<8, 64>(output, location, copied);
}

// Copies the four Y blocks as 16 by 16 luma pels: a line of sixteen bytes takes no more loads and stores than one of eight.
fn copy_luma(output: &mut [u8], reference: &[u8], position: MacroblockPosition, vector: Vector)
    requires { Copyable position vector reference.now output.old × (is_whole_pel vector ≡ true) }
    ensures { output.new ≡ with_blocks position (pointed_block reference.now position vector) 4 output.old }
{
    let location = location::block_location(position, 0);
    let luma = compensation::copy_from::<16, 256>(reference, location, vector);
    location::put::<16, 256>(output, location, luma);
}

// Copies the blocks that the vector points to whole pels for, and answers how many it wrote: none, four (Y) or all six.
fn copy_whole_pels(
    output: &mut [u8],
    reference: &[u8],
    position: MacroblockPosition,
    vector: Vector,
) -> usize
    requires { Copyable position vector reference.now output.old }
    ensures upper_bound { result ≤ 6 }
    ensures output_after { output.new ≡ with_blocks position (pointed_block reference.now position vector) result output.old }
{
    if !compensation::is_whole_pel(vector) {
        return 0;
    }
    copy_luma(output, reference, position, vector);
    let chroma = compensation::vector_for(4, vector);
    if !compensation::is_whole_pel(chroma) {
        return 4;
    }
    copy_block_at(output, reference, position, chroma, 4);
    copy_block_at(output, reference, position, chroma, 5);
    6
}

// Writes the predictions that are plain copies (one direction, whole pels), and answers how many of the six it wrote.
// Testing once instead of at each block halves the time.
fn copy_blocks(
    output: &mut [u8],
    forward: &[u8],
    backward: &[u8],
    position: MacroblockPosition,
    motion: Motion,
) -> usize
    requires { BlocksWritable position motion forward.now backward.now output.old }
    ensures upper_bound { result ≤ 6 }
    ensures output_after { output.new ≡ with_blocks position (pels_of inverse_transform (references forward.now backward.now) position motion 0 []) result output.old }
{
    match (motion.forward, motion.backward) {
        (Some(vector), None) => copy_whole_pels(output, forward, position, vector),
        (None, Some(vector)) => copy_whole_pels(output, backward, position, vector),
        _ => 0,
    }
}

// Writes the predictions of the six blocks.
fn predict_blocks(
    output: &mut [u8],
    forward: &[u8],
    backward: &[u8],
    position: MacroblockPosition,
    motion: Motion,
)
    requires { BlocksWritable position motion forward.now backward.now output.old }
    ensures { output.new ≡ with_blocks position (pels_of inverse_transform (references forward.now backward.now) position motion 0 []) 6 output.old }
{
    let copied = copy_blocks(output, forward, backward, position, motion);
    for block in copied..6 {
        write_predicted_block(output, forward, backward, position, motion, block);
    }
}

// Adds the residue of a coded block to the pels at its location; leaves any other block as it is. Answers the rows worked.
fn add_residue_at(
    output: &mut [u8],
    position: MacroblockPosition,
    pattern: u8,
    coefficients: &[i16; 384],
    marks: &[u64; 6],
    block: usize,
) -> usize
    requires { Inside position × (length output.old ≡ picture_bytes position.size) × Transformable coefficients.now marks.now × (block < 6) }
    ensures output_after { output.new ≡ cond (is_coded pattern block) (put_at (block_location position block) (reconstructed_block (read_at (block_location position block) output.old) (residues_by inverse_transform (coefficients_at (six_blocks coefficients.now) block))) output.old) output.old }
    ensures value { result ≡ block_rows pattern (six_blocks coefficients.now) block }
{
    if !pattern::is_coded(pattern, block) {
        return 0; // no row is worked
    }
    let location = location::block_location(position, block);
    let predicted = location::read(output, location);
    let coded = residue::reconstruct_coded_block(predicted, coefficients, marks, block);
    let sums = coded.pels;
    location::put::<8, 64>(output, location, sums);
    coded.rows
}

// Writes a predicted macroblock: the predictions of all six blocks, then the residues of the coded ones. Answers the rows worked.
fn write_inter(
    output: &mut [u8],
    forward: &[u8],
    backward: &[u8],
    position: MacroblockPosition,
    motion: Motion,
    pattern: u8,
    coefficients: &[i16; 384],
    marks: &[u64; 6],
) -> usize
    requires { BlocksWritable position motion forward.now backward.now output.old × Transformable coefficients.now marks.now }
    ensures output_after { output.new ≡ with_blocks position (pels_of inverse_transform (references forward.now backward.now) position motion pattern (six_blocks coefficients.now)) 6 output.old }
    ensures value { result ≡ macroblock_rows pattern (six_blocks coefficients.now) }
{
    predict_blocks(output, forward, backward, position, motion);
    let mut rows: usize = 0;
    for block in 0..6 {
        rows += add_residue_at(output, position, pattern, coefficients, marks, block);
    }
    rows
}

// Writes a block of an intra macroblock: its residue, or zeros if it is not coded. Answers the rows worked.
fn write_intra_block(
    output: &mut [u8],
    position: MacroblockPosition,
    pattern: u8,
    coefficients: &[i16; 384],
    marks: &[u64; 6],
    block: usize,
) -> usize
    requires { Inside position × (length output.old ≡ picture_bytes position.size) × Transformable coefficients.now marks.now × (block < 6) }
    ensures output_after { output.new ≡ put_at (block_location position block) (with_residue inverse_transform pattern (six_blocks coefficients.now) block (replicate 64 0)) output.old }
    ensures value { result ≡ block_rows pattern (six_blocks coefficients.now) block }
{
    let location = location::block_location(position, block);
    let reconstructed = residue::add_residue([0u8; 64], pattern, coefficients, marks, block);
    let pels = reconstructed.pels;
    location::put::<8, 64>(output, location, pels);
    reconstructed.rows
}

// Writes the six blocks of an intra macroblock. Answers the rows worked.
fn write_intra(
    output: &mut [u8],
    position: MacroblockPosition,
    pattern: u8,
    coefficients: &[i16; 384],
    marks: &[u64; 6],
) -> usize
    requires { Inside position × (length output.old ≡ picture_bytes position.size) × Transformable coefficients.now marks.now }
    ensures output_after { output.new ≡ with_blocks position (λ block. with_residue inverse_transform pattern (six_blocks coefficients.now) block (replicate 64 0)) 6 output.old }
    ensures value { result ≡ macroblock_rows pattern (six_blocks coefficients.now) }
{
    let mut rows: usize = 0;
    for block in 0..6 {
        rows += write_intra_block(output, position, pattern, coefficients, marks, block);
    }
    rows
}

// Writes the macroblock at an address, with coded blocks. Answers the rows worked, the total over these blocks.
pub fn write_macroblock(
    output: &mut [u8],
    forward: &[u8],
    backward: &[u8],
    size: PictureSize,
    address: usize,
    motion: Motion,
    pattern: u8,
    coefficients: &[i16; 384],
    marks: &[u64; 6],
) -> usize
    requires { Writable size address motion forward.now backward.now output.old × Transformable coefficients.now marks.now }
    ensures output_after { output.new ≡ with_macroblock inverse_transform (references forward.now backward.now) size (record { address = address; motion = motion; pattern = pattern; coefficients = six_blocks coefficients.now }) output.old }
    ensures value { result ≡ macroblock_rows pattern (six_blocks coefficients.now) }
{
    let position = location::macroblock_position(size, address);
    if motion.forward.is_none() && motion.backward.is_none() {
        return write_intra(output, position, pattern, coefficients, marks);
    }
    write_inter(
        output,
        forward,
        backward,
        position,
        motion,
        pattern,
        coefficients,
        marks,
    )
}

// Writes the macroblock at an address, without coded blocks.
pub fn write_prediction(
    output: &mut [u8],
    forward: &[u8],
    backward: &[u8],
    size: PictureSize,
    address: usize,
    motion: Motion,
)
    requires { Writable size address motion forward.now backward.now output.old }
    ensures { output.new ≡ with_macroblock inverse_transform (references forward.now backward.now) size (predicted_only address motion) output.old }
{
    predict_blocks(
        output,
        forward,
        backward,
        location::macroblock_position(size, address),
        motion,
    );
}

// Writes skipped macroblocks: `skipped` of them from address `first` on, without coded blocks.
pub fn write_predictions(
    output: &mut [u8],
    forward: &[u8],
    backward: &[u8],
    size: PictureSize,
    first: usize,
    skipped: usize,
    motion: Motion,
)
    requires { RunWritable size first skipped motion forward.now backward.now output.old }
    ensures { output.new ≡ with_macroblocks inverse_transform (references forward.now backward.now) size (predicted_only_from first skipped motion) output.old }
{
    for k in 0..skipped {
        write_prediction(output, forward, backward, size, first + k, motion);
    }
}
