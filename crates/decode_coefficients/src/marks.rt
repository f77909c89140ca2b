// Marks: a bit for each coefficient of a block, set if it is not 0. They tell the transform which rows to work, and whether the DC is alone.
ghost use Rattle.std.specs.Prelude.{◌≡◌, ◌<◌};
ghost use Rattle.decode_coefficients.specs.Marks.{has_row, has_ac, Marked, with_coefficient};
ghost use Rattle.decode_coefficients.specs.Block.{dc_block};

// Whether row v has a mark.
#[tactic(auto, unfolding(crate::specs::Marks::has_row))]
pub fn has_row(marks: u64, v: usize) -> bool
    requires { v < 8 }
    ensures { result ≡ has_row marks v }
{
    let from_row = marks >> (8 * v);
    from_row % 256 != 0
}

// Whether a coefficient after the first (an AC coefficient) has a mark.
pub fn has_ac(marks: u64) -> bool
    ensures { result ≡ has_ac marks }
{
    1 < marks
}

// The marks after a coefficient is stored at a raster index; one that is 0 sets none.
#[tactic(auto, unfolding(crate::specs::Marks::with_coefficient))]
pub(crate) fn with_coefficient(marks: u64, raster: usize, coefficient: i16) -> u64
    requires { raster < 64 }
    ensures { result ≡ with_coefficient marks raster coefficient }
{
    if coefficient == 0 {
        return marks;
    }
    marks | (1u64 << raster)
}

// The marks of a block before its pairs.
#[tactic(auto, unfolding(crate::specs::Block::dc_block))]
pub fn dc_marks(dc: i16) -> u64
    ensures { Marked (dc_block dc) result }
{
    with_coefficient(0, 0, dc)
}

// The marks of any block, by a look at each of its coefficients.
pub fn marks_of(block: &[i16; 64]) -> u64
    ensures { Marked block.now result }
{
    let mut marks = 0;
    for (raster, coefficient) in block.iter().enumerate() {
        marks = with_coefficient(marks, raster, *coefficient);
    }
    marks
}
