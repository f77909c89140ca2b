// Whether a vector fits, and where it points.
// The bounds 2 ^ 16 and 2 ^ 12 are not rules: they exceed any picture and vector of document 01, and no sum overflows within them.
ghost use Rattle.std.specs.Prelude.{◌≡◌, ◌^◌, ◌≤◌, pos, ◌≤ℤ◌};
ghost use Rattle.math.specs.Bound.{Within};
ghost use Rattle.decode_prediction.specs.Fit.{signed_coordinate, half_pel_coordinate, vector_fits, macroblock_fits};

// Whether a vector fits across, from leftmost pel x in a plane this wide; or down, from topmost pel x in a plane this high.
#[tactic(auto, unfolding(crate::specs::Fit::vector_fits))]
fn vector_fits(x: usize, width: usize, vector: i32) -> bool
    requires { (x ≤ 2 ^ 16) × (width ≤ 2 ^ 16) × Within (2 ^ 16) vector }
    ensures { result ≡ vector_fits 16 x width vector }
{
    let coordinate = 2 * x as i32 + vector;
    let last = 2 * (width as i32 - 16);
    0 <= coordinate && coordinate <= last
}

// Whether a luma vector, right and down, fits for the macroblock in this column and row.
#[tactic(auto, unfolding(crate::specs::Fit::macroblock_fits))]
pub fn macroblock_fits(
    width: usize,
    height: usize,
    column: usize,
    row: usize,
    right: i32,
    down: i32,
) -> bool
    requires { (width ≤ 2 ^ 12) × (height ≤ 2 ^ 12) × (column ≤ width) × (row ≤ height) × Within (2 ^ 16) right × Within (2 ^ 16) down }
    ensures { result ≡ macroblock_fits width height column row right down }
{
    vector_fits(16 * column, 16 * width, right) && vector_fits(16 * row, 16 * height, down)
}

// The coordinate that a vector points to from pel x, in half pels.
pub fn half_pel_coordinate(x: usize, vector: i32) -> usize
    requires { (x ≤ 2 ^ 16) × Within (2 ^ 16) vector × (pos 0 ≤ℤ signed_coordinate x vector) }
    ensures { result ≡ half_pel_coordinate x vector }
{
    (2 * x as i32 + vector) as usize
}
