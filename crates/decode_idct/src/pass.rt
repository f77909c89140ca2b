// The two passes: each reads the rows of a block and writes them as columns, so after both the block is in raster order.
ghost use Rattle.std.specs.Prelude.{◌≡◌, ℕ, ◌+◌, ◌*◌, ◌<◌, ◌^◌, get_or};
ghost use Rattle.math.specs.Tab.{tab};
ghost use Rattle.math.specs.Scatter.{scatter};
ghost use Rattle.math.specs.Bound.{Within, AllWithin, at};
ghost use Rattle.decode_idct.specs.Transform.{divided};
ghost use Rattle.decode_idct.specs.Line.{row_of, column_index, pass_result, residue_of};
ghost use Rattle.decode_coefficients.specs.Rows.{rows_worked};
ghost use Rattle.decode_coefficients.specs.Marks.{Marked};

use crate::line;
use decode_coefficients::marks;

// An exact sum, divided by 2^42 and rounded to the nearest.
fn rounded(sum: i64) -> i64
    requires { Within (2 ^ 57) sum }
    ensures { result ≡ divided sum }
{
    (sum + 0x200_0000_0000) >> 42
}

// The residue of an exact sum: rounded, and limited.
pub(crate) fn residue(sum: i64) -> i16
    requires { Within (2 ^ 57) sum }
    ensures { result ≡ residue_of sum }
{
    rounded(sum).clamp(-256, 255) as i16
}

// Row v of a block: of its coefficients, or of the numbers between the passes.
fn row<T: Copy + Into<i64>>(block: &[T; 64], v: usize) -> [i64; 8]
    requires { v < 8 }
    ensures { (d : T) → (u : ℕ) → u < 8 → T.converts (get_or block.now (8 * v + u) d) (at result u) }
{
    let mut line = [0; 8];
    for u in 0..8 {
        line[u] = block[8 * v + u].into();
    }
    line
}

// Stores a line in column v.
fn put_column(t: &mut [i64; 64], v: usize, y: [i64; 8])
    requires { v < 8 }
    ensures { t.new ≡ scatter (column_index v) (at y) 8 t.old }
{
    for u in 0..8 {
        t[8 * u + v] = y[u];
    }
}

// Stores the residues of a line in column v. Not by `put_column`: to make an array of residues first takes more time.
fn put_residues(t: &mut [i16; 64], v: usize, y: [i64; 8])
    requires { (v < 8) × AllWithin (2 ^ 57) y }
    ensures { t.new ≡ scatter (column_index v) (λ u. residue_of (at y u)) 8 t.old }
{
    for u in 0..8 {
        t[8 * u + v] = residue(y[u]);
    }
}

// Transforms row v and stores its line in column v.
fn work_row(c: &[i16; 64], v: usize, numbers: &mut [i64; 64])
    requires { (v < 8) × AllWithin (2 ^ 11) c.now }
    ensures { numbers.new ≡ scatter (column_index v) (λ u. pass_result c.now (column_index v u)) 8 numbers.old }
{
    let x = row(c, v);
    let y = line::transform_line(x);
    put_column(numbers, v, y);
}

// The numbers between the passes, and how many rows gave them.
#[derive(Clone, Copy)]
pub struct RowPass {
    pub numbers: [i64; 64],
    pub rows: usize,
}

// Works the rows that are marked. The line of any other row is zeros, which `numbers` holds from the start.
#[tactic(auto, unfolding(decode_coefficients::specs::Rows::rows_worked))]
pub(crate) fn row_pass(c: [i16; 64], marks: u64) -> RowPass
    requires { AllWithin (2 ^ 11) c × Marked c marks }
    ensures numbers_value { result.numbers ≡ tab 64 (pass_result c) }
    ensures rows_value { result.rows ≡ rows_worked c }
{
    let mut numbers = [0; 64];
    let mut rows = 0;
    for row in 0..8 {
        if marks::has_row(marks, row) {
            work_row(&c, row, &mut numbers);
            rows += 1;
        }
    }
    RowPass { numbers, rows }
}

pub(crate) fn column_pass(t: [i64; 64]) -> [i16; 64]
    requires { AllWithin (2 ^ 34) t }
    ensures { result ≡ tab 64 (λ k. residue_of (pass_result t k)) }
{
    let mut residues = [0; 64];
    for v in 0..8 {
        let x = row(&t, v);
        let y = line::transform_line(x);
        put_residues(&mut residues, v, y);
    }
    residues
}
