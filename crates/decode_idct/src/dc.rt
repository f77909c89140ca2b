// A block with a DC alone: one residue for all pels, without the two passes.
ghost use Rattle.std.specs.Prelude.{◌≡◌, cond, ◌^◌, pos, replicate};
ghost use Rattle.math.specs.Bound.{Within};
ghost use Rattle.math.specs.Limit.{eq_z};
ghost use Rattle.decode_idct.specs.Line.{dc_sum, residue_of};

use crate::{Residues, pass};
use tables::COSINES;

// The factor of the DC at every pel: that of frequency 0, across and down.
const DC_FACTOR: i64 = COSINES[3] * COSINES[3];

// The residue that a DC alone gives every pel.
fn dc_residue(dc: i16) -> i16
    requires { Within (2 ^ 11) dc }
    ensures { result ≡ residue_of (dc_sum dc) }
{
    pass::residue(DC_FACTOR * i64::from(dc))
}

// The row of the DC is worked, unless the DC is 0 too.
fn dc_rows(dc: i16) -> usize
    ensures { result ≡ cond (eq_z dc (pos 0)) 0 1 }
{
    usize::from(dc != 0)
}

// The residues of a block with this DC alone, and the rows worked.
pub(crate) fn dc_residues(dc: i16) -> Residues
    requires { Within (2 ^ 11) dc }
    ensures values_value { result.values ≡ replicate 64 (residue_of (dc_sum dc)) }
    ensures rows_value { result.rows ≡ cond (eq_z dc (pos 0)) 0 1 }
{
    let value = dc_residue(dc);
    Residues {
        values: [value; 64],
        rows: dc_rows(dc),
    }
}
