// The code table, one row per word list or more: the code of the next bits, with value and length packed into one number.
ghost use Rattle.std.specs.Prelude.{◌≡◌, ◌+◌, ◌<◌};
ghost use Rattle.mpeg1_bits.specs.Bits.{bits_of};
ghost use Rattle.mpeg1_tables.specs.Code.{code_of};
ghost use Rattle.mpeg1_tables.specs.Table.{code_table, table_row_at};

use crate::code::{Code, CodeError, unpacked};
use crate::entries::CODES;

// The rows of the list of coefficients: its first, the row after six zeros, and the row after eight.
pub const COEFFICIENTS: usize = 13;

pub const COEFFICIENTS_AFTER_SIX_ZEROS: usize = 14;

pub const COEFFICIENTS_AFTER_EIGHT_ZEROS: usize = 15;

// 16 rows of 256, one entry for each value of eight bits.
pub const TABLE_LENGTH: usize = 16 * 256;

#[derive(Drop)]
pub struct CodeTable {
    entries: [u16; TABLE_LENGTH],
    pub ghost as_listed: { entries ≡ code_table },
}

impl CodeTable {
    // The table of Annex B.
    pub fn new() -> CodeTable {
        CodeTable { entries: CODES }
    }

    // The code that a row's words give for the row's zeros and then these eight bits.
    pub fn code(&self, row: usize, bits: usize) -> Result<Code, CodeError>
        requires { (row < 16) × (bits < 256) }
        ensures { result ≡ code_of (table_row_at row).words (bits_of ((table_row_at row).zeros + 8) bits) }
    {
        unpacked(self.entries[256 * row + bits])
    }
}
