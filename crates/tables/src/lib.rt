// The constant tables: cosines, zigzag order and default matrices.
// The compiler rebuilds a constant array at each use: copy it to a local and lend that, or read it at literal indices in another constant.
#![tactic(auto)]

ghost use Rattle.std.specs.Prelude.{◌≡◌};
ghost use Rattle.tables.specs.Tables.{cosines, zigzag, default_intra, default_non_intra};

// cos(i × pi / 16) × 2^20 for i from 1 to 7.
pub const COSINES: [i64; 7] = [1028428, 968758, 871859, 741455, 582558, 401273, 204567];

// The raster index in a block, 8 × row + column, of each position in zigzag order.
const ZIGZAG: [u8; 64] = [
    0, 1, 8, 16, 9, 2, 3, 10, 17, 24, 32, 25, 18, 11, 4, 5, 12, 19, 26, 33, 40, 48, 41, 34, 27, 20,
    13, 6, 7, 14, 21, 28, 35, 42, 49, 56, 57, 50, 43, 36, 29, 22, 15, 23, 30, 37, 44, 51, 58, 59,
    52, 45, 38, 31, 39, 46, 53, 60, 61, 54, 47, 55, 62, 63,
];

// The default matrices, row by row.
const DEFAULT_INTRA: [u8; 64] = [
    8, 16, 19, 22, 26, 27, 29, 34, 16, 16, 22, 24, 27, 29, 34, 37, 19, 22, 26, 27, 29, 34, 34, 38,
    22, 22, 26, 27, 29, 34, 37, 40, 22, 26, 27, 29, 32, 35, 40, 48, 26, 27, 29, 32, 35, 40, 48, 58,
    26, 27, 29, 34, 38, 46, 56, 69, 27, 29, 35, 38, 46, 56, 69, 83,
];

const DEFAULT_NON_INTRA: [u8; 64] = [16; 64];

fn cosine_table() -> [i64; 7]
    ensures { result ≡ cosines }
{
    COSINES
}

#[tactic(auto, unfolding(crate::specs::Tables::zigzag, crate::specs::Tables::scan, crate::specs::Tables::index_of, math::specs::Tab::tab))]
pub fn zigzag_table() -> [u8; 64]
    ensures { result ≡ zigzag }
{
    ZIGZAG
}

#[tactic(auto, unfolding(crate::specs::Tables::default_intra))]
pub fn default_intra() -> [u8; 64]
    ensures { result ≡ default_intra }
{
    DEFAULT_INTRA
}

#[tactic(auto, unfolding(crate::specs::Tables::default_non_intra))]
pub fn default_non_intra() -> [u8; 64]
    ensures { result ≡ default_non_intra }
{
    DEFAULT_NON_INTRA
}
