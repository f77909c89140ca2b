// The quantizer matrices of a picture, and the record that loads one (kind 2).
// A weight stands at its coefficient's raster index, 8 × row + column.
#![tactic(auto)]

ghost use Rattle.std.specs.Prelude.{◌≡◌, ◌<◌, length};
ghost use Rattle.format3_matrices.specs.Matrix.{number_of_matrix, matrix_with, positive, legal_first, loaded_already, matrix_verdict, raster_order, loaded_with, now_loaded};

use decode_coefficients::matrices::Matrices;
use refusals::Refusal;

const MATRIX_BODY_LENGTH: usize = 65;

const FIRST_INTRA_WEIGHT: u8 = 8;

// The two matrices, with their numbers in a record.
#[derive(Clone, Copy, Debug, PartialEq, Eq)]
enum Matrix {
    Intra = 0,
    NonIntra = 1,
}

// Which matrices this picture has loaded.
#[derive(Clone, Copy)]
pub struct Loaded {
    pub intra: bool,
    pub non_intra: bool,
}

impl TryFrom<u8> for Matrix {
    type Error = Refusal;

    ghost try_from_gives = { λ number result. result ≡ matrix_with number };

    #[tactic(auto, unfolding(crate::specs::Matrix::matrix_with))]
    fn try_from(number: u8) -> Result<Self, Refusal> {
        match number {
            0 => Ok(Matrix::Intra),
            1 => Ok(Matrix::NonIntra),
            _ => Err(Refusal::Matrix),
        }
    }
}

impl Matrix {
    // Whether its first weight is legal: 8 in the intra matrix.
    fn legal_first(self, first: u8) -> bool
        ensures { result ≡ legal_first (number_of_matrix self) first }
    {
        match self {
            Matrix::Intra => first == FIRST_INTRA_WEIGHT,
            Matrix::NonIntra => true,
        }
    }
}

impl Loaded {
    // Whether this matrix has been loaded before.
    fn includes(self, matrix: Matrix) -> bool
        ensures { result ≡ loaded_already (number_of_matrix matrix) self }
    {
        match matrix {
            Matrix::Intra => self.intra,
            Matrix::NonIntra => self.non_intra,
        }
    }
}

// Whether no weight is 0.
#[tactic(auto, unfolding(crate::specs::Matrix::positive))]
fn all_positive(weights: &[u8]) -> bool
    requires { length weights.now ≡ 64 }
    ensures { result ≡ positive weights.now }
{
    !weights.contains(&0)
}

// Tests the body's length (6); then which matrix, whether it was loaded before, and its weights (9).
#[tactic(auto, using(symbols::proofs::Guard::guards), unfolding(crate::specs::Matrix::matrix_verdict))]
pub fn matrix_verdict(body: &[u8], loaded: Loaded) -> Result<(), Refusal>
    ensures { result ≡ matrix_verdict body.now loaded }
{
    if body.len() != MATRIX_BODY_LENGTH {
        return Err(Refusal::BodyLength);
    }
    let matrix = Matrix::try_from(body[0])?;
    if loaded.includes(matrix) {
        return Err(Refusal::Matrix);
    }
    if !all_positive(&body[1..]) {
        return Err(Refusal::Matrix);
    }
    if !matrix.legal_first(body[1]) {
        return Err(Refusal::Matrix);
    }
    Ok(())
}

// The weights, given in zigzag order, in raster order.
#[tactic(auto, unfolding(math::specs::Scatter::scatter, crate::specs::Matrix::raster_order))]
fn raster_order(weights: &[u8]) -> [u8; 64]
    requires { length weights.now ≡ 64 }
    ensures { result ≡ raster_order weights.now }
{
    let zigzag = tables::zigzag_table();
    let mut matrix = [0u8; 64];
    for (raster, weight) in zigzag.iter().zip(weights) {
        matrix[usize::from(*raster)] = *weight;
    }
    matrix
}

// Marks the matrix of a legal record as loaded.
pub fn mark_loaded(body: &[u8], loaded: Loaded) -> Loaded
    requires { 0 < length body.now }
    ensures { result ≡ now_loaded body.now loaded }
{
    if body[0] == Matrix::Intra as u8 {
        return Loaded {
            intra: true,
            ..loaded
        };
    }
    Loaded {
        non_intra: true,
        ..loaded
    }
}

// The matrices after a legal matrix record: the loaded one replaces the previous one.
pub fn load_matrix(body: &[u8], matrices: Matrices) -> Matrices
    requires { length body.now ≡ 65 }
    ensures { result ≡ loaded_with body.now matrices }
{
    let weights = raster_order(&body[1..]);
    if body[0] == Matrix::Intra as u8 {
        return Matrices {
            intra: weights,
            ..matrices
        };
    }
    Matrices {
        non_intra: weights,
        ..matrices
    }
}
