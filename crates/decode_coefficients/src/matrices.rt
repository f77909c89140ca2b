// The two quantizer matrices of a picture: the defaults, and which one a macroblock uses.
ghost use Rattle.std.specs.Prelude.{◌≡◌, ◌<◌};
ghost use Rattle.decode_coefficients.specs.Matrices.{default_matrices, matrices_of, matrix_for};

#[derive(Clone, Copy)]
pub struct Matrices {
    pub intra: [u8; 64],
    pub non_intra: [u8; 64],
}

// The standard's default matrices.
pub fn default_matrices() -> Matrices
    ensures { result ≡ default_matrices }
{
    let intra = tables::default_intra();
    let non_intra = tables::default_non_intra();
    Matrices { intra, non_intra }
}

// The matrix that a macroblock uses.
pub fn matrix_for<'m>(is_intra: bool, intra: &'m [u8; 64], non_intra: &'m [u8; 64]) -> &'m [u8; 64]
    ensures { result.now ≡ matrix_for is_intra (matrices_of intra.now non_intra.now) }
{
    if is_intra {
        return intra;
    }
    non_intra
}
