// A refusal, and where in the bytes it happened.
ghost use Rattle.std.specs.Prelude.{◌≡◌};
ghost use Rattle.mpeg1_slice.specs.Read.{refused_code};

use mpeg1_bits::BitPosition;
use mpeg1_tables::code::CodeError;
use refusals::Refusal;

#[derive(Clone, Copy)]
pub struct RefusedAt {
    pub refusal: Refusal,
    pub at: BitPosition,
}

impl RefusedAt {
    // The refusal of bits that are no code, or end within one.
    pub(crate) fn of_code(error: CodeError, at: BitPosition) -> RefusedAt
        ensures { result ≡ refused_code error at }
    {
        let refusal = match error {
            CodeError::NoCode => Refusal::SliceCode,
            CodeError::Truncated => Refusal::SliceCut,
        };
        RefusedAt { refusal, at }
    }
}
