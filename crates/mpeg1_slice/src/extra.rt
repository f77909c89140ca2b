// Skips a slice's extra information.
ghost use Rattle.std.specs.Prelude.{◌≡◌};
ghost use Rattle.mpeg1_bits.specs.Requires.{InBytes};
ghost use Rattle.mpeg1_slice.specs.Slice.{extra_at};
ghost use Rattle.mpeg1_slice.specs.Answers.{end_answer};

use crate::element;
use crate::refused::RefusedAt;
use mpeg1_bits::BitPosition;

pub fn skip_extra(bytes: &[u8], from: BitPosition) -> Result<BitPosition, RefusedAt>
    requires { InBytes bytes.now from }
    ensures { result ≡ end_answer (extra_at bytes.now from) }
{
    let mut at = from;
    loop {
        let (more, information) = element::next_field(bytes, at, 1)?;
        if more == 0 {
            return Ok(information);
        }
        let (_, next) = element::next_field(bytes, information, 8)?;
        at = next;
    }
}
