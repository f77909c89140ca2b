// A byte that is tested as it is read.
ghost use Rattle.std.specs.Prelude.{◌≡◌};
ghost use Rattle.format3_records.specs.Reader.{ParsesAs};
ghost use Rattle.format3_macroblock.specs.Tested.{byte_in};

use format3_records::field;
use format3_records::field::Cursor;
use refusals::Refusal;

// Reads a byte, and refuses one that is not in least..=most.
pub(crate) fn read_byte_in(
    rest: &[u8],
    least: u8,
    most: u8,
    refusal: Refusal,
) -> Result<(u8, Cursor), Refusal>
    ensures { ParsesAs (byte_in least most refusal) rest.now result }
{
    let Some((byte, cursor)) = field::read_u8(rest) else {
        return Err(Refusal::BodyLength);
    };
    if !(least..=most).contains(&byte) {
        return Err(refusal);
    }
    Ok((byte, cursor))
}
