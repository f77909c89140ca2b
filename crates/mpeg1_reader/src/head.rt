// Reads a macroblock's type and, if the type has one, its scale.
ghost use Rattle.std.specs.Prelude.{◌≡◌};
ghost use Rattle.mpeg1_bits.specs.Requires.{InBytes};
ghost use Rattle.mpeg1_slice.specs.Answers.{answer};
ghost use Rattle.mpeg1_slice.specs.Macroblock.{scale_at, head_at};
ghost use Rattle.mpeg1_reader.specs.WriteAnswer.{macroblock_head_answer};

use mpeg1_bits::BitPosition;
use mpeg1_slice::element;
use mpeg1_slice::refused::RefusedAt;
use mpeg1_tables::table::CodeTable;
use mpeg1_tables::word_list::WordList;
use symbols::macroblock_type;
use symbols::macroblock_type::SCALE_GIVEN;

// A macroblock's type and scale, and the position after them.
#[derive(Clone, Copy)]
pub struct MacroblockHead {
    pub macroblock_type: u8,
    pub scale: u8,
    pub at: BitPosition,
}

#[tactic(auto, unfolding(mpeg1_slice::specs::Macroblock::scale_at))]
fn read_coded_scale(
    bytes: &[u8],
    at: BitPosition,
    macroblock_type: u8,
) -> Result<(u16, BitPosition), RefusedAt>
    requires { InBytes bytes.now at }
    ensures { result ≡ answer (scale_at macroblock_type bytes.now at) }
{
    if macroblock_type::has_part(macroblock_type, SCALE_GIVEN) {
        return element::next_field(bytes, at, 5);
    }
    Ok((0, at))
}

#[tactic(auto, unfolding(mpeg1_slice::specs::Macroblock::head_at))]
pub(crate) fn read_coded_head(
    table: &CodeTable,
    bytes: &[u8],
    from: BitPosition,
    coding_type: u8,
) -> Result<MacroblockHead, RefusedAt>
    requires { InBytes bytes.now from }
    ensures { result ≡ macroblock_head_answer (head_at coding_type bytes.now from) }
{
    let types = WordList::types(coding_type);
    let (word, after_type) = element::next_word(table, types, bytes, from)?;
    let macroblock_type = word as u8;
    let (scale, at) = read_coded_scale(bytes, after_type, macroblock_type)?;
    Ok(MacroblockHead {
        macroblock_type,
        scale: scale as u8,
        at,
    })
}
