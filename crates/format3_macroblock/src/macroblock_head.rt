// The first fields of a macroblock: its type, its address increment, and its quantizer scale.
ghost use Rattle.std.specs.Prelude.{◌≡◌};
ghost use Rattle.format3_records.specs.Reader.{ParsesAs};
ghost use Rattle.format3_macroblock.specs.MacroblockHead.{must_follow, legal_increment, given_scale_of, head_of};

use crate::slice;
use format3_records::field;
use format3_records::field::Cursor;
use refusals::Refusal;
use symbols::header::{B_PICTURE, I_PICTURE};
use symbols::macroblock::MacroblockHead;
use symbols::macroblock_type;
use symbols::macroblock_type::SCALE_GIVEN;

// What the head of a macroblock is tested against.
#[derive(Clone, Copy)]
pub struct HeadContext {
    // The picture's coding type and its count of macroblocks.
    pub coding_type: u8,
    pub macroblocks: usize,
    // The address after the last macroblock's.
    pub next: usize,
    // Whether the macroblock is the first in its slice, and whether the previous one was intra.
    pub first: bool,
    pub intra: bool,
}

// Whether a macroblock must directly follow the previous one, with none skipped.
fn must_follow(context: HeadContext) -> bool
    ensures { result ≡ must_follow context }
{
    if context.first {
        return true;
    }
    match context.coding_type {
        I_PICTURE => true,
        B_PICTURE => context.intra,
        _ => false,
    }
}

// Whether the address increment is legal; the macroblock's own address is next + increment - 1.
#[tactic(auto, unfolding(crate::specs::MacroblockHead::legal_increment))]
fn legal_increment(context: HeadContext, increment: u16) -> bool
    ensures { result ≡ legal_increment context increment }
{
    if increment < 1 {
        return false;
    }
    let next = context.next;
    let macroblocks = context.macroblocks;
    if macroblocks < next {
        return false;
    }
    if macroblocks - next < usize::from(increment) {
        return false;
    }
    if must_follow(context) {
        return increment <= 1;
    }
    true
}

// Reads the scale (10) if the type has one; otherwise 0.
fn read_given_scale(rest: &[u8], macroblock_type: u8) -> Result<(u8, Cursor), Refusal>
    ensures { ParsesAs (given_scale_of macroblock_type) rest.now result }
{
    if !macroblock_type::has_part(macroblock_type, SCALE_GIVEN) {
        return Ok((0, Cursor { at: 0 }));
    }
    slice::read_scale(rest)
}

// Reads the type (12), the address increment (13) and the scale (10).
#[tactic(auto, using(crate::proofs::Laws::Reads::reads), unfolding(crate::specs::MacroblockHead::head_of))]
pub(crate) fn read_head(
    body: &[u8],
    context: HeadContext,
) -> Result<(MacroblockHead, Cursor), Refusal>
    ensures { ParsesAs (head_of context) body.now result }
{
    let Some((macroblock_type, after_type)) = field::read_u8(body) else {
        return Err(Refusal::BodyLength);
    };
    if !macroblock_type::legal_type(context.coding_type, macroblock_type) {
        return Err(Refusal::MacroblockType);
    }
    let rest = field::after(body, after_type.at);
    let Some((increment, after_increment)) = field::read_u16(rest) else {
        return Err(Refusal::BodyLength);
    };
    if !legal_increment(context, increment) {
        return Err(Refusal::AddressIncrement);
    }
    let left = field::after(rest, after_increment.at);
    let (scale, after_scale) = read_given_scale(left, macroblock_type)?;
    let at = after_type.at + (after_increment.at + after_scale.at);
    let head = MacroblockHead {
        macroblock_type,
        increment,
        scale,
    };
    Ok((head, Cursor { at }))
}
