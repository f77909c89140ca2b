// A macroblock's type: a sum of the parts that it has, and which types are legal.
ghost use Rattle.std.specs.Prelude.{◌≡◌, ◌<◌};
ghost use Rattle.symbols.specs.MacroblockType.{has_part, legal_type};

use crate::header::{I_PICTURE, P_PICTURE};

// The parts that a macroblock's type is the sum of: macroblock_quant, macroblock_motion_forward, macroblock_motion_backward,
// macroblock_pattern and macroblock_intra in the standard.
pub const SCALE_GIVEN: u8 = 1;

pub const FORWARD: u8 = 2;

pub const BACKWARD: u8 = 4;

pub const PATTERN: u8 = 8;

pub const INTRA: u8 = 16;

// The legal types for each picture coding type, one bit for each.
const I_TYPES: u32 = (1 << 16) | (1 << 17);

const P_TYPES: u32 = (1 << 2) | (1 << 8) | (1 << 9) | (1 << 10) | (1 << 11) | (1 << 16) | (1 << 17);

const B_TYPES: u32 = (1 << 2) | (1 << 4) | (1 << 6) | (255 << 10);

// Whether a macroblock's type includes a part, such as FORWARD.
pub fn has_part(macroblock_type: u8, part: u8) -> bool
    requires { 0 < part }
    ensures { result ≡ has_part macroblock_type part }
{
    macroblock_type / part % 2 == 1
}

// Whether a macroblock's type is legal in a picture of this coding type.
#[tactic(auto, unfolding(crate::specs::MacroblockType::legal_type))]
pub fn legal_type(coding: u8, macroblock_type: u8) -> bool
    ensures { result ≡ legal_type coding macroblock_type }
{
    if 31 < macroblock_type {
        return false;
    }
    let types = match coding {
        I_PICTURE => I_TYPES,
        P_PICTURE => P_TYPES,
        _ => B_TYPES,
    };
    (types >> macroblock_type) % 2 == 1
}
