// The symbols of a macroblock before its blocks.
use crate::vector_codes::VectorCodes;

// The head: type, address increment, and scale, which is 0 if the type has none.
#[derive(Clone, Copy)]
pub struct MacroblockHead {
    pub macroblock_type: u8,
    pub increment: u16,
    pub scale: u8,
}

// The scale and the codes are 0 if they are not given; the pattern marks the coded blocks.
#[derive(Clone, Copy)]
pub struct MacroblockSymbols {
    pub macroblock_type: u8,
    pub increment: u16,
    pub scale: u8,
    pub forward: VectorCodes,
    pub backward: VectorCodes,
    pub pattern: u8,
}
