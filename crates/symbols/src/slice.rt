// The symbols of a slice before its macroblocks: its quantizer scale and the address of its first macroblock.

#[derive(Clone, Copy)]
pub struct SliceHeader {
    pub scale: u8,
    pub start: u16,
}
