// What decoding a macroblock needs and leaves: the quantizer scale in effect and the DC predictors.
ghost use Rattle.std.specs.Prelude.{◌≡◌};
ghost use Rattle.decode_coefficients.specs.Macroblock.{scale_after};

use crate::dc::DcPasts;
use symbols::macroblock::MacroblockSymbols;
use symbols::macroblock_type;
use symbols::macroblock_type::SCALE_GIVEN;

// The symbols, and the DC pasts that the macroblock leaves.
#[derive(Clone, Copy)]
pub struct SymbolsWithDc {
    pub symbols: MacroblockSymbols,
    pub dc: DcPasts,
}

// The scale that applies from a macroblock on: its own, or the previous one.
pub fn scale_after(before: u8, symbols: MacroblockSymbols) -> u8
    ensures { result ≡ scale_after before symbols }
{
    if macroblock_type::has_part(symbols.macroblock_type, SCALE_GIVEN) {
        return symbols.scale;
    }
    before
}
