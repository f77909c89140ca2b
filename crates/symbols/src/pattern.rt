// The coded block pattern: which of a macroblock's six blocks are coded.
ghost use Rattle.std.specs.Prelude.{◌≡◌, ◌<◌};
ghost use Rattle.symbols.specs.Pattern.{is_coded};

// The pattern with all six blocks coded.
pub const ALL_BLOCKS: u8 = 63;

// Whether a block is coded: 32 in the pattern marks the first block, 1 the last.
#[tactic(auto, unfolding(crate::specs::Pattern::is_coded))]
pub fn is_coded(pattern: u8, block: usize) -> bool
    requires { block < 6 }
    ensures { result ≡ is_coded pattern block }
{
    let from_block = pattern >> (5 - block);
    from_block % 2 == 1
}
