// A pair, a run and a level: the coefficients of a block are coded as pairs.
ghost use Rattle.std.specs.Prelude.{◌≡◌};
ghost use Rattle.symbols.specs.Pair.{first_position};

// The last position of a block, in zigzag order.
pub const LAST_POSITION: usize = 63;

// The number of positions to skip, and the level after them.
#[derive(Clone, Copy)]
pub struct Pair {
    pub run: u8,
    pub level: i16,
}

// Where the first pair lands if its run is 0.
#[tactic(auto, unfolding(crate::specs::Pair::first_position))]
pub fn first_position(intra: bool) -> usize
    ensures { result ≡ first_position intra }
{
    if intra {
        return 1;
    }
    0
}
