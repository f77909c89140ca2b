// The picture's size in macroblocks.
ghost use Rattle.std.specs.Prelude.{◌≡◌, ◌*◌};
ghost use Rattle.symbols.specs.Size.{max_width, max_height, max_macroblocks, size_of, size_within, macroblock_count, picture_bytes};
ghost use Rattle.symbols.specs.Requires.{SizeWithin};

#[derive(Clone, Copy)]
pub struct PictureSize {
    pub width: usize,
    pub height: usize,
}

impl PictureSize {
    pub const MAX_WIDTH: usize = 48;

    pub const MAX_HEIGHT: usize = 36;

    // The most macroblocks of a picture.
    pub const MAX_MACROBLOCKS: usize = 396;

    // The most macroblocks that the small reader takes, for a caller with memory for no more.
    pub const MAX_MACROBLOCKS_SMALL: usize = 99;

    // The size, if it is at least 1 by 1 and within the limits.
    #[tactic(auto, using(crate::proofs::Guard::guards), unfolding(crate::specs::Size::size_of, crate::specs::Size::legal_size, crate::specs::Size::size_within))]
    pub fn new(width: usize, height: usize) -> Option<PictureSize>
        ensures { result ≡ size_of width height }
    {
        if !(1..=Self::MAX_WIDTH).contains(&width) {
            return None;
        }
        if !(1..=Self::MAX_HEIGHT).contains(&height) {
            return None;
        }
        PictureSize { width, height }.within(Self::MAX_MACROBLOCKS)
    }

    // The size, if it has at most `limit` macroblocks.
    #[tactic(auto, using(crate::proofs::Guard::guards), unfolding(crate::specs::Size::size_within))]
    pub fn within(self, limit: usize) -> Option<PictureSize>
        requires { SizeWithin (max_width * max_height) self }
        ensures { result ≡ size_within limit self }
    {
        if limit < self.width * self.height {
            return None;
        }
        Some(self)
    }

    // The count of macroblocks.
    pub fn macroblocks(self) -> usize
        requires { SizeWithin max_macroblocks self }
        ensures { result ≡ macroblock_count self }
    {
        self.width * self.height
    }

    // The picture's length in bytes.
    pub fn bytes(self) -> usize
        requires { SizeWithin max_macroblocks self }
        ensures { result ≡ picture_bytes self }
    {
        let macroblocks = self.width * self.height;
        384 * macroblocks
    }
}
