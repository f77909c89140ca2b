// What a function returns that reads parts of a slice and writes their bytes.
ghost use Rattle.std.specs.Prelude.{◌≡◌};
ghost use Rattle.mpeg1_reader.specs.RecordOffsets.{last_whole};

use mpeg1_bits::BitPosition;

// One part: the position after it, and how many bytes it takes in the buffer.
#[derive(Clone, Copy)]
pub struct Written {
    pub at: BitPosition,
    pub size: usize,
}

// A place between two macroblocks: where the next one starts, and the offset where its record starts.
#[derive(Clone, Copy)]
pub struct Checkpoint {
    pub at: BitPosition,
    pub offset: usize,
}

// Many records: the position after them, the offset after the last one, and a checkpoint up to which they are whole in the buffer.
#[derive(Clone, Copy)]
pub struct WrittenRecords {
    pub at: BitPosition,
    pub end: usize,
    pub whole: Checkpoint,
}

impl Checkpoint {
    // The next checkpoint, if the records up to it fit a buffer of this length; otherwise this one.
    #[tactic(auto, unfolding(crate::specs::RecordOffsets::last_whole))]
    pub(crate) fn or_next(self, next: Checkpoint, length: usize) -> Checkpoint
        ensures { result ≡ last_whole self next length }
    {
        if length < next.offset {
            return self;
        }
        next
    }
}
