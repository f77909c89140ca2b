// Reads a slice's head: its start code and scale. The extra information is skipped.
ghost use Rattle.std.specs.Prelude.{◌≡◌};
ghost use Rattle.mpeg1_slice.specs.Slice.{slice_head_at, first_bit};
ghost use Rattle.mpeg1_reader.specs.RecordOffsets.{slice_head_answer};

use mpeg1_bits::BitPosition;
use mpeg1_slice::refused::RefusedAt;
use mpeg1_slice::{element, extra};

// The row and the scale of a slice, and the position after its head.
#[derive(Clone, Copy)]
pub struct SliceHead {
    pub row: u8,
    pub scale: u8,
    pub at: BitPosition,
}

#[tactic(auto, unfolding(mpeg1_slice::specs::Slice::slice_head_at))]
pub(crate) fn read_slice_head(bytes: &[u8], height: u8) -> Result<SliceHead, RefusedAt>
    ensures { result ≡ slice_head_answer (slice_head_at height bytes.now first_bit) }
{
    let (row, after_start) = element::next_start(bytes, height)?;
    let (scale, after_scale) = element::next_field(bytes, after_start, 5)?;
    let at = extra::skip_extra(bytes, after_scale)?;
    Ok(SliceHead {
        row: row as u8,
        scale: scale as u8,
        at,
    })
}
