// What depends on the caller: the reader's limit, and the lengths of the lent buffers.
ghost use Rattle.std.specs.Prelude.{◌≡◌};
ghost use Rattle.symbols.specs.Requires.{SizeWithin};
ghost use Rattle.symbols.specs.Size.{max_macroblocks};
ghost use Rattle.format3_header.specs.Lengths.{reference_length, lent_lengths, caller_verdict};

use refusals::Refusal;
use symbols::header;
use symbols::header::Header;
use symbols::size::PictureSize;

// The length that a reference must have: the picture's if it is used, otherwise 0.
fn reference_length(used: bool, size: PictureSize) -> usize
    requires { SizeWithin max_macroblocks size }
    ensures { result ≡ reference_length used size }
{
    if used { size.bytes() } else { 0 }
}

// Tests the output (19), the forward reference (20) and the backward reference (21).
#[tactic(auto, using(symbols::proofs::Guard::guards), unfolding(crate::specs::Lengths::lent_lengths))]
fn lent_lengths(
    header: Header,
    output: usize,
    forward: usize,
    backward: usize,
) -> Result<(), Refusal>
    requires { SizeWithin max_macroblocks header.size }
    ensures { result ≡ lent_lengths header output forward backward }
{
    let size = header.size;
    if output != size.bytes() {
        return Err(Refusal::OutputLength);
    }
    if forward != reference_length(header::uses_forward(header.coding_type), size) {
        return Err(Refusal::ForwardLength);
    }
    if backward != reference_length(header::uses_backward(header.coding_type), size) {
        return Err(Refusal::BackwardLength);
    }
    Ok(())
}

// Tests the reader's limit (27), then the lengths of the lent buffers.
#[tactic(auto, using(symbols::proofs::Guard::guards, symbols::proofs::Laws::Size::within_some), unfolding(crate::specs::Lengths::caller_verdict))]
pub(crate) fn caller_verdict(
    limit: usize,
    header: Header,
    output: usize,
    forward: usize,
    backward: usize,
) -> Result<(), Refusal>
    requires { SizeWithin max_macroblocks header.size }
    ensures { result ≡ caller_verdict limit header output forward backward }
{
    let size = header.size;
    if size.within(limit).is_none() {
        return Err(Refusal::MacroblockLimit);
    }
    lent_lengths(header, output, forward, backward)
}
