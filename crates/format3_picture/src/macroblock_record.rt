// What a macroblock record does: reads and tests all its symbols, tests that its vectors fit, then writes its macroblocks.
// A refused record leaves the caller's state as it is, and writes nothing.
ghost use Rattle.std.specs.Prelude.{◌≡◌, [], ◌≤◌, Ok};
ghost use Rattle.decode_coefficients.specs.Requires.{Transformable};
ghost use Rattle.decode_coefficients.specs.BlockArray.{six_blocks};
ghost use Rattle.decode_idct.specs.Transform.{inverse_transform};
ghost use Rattle.decode_macroblock.specs.Compensation.{references};
ghost use Rattle.decode_macroblock.specs.Macroblock.{predicted_only_from, with_macroblocks};
ghost use Rattle.format3_macroblock.specs.Macroblock.{macroblock_with_symbols};
ghost use Rattle.format3_picture.specs.MacroblockRecord.{context_of, record_fit, fit_verdict, state_after, plan_applied, parsed_applied, macroblock_applied, outcome_of, with_applied};
ghost use Rattle.format3_picture.specs.Requires.{PlanFollows, PlanWithin, PlanLent, PlanWritable, Invariant, StateWithin, SymbolsRead, starting_plan};

use crate::state::PictureState;
use decode_coefficients::dc::DcPasts;
use decode_coefficients::macroblock::SymbolsWithDc;
use decode_coefficients::matrices::Matrices;
use decode_macroblock::fit::Direction;
use decode_macroblock::{fit, write};
use decode_state::plan::Plan;
use decode_state::{plan, vectors};
use format3_macroblock::macroblock::MacroblockContext;
use format3_macroblock::macroblock_head::HeadContext;
use format3_records::record::MACROBLOCK_KIND;
use format3_records::turn;
use refusals::Refusal;
use symbols::macroblock::MacroblockSymbols;
use symbols::macroblock_type;
use symbols::macroblock_type::INTRA;
use symbols::size::PictureSize;

// What reading the record depends on.
fn context_of(picture: PictureState) -> MacroblockContext
    requires { StateWithin picture }
    ensures { result ≡ context_of picture }
{
    let header = picture.header;
    let slice = picture.slice;
    MacroblockContext {
        head: HeadContext {
            coding_type: header.coding_type,
            macroblocks: header.size.macroblocks(),
            next: picture.next,
            first: slice.first,
            intra: slice.intra,
        },
        forward_f: vectors::f_of_coding(header.forward),
        backward_f: vectors::f_of_coding(header.backward),
        dc: slice.dc,
    }
}

// The first misfit among the record's macroblocks: the skipped ones in order, then its own.
#[tactic(auto, unfolding(crate::specs::MacroblockRecord::record_fit))]
fn record_fit(size: PictureSize, plan: Plan) -> Result<(), Direction>
    requires { PlanWithin size plan }
    ensures { result ≡ record_fit size plan }
{
    fit::first_misfit(size, plan.first, plan.skipped, plan.skip_motion)?;
    fit::fit_of(size, plan.address, plan.motion)
}

// The refusal of a vector that doesn't fit (18 or 23).
fn fit_verdict(fit: Result<(), Direction>) -> Result<(), Refusal>
    ensures { result ≡ fit_verdict fit }
{
    match fit {
        Ok(()) => Ok(()),
        Err(Direction::Forward) => Err(Refusal::ForwardVectorOutside),
        Err(Direction::Backward) => Err(Refusal::BackwardVectorOutside),
    }
}

// The state after the record's macroblocks are written, with the rows worked for them.
fn state_after(picture: PictureState, plan: Plan, rows: usize) -> PictureState
    requires { PlanFollows picture plan × (rows ≤ 48) }
    ensures { result ≡ state_after picture plan rows }
{
    let next = plan.address + 1;
    let complete = next == picture.header.size.macroblocks();
    PictureState {
        turn: turn::turn_after(MACROBLOCK_KIND, complete),
        next,
        made: picture.made + (plan.skipped + 1),
        rows: picture.rows + rows,
        slice: plan.slice,
        ..picture
    }
}

// Writes the skipped macroblocks, if all the record's macroblocks fit.
fn write_skipped(size: PictureSize, plan: Plan, forward: &[u8], backward: &[u8], output: &mut [u8])
    requires { PlanWithin size plan × PlanLent size plan forward.now backward.now output.old × (record_fit size plan ≡ Ok tt) }
    ensures { output.new ≡ with_macroblocks inverse_transform (references forward.now backward.now) size (predicted_only_from plan.first plan.skipped plan.skip_motion) output.old }
{
    write::write_predictions(
        output,
        forward,
        backward,
        size,
        plan.first,
        plan.skipped,
        plan.skip_motion,
    );
}

// Writes the macroblocks of a record whose own macroblock has coded blocks, if all fit; `fits` is the refusal if one doesn't.
fn write_coded(
    picture: PictureState,
    plan: Plan,
    fits: Result<(), Refusal>,
    coefficients: &[i16; 384],
    marks: &[u64; 6],
    forward: &[u8],
    backward: &[u8],
    output: &mut [u8],
) -> Result<PictureState, Refusal>
    requires { PlanWritable picture plan forward.now backward.now output.old × (fits ≡ fit_verdict (record_fit picture.header.size plan)) × Transformable coefficients.now marks.now }
    ensures value { result ≡ outcome_of (plan_applied picture plan (six_blocks coefficients.now)) }
    ensures output_after { output.new ≡ with_applied inverse_transform (references forward.now backward.now) picture (plan_applied picture plan (six_blocks coefficients.now)) output.old }
{
    fits?;
    let size = picture.header.size;
    write_skipped(size, plan, forward, backward, output);
    let rows = write::write_macroblock(
        output,
        forward,
        backward,
        size,
        plan.address,
        plan.motion,
        plan.pattern,
        coefficients,
        marks,
    );
    Ok(state_after(picture, plan, rows))
}

// The same for a record whose own macroblock has no coded block, so no coefficients. One function for both, with optional coefficients, would
// be no plainer: they share only the first two calls.
fn write_predicted(
    picture: PictureState,
    plan: Plan,
    fits: Result<(), Refusal>,
    forward: &[u8],
    backward: &[u8],
    output: &mut [u8],
) -> Result<PictureState, Refusal>
    requires { PlanWritable picture plan forward.now backward.now output.old × (fits ≡ fit_verdict (record_fit picture.header.size plan)) × (plan.pattern ≡ 0) }
    ensures value { result ≡ outcome_of (plan_applied picture plan []) }
    ensures output_after { output.new ≡ with_applied inverse_transform (references forward.now backward.now) picture (plan_applied picture plan []) output.old }
{
    fits?;
    let size = picture.header.size;
    write_skipped(size, plan, forward, backward, output);
    write::write_prediction(output, forward, backward, size, plan.address, plan.motion);
    Ok(state_after(picture, plan, 0))
}

// Applies a macroblock with coded blocks; `rest` starts with them. The coefficients wait in an array until the record is known to be whole.
// `start` is the plan with reset DC pasts, and `fits` the refusal if a vector of it doesn't fit.
fn apply_coded(
    picture: PictureState,
    symbols: MacroblockSymbols,
    start: Plan,
    fits: Result<(), Refusal>,
    rest: &[u8],
    matrices: &Matrices,
    forward: &[u8],
    backward: &[u8],
    output: &mut [u8],
) -> Result<PictureState, Refusal>
    requires { Invariant picture forward.now backward.now output.old × SymbolsRead picture symbols × (start ≡ starting_plan picture symbols) × (fits ≡ fit_verdict (record_fit picture.header.size start)) }
    ensures value { result ≡ outcome_of (parsed_applied matrices.now picture (macroblock_with_symbols picture.slice.dc symbols rest.now)) }
    ensures output_after { output.new ≡ with_applied inverse_transform (references forward.now backward.now) picture (parsed_applied matrices.now picture (macroblock_with_symbols picture.slice.dc symbols rest.now)) output.old }
{
    let slice = picture.slice;
    let scale = decode_coefficients::macroblock::scale_after(slice.scale, symbols);
    let pasts = slice.dc.starting(symbols.increment);
    let mut coefficients = [0i16; 384];
    let mut marks = [0u64; 6];
    let (running, _) = format3_macroblock::macroblock::read_blocks_to_end(
        rest,
        symbols,
        scale,
        pasts,
        &matrices.intra,
        &matrices.non_intra,
        &mut coefficients,
        &mut marks,
    )?;
    let is_intra = macroblock_type::has_part(symbols.macroblock_type, INTRA);
    let plan = plan::with_dc(start, running.left(is_intra));
    write_coded(
        picture,
        plan,
        fits,
        &coefficients,
        &marks,
        forward,
        backward,
        output,
    )
}

// Applies a macroblock record. The plan starts with reset DC pasts, as a non-intra macroblock leaves them. An intra one always has coded
// blocks, and `apply_coded` fills in the pasts that they leave.
#[tactic(auto, unfolding(decode_state::specs::Plan::plan_of))]
pub(crate) fn apply_macroblock(
    picture: PictureState,
    body: &[u8],
    matrices: &Matrices,
    forward: &[u8],
    backward: &[u8],
    output: &mut [u8],
) -> Result<PictureState, Refusal>
    requires { Invariant picture forward.now backward.now output.old }
    ensures value { result ≡ outcome_of (macroblock_applied matrices.now picture body.now) }
    ensures output_after { output.new ≡ with_applied inverse_transform (references forward.now backward.now) picture (macroblock_applied matrices.now picture body.now) output.old }
{
    let (symbols, end) = format3_macroblock::macroblock::read_macroblock_symbols(
        body,
        context_of(picture),
    )?;
    let dc = DcPasts::reset();
    let plan = plan::make_plan(
        picture.header,
        picture.next,
        picture.slice,
        SymbolsWithDc { symbols, dc },
    );
    let fits = fit_verdict(record_fit(picture.header.size, plan));
    let rest = &body[end.at..];
    if symbols.pattern != 0 {
        return apply_coded(
            picture, symbols, plan, fits, rest, matrices, forward, backward, output,
        );
    }
    if 0 < rest.len() {
        return Err(Refusal::BodyLength);
    }
    write_predicted(picture, plan, fits, forward, backward, output)
}
