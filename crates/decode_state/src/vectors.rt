// The vectors of a macroblock, decoded from codes and pasts (predictors); the pasts after it; and its motion for use.
ghost use Rattle.std.specs.Prelude.{◌≡◌, ◌≤◌};
ghost use Rattle.decode_vectors.specs.Vector.{max_past, f_of};
ghost use Rattle.decode_macroblock.specs.Requires.{VectorWithin};
ghost use Rattle.decode_state.specs.Vectors.{decoded_vector, vector_pasts_before, forward_after, backward_after, vector_pasts_after, vector_for_use, own_vector, predicts_forward, predicts_backward, own_motion, next_vector_pasts};
ghost use Rattle.decode_state.specs.Requires.{Decodable, VectorPastsWithin, SymbolsWithin};

use crate::state;
use crate::state::VectorPasts;
use decode_macroblock::compensation::{Motion, Vector};
use decode_vectors::vector;
use symbols::header::{Header, P_PICTURE, VectorCoding};
use symbols::macroblock::MacroblockSymbols;
use symbols::macroblock_type;
use symbols::macroblock_type::{BACKWARD, FORWARD, INTRA};
use symbols::vector_codes::VectorCodes;

// f, the number of residuals: 1 if the picture doesn't use this direction.
pub fn f_of_coding(coding: VectorCoding) -> u32
    requires { coding.f_code ≤ 7 }
    ensures { result ≡ f_of coding.f_code }
{
    let code = coding.f_code;
    if code < 1 {
        return 1;
    }
    vector::f_of_code(u32::from(code))
}

// A vector, from its codes and its past.
fn decode(coding: VectorCoding, past: Vector, codes: VectorCodes) -> Vector
    requires { Decodable coding past codes }
    ensures { result ≡ decoded_vector coding past codes }
{
    let f = f_of_coding(coding);
    let horizontal = codes.horizontal;
    let vertical = codes.vertical;
    let right = vector::next_vector(
        f,
        past.right,
        i32::from(horizontal.code),
        u32::from(horizontal.residual),
    );
    let down = vector::next_vector(
        f,
        past.down,
        i32::from(vertical.code),
        u32::from(vertical.residual),
    );
    Vector { right, down }
}

// The pasts that a macroblock's own codes are added to: 0 after a skip in P, kept in B.
#[tactic(auto, unfolding(crate::specs::Vectors::vector_pasts_before))]
fn vector_pasts_before(coding: u8, increment: u16, pasts: VectorPasts) -> VectorPasts
    ensures { result ≡ vector_pasts_before coding increment pasts }
{
    if coding == P_PICTURE && 1 < increment {
        return state::zero_vector_pasts();
    }
    pasts
}

// The forward past after a macroblock without a forward vector: 0 in P, kept in B. With one, that vector.
#[tactic(auto, unfolding(crate::specs::Vectors::forward_after))]
fn forward_after(header: Header, symbols: MacroblockSymbols, past: Vector) -> Vector
    requires { SymbolsWithin header symbols × VectorWithin max_past past }
    ensures { result ≡ forward_after header symbols past }
{
    if macroblock_type::has_part(symbols.macroblock_type, FORWARD) {
        return decode(header.forward, past, symbols.forward);
    }
    if header.coding_type == P_PICTURE {
        return Vector::ZERO;
    }
    past
}

// The backward past after a macroblock: unchanged if no vector is given.
#[tactic(auto, unfolding(crate::specs::Vectors::backward_after))]
fn backward_after(header: Header, symbols: MacroblockSymbols, past: Vector) -> Vector
    requires { SymbolsWithin header symbols × VectorWithin max_past past }
    ensures { result ≡ backward_after header symbols past }
{
    if !macroblock_type::has_part(symbols.macroblock_type, BACKWARD) {
        return past;
    }
    decode(header.backward, past, symbols.backward)
}

// The pasts after a macroblock's own codes: 0 after intra.
#[tactic(auto, unfolding(crate::specs::Vectors::vector_pasts_after))]
fn vector_pasts_after(header: Header, symbols: MacroblockSymbols, pasts: VectorPasts) -> VectorPasts
    requires { SymbolsWithin header symbols × VectorPastsWithin pasts }
    ensures { result ≡ vector_pasts_after header symbols pasts }
{
    if macroblock_type::has_part(symbols.macroblock_type, INTRA) {
        return state::zero_vector_pasts();
    }
    VectorPasts {
        forward: forward_after(header, symbols, pasts.forward),
        backward: backward_after(header, symbols, pasts.backward),
    }
}

// A vector for use: doubled if the direction's full-pel flag is set.
fn vector_for_use(coding: VectorCoding, vector: Vector) -> Vector
    requires { VectorWithin max_past vector }
    ensures { result ≡ vector_for_use coding vector }
{
    let right = vector::used_vector(coding.full_pel, vector.right);
    let down = vector::used_vector(coding.full_pel, vector.down);
    Vector { right, down }
}

// Whether a macroblock is predicted forward; in P, even without a vector.
#[tactic(auto, unfolding(crate::specs::Vectors::predicts_forward))]
fn predicts_forward(coding: u8, macroblock_type: u8) -> bool
    ensures { result ≡ predicts_forward coding macroblock_type }
{
    let intra = macroblock_type::has_part(macroblock_type, INTRA);
    let given = macroblock_type::has_part(macroblock_type, FORWARD);
    !intra && (given || coding == P_PICTURE)
}

// Whether a macroblock is predicted backward.
#[tactic(auto, unfolding(crate::specs::Vectors::predicts_backward))]
fn predicts_backward(macroblock_type: u8) -> bool
    ensures { result ≡ predicts_backward macroblock_type }
{
    let intra = macroblock_type::has_part(macroblock_type, INTRA);
    !intra && macroblock_type::has_part(macroblock_type, BACKWARD)
}

// The vector of a direction for use; no vector if the macroblock is not predicted from there.
fn own_vector(predicts: bool, coding: VectorCoding, past: Vector) -> Option<Vector>
    requires { VectorWithin max_past past }
    ensures { result ≡ own_vector predicts coding past }
{
    if !predicts {
        return None;
    }
    Some(vector_for_use(coding, past))
}

// A macroblock's own directions and vectors for use.
#[tactic(auto, unfolding(crate::specs::Vectors::own_motion))]
pub(crate) fn own_motion(header: Header, macroblock_type: u8, pasts: VectorPasts) -> Motion
    requires { VectorPastsWithin pasts }
    ensures { result ≡ own_motion header macroblock_type pasts }
{
    let forward = predicts_forward(header.coding_type, macroblock_type);
    let backward = predicts_backward(macroblock_type);
    Motion {
        forward: own_vector(forward, header.forward, pasts.forward),
        backward: own_vector(backward, header.backward, pasts.backward),
    }
}

// The pasts after a macroblock, with the skipped ones before it.
#[tactic(auto, unfolding(crate::specs::Vectors::next_vector_pasts))]
pub(crate) fn next_vector_pasts(
    header: Header,
    symbols: MacroblockSymbols,
    kept: VectorPasts,
) -> VectorPasts
    requires { SymbolsWithin header symbols × VectorPastsWithin kept }
    ensures { result ≡ next_vector_pasts header symbols kept }
{
    let pasts = vector_pasts_before(header.coding_type, symbols.increment, kept);
    vector_pasts_after(header, symbols, pasts)
}
