// The header of a picture: its numbers, and which of them are legal.
ghost use Rattle.std.specs.Prelude.{◌≡◌};
ghost use Rattle.symbols.specs.Header.{uses_forward, uses_backward, legal_coding, legal_codings, header_with};

use crate::size::PictureSize;
use refusals::Refusal;

// Picture coding types.
pub const I_PICTURE: u8 = 1;

pub const P_PICTURE: u8 = 2;

pub const B_PICTURE: u8 = 3;

const MAX_F_CODE: u8 = 7;

// The numbers of a header, as stored in its record.
#[derive(Clone, Copy)]
pub struct HeaderFields {
    pub width: u8,
    pub height: u8,
    pub coding_type: u8,
    pub full_pel_forward: u8,
    pub forward_f_code: u8,
    pub full_pel_backward: u8,
    pub backward_f_code: u8,
}

// How the vectors of one direction are coded; false and 0 if the picture doesn't use it.
#[derive(Clone, Copy)]
pub struct VectorCoding {
    pub full_pel: bool,
    pub f_code: u8,
}

#[derive(Clone, Copy)]
pub struct Header {
    pub size: PictureSize,
    pub coding_type: u8,
    pub forward: VectorCoding,
    pub backward: VectorCoding,
}

// Whether a picture of this type uses forward vectors.
pub fn uses_forward(coding: u8) -> bool
    ensures { result ≡ uses_forward coding }
{
    P_PICTURE <= coding
}

// Whether a picture of this type uses backward vectors.
pub fn uses_backward(coding: u8) -> bool
    ensures { result ≡ uses_backward coding }
{
    B_PICTURE <= coding
}

// Whether the flag and the f_code of one direction are legal.
fn legal_coding(used: bool, flag: u8, code: u8) -> bool
    ensures { result ≡ legal_coding used flag code }
{
    if used {
        return flag <= 1 && (1..=MAX_F_CODE).contains(&code);
    }
    flag == 0 && code == 0
}

// Whether the type is legal, and both directions are coded as the type requires.
#[tactic(auto, unfolding(crate::specs::Header::legal_codings))]
fn legal_codings(fields: HeaderFields) -> bool
    ensures { result ≡ legal_codings fields }
{
    let coding_type = fields.coding_type;
    if !(I_PICTURE..=B_PICTURE).contains(&coding_type) {
        return false;
    }
    let forward = legal_coding(
        uses_forward(coding_type),
        fields.full_pel_forward,
        fields.forward_f_code,
    );
    let backward = legal_coding(
        uses_backward(coding_type),
        fields.full_pel_backward,
        fields.backward_f_code,
    );
    forward && backward
}

// The header with these numbers, if they are legal.
#[tactic(auto, using(crate::proofs::Guard::guards, crate::proofs::Laws::Size::made, crate::proofs::Laws::Size::not_made), unfolding(crate::specs::Header::header_with, crate::specs::Header::legal_header))]
pub fn header_with(fields: HeaderFields) -> Result<Header, Refusal>
    ensures { result ≡ header_with fields }
{
    let Some(size) = PictureSize::new(usize::from(fields.width), usize::from(fields.height)) else {
        return Err(Refusal::Header);
    };
    if !legal_codings(fields) {
        return Err(Refusal::Header);
    }
    Ok(Header {
        size,
        coding_type: fields.coding_type,
        forward: VectorCoding {
            full_pel: fields.full_pel_forward == 1,
            f_code: fields.forward_f_code,
        },
        backward: VectorCoding {
            full_pel: fields.full_pel_backward == 1,
            f_code: fields.backward_f_code,
        },
    })
}
