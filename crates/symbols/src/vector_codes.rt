// The codes of motion vectors, before they are decoded.
// A motion code and its residual.

#[derive(Clone, Copy)]
pub struct VectorCode {
    pub code: i16,
    pub residual: u8,
}

// The codes of one vector.
#[derive(Clone, Copy)]
pub struct VectorCodes {
    pub horizontal: VectorCode,
    pub vertical: VectorCode,
}

// The codes of a macroblock's vectors; zeros for a direction that is not given.
#[derive(Clone, Copy)]
pub struct Vectors {
    pub forward: VectorCodes,
    pub backward: VectorCodes,
}
