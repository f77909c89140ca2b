// The refusals of every public entry, and their numbers in answers; 0 is an acceptance.
#![tactic(auto)]

ghost use Rattle.std.specs.Prelude.{◌≡◌};
ghost use Rattle.refusals.specs.Refusal.{number_of, number_in};

// Why something is refused, grouped by who can cause it, and the number that an answer gives for it.
#[derive(Clone, Copy, Debug, PartialEq, Eq)]
pub enum Refusal {
    // Caused by the writer of the file.
    FileEmpty = 1,
    Version = 2,
    RecordCut = 3,
    RecordKind = 4,
    OutOfTurn = 5,
    BodyLength = 6,
    FileEnds = 7,
    // Caused by the encoder.
    Header = 8,
    Matrix = 9,
    QuantizerScale = 10,
    SliceStart = 11,
    MacroblockType = 12,
    AddressIncrement = 13,
    VectorCode = 14,
    Pattern = 15,
    Coefficient = 16,
    DcCoefficient = 17,
    ForwardVectorOutside = 18,
    BackwardVectorOutside = 23,
    // Caused by the encoder, or by the caller, who chooses the reader.
    MacroblockLimit = 27,
    // Caused by the caller.
    OutputLength = 19,
    ForwardLength = 20,
    BackwardLength = 21,
    NumberOutOfRange = 22,
    VectorUnreachable = 33,
    // From a raw slice: the first two caused by the writer of the slice, the last by the caller.
    SliceCode = 24,
    SliceCut = 25,
    RecordsLength = 26,
}

// The number of an acceptance.
pub const ACCEPTED: u32 = 0;

impl Refusal {
    // The number that an answer gives for a refusal.
    pub fn number(self) -> u32
        ensures { result ≡ number_of self }
    {
        self as u32
    }
}

// The number of an answer: 0, or that of its refusal.
pub fn number<T>(answer: &Result<T, Refusal>) -> u32
    ensures { result ≡ number_in answer.now }
{
    match answer {
        Ok(_) => ACCEPTED,
        Err(refusal) => refusal.number(),
    }
}
