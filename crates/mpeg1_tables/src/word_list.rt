// The word lists of Annex B that are not of coefficients.
ghost use Rattle.std.specs.Prelude.{◌≡◌};
ghost use Rattle.mpeg1_tables.specs.AnnexB.{types_of};
ghost use Rattle.mpeg1_tables.specs.WordList.{words_in, row_of, has_long_words};

use symbols::header::{I_PICTURE, P_PICTURE};

// Each list's number is its first row in the code table.
#[derive(Clone, Copy, Debug, PartialEq, Eq)]
pub enum WordList {
    // Address increments, stuffing and the escape.
    Increments = 0,
    // Address increments and the escape.
    IncrementsAfterEscape = 2,
    // Macroblock types by the picture's type.
    IntraTypes = 4,
    PredictedTypes = 5,
    BidirectionalTypes = 6,
    // Coded block patterns.
    Patterns = 7,
    // Motion codes, with 16 added.
    MotionCodes = 9,
    // Sizes of DC differences.
    LuminanceSizes = 11,
    ChrominanceSizes = 12,
}

impl WordList {
    // The macroblock types in a picture of this type: I, P, or else B.
    #[tactic(auto, unfolding(crate::specs::AnnexB::types_of))]
    pub fn types(coding_type: u8) -> WordList
        ensures { words_in result ≡ types_of coding_type }
    {
        match coding_type {
            I_PICTURE => WordList::IntraTypes,
            P_PICTURE => WordList::PredictedTypes,
            _ => WordList::BidirectionalTypes,
        }
    }

    // The list's first row in the code table.
    pub fn row(self) -> usize
        ensures { result ≡ row_of self }
    {
        self as usize
    }

    // Whether the list has words of more than eight bits. These start with five zeros, and the next row has them.
    pub fn has_long_words(self) -> bool
        ensures { result ≡ has_long_words self }
    {
        matches!(
            self,
            WordList::Increments
                | WordList::IncrementsAfterEscape
                | WordList::Patterns
                | WordList::MotionCodes
        )
    }
}
