// The DC predictors ("pasts" in document 01) of Y, Cb and Cr: where they are reset, and what each block leaves.
ghost use Rattle.std.specs.Prelude.{◌≡◌};
ghost use Rattle.decode_coefficients.specs.Dc.{dc_past_of, with_dc_past, dc_pasts_with, reset_dc_pasts, starting_dc_pasts, dc_pasts_left};

// The DC pasts (predictors) at a slice's start, and after a skipped or non-intra macroblock.
const RESET_DC: i16 = 1024;

// The past DC of Y, Cb and Cr: the DC predictors.
#[derive(Clone, Copy)]
pub struct DcPasts {
    pub y: i16,
    pub cb: i16,
    pub cr: i16,
}

impl DcPasts {
    // The DC pasts at a slice's start.
    pub fn reset() -> DcPasts
        ensures { result ≡ reset_dc_pasts }
    {
        DcPasts {
            y: RESET_DC,
            cb: RESET_DC,
            cr: RESET_DC,
        }
    }

    // The past for a block: Y for the first four, then Cb, then Cr.
    #[tactic(auto, unfolding(crate::specs::Dc::dc_past_of))]
    pub fn of_block(self, block: usize) -> i16
        ensures { result ≡ dc_past_of self block }
    {
        match block {
            0..=3 => self.y,
            4 => self.cb,
            _ => self.cr,
        }
    }

    // The pasts after a block with this DC.
    #[tactic(auto, unfolding(crate::specs::Dc::with_dc_past))]
    fn with_dc(self, block: usize, dc: i16) -> DcPasts
        ensures { result ≡ with_dc_past self block dc }
    {
        match block {
            0..=3 => DcPasts { y: dc, ..self },
            4 => DcPasts { cb: dc, ..self },
            _ => DcPasts { cr: dc, ..self },
        }
    }

    // The pasts after a block; one that is not intra leaves them unchanged.
    pub fn after_block(self, intra: bool, block: usize, dc: i16) -> DcPasts
        ensures { result ≡ dc_pasts_with intra self block dc }
    {
        if intra {
            return self.with_dc(block, dc);
        }
        self
    }

    // The pasts that a macroblock starts from: reset if a skipped one comes before it.
    #[tactic(auto, unfolding(crate::specs::Dc::starting_dc_pasts))]
    pub fn starting(self, increment: u16) -> DcPasts
        ensures { result ≡ starting_dc_pasts self increment }
    {
        if 1 < increment {
            return DcPasts::reset();
        }
        self
    }

    // The pasts that a macroblock leaves: reset if it is not intra.
    pub fn left(self, is_intra: bool) -> DcPasts
        ensures { result ≡ dc_pasts_left is_intra self }
    {
        if is_intra {
            return self;
        }
        DcPasts::reset()
    }
}
