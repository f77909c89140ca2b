// A code read from bits: its value and its length in bits.
ghost use Rattle.std.specs.Prelude.{◌≡◌};
ghost use Rattle.mpeg1_tables.specs.Table.{unpacked_of};

#[derive(Clone, Copy)]
pub struct Code {
    pub value: u16,
    pub length: usize,
}

// Why bits have no code: they begin none, or they end within one.
#[derive(Clone, Copy, Debug, PartialEq, Eq)]
pub enum CodeError {
    NoCode,
    Truncated,
}

// Unpacks an entry of the code table.
#[tactic(auto, unfolding(crate::specs::Table::unpacked_of))]
pub fn unpacked(entry: u16) -> Result<Code, CodeError>
    ensures { result ≡ unpacked_of entry }
{
    let size = entry % 32;
    if size == 0 {
        return Err(CodeError::NoCode);
    }
    if size == 31 {
        return Err(CodeError::Truncated);
    }
    Ok(Code {
        value: entry / 32,
        length: usize::from(size),
    })
}
