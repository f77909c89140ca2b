// The fields of a body. Each reader takes the rest of the body, and answers a value with a cursor, or `None`: the field is not wholly inside
// the record.
ghost use Rattle.std.specs.Prelude.{◌≡◌, drop};
ghost use Rattle.format3_records.specs.Reader.{ParsesAs};
ghost use Rattle.format3_records.specs.Field.{byte, two_bytes, signed_byte, signed_two_bytes, field_result};

// Where the next field starts, counted from the start of the bytes that the reader was given.
#[derive(Clone, Copy)]
pub struct Cursor {
    pub at: usize,
}

// An unsigned byte.
#[tactic(auto, using(crate::proofs::Laws::Field::bytes_read))]
pub fn read_u8(rest: &[u8]) -> Option<(u8, Cursor)>
    ensures { ParsesAs byte rest.now (field_result result) }
{
    let byte = *rest.first()?;
    Some((byte, Cursor { at: 1 }))
}

// An unsigned two-byte number, big-endian.
#[tactic(auto, using(crate::proofs::Laws::Field::bytes_read))]
pub fn read_u16(rest: &[u8]) -> Option<(u16, Cursor)>
    ensures { ParsesAs two_bytes rest.now (field_result result) }
{
    let bytes = *rest.first_chunk::<2>()?;
    Some((u16::from_be_bytes(bytes), Cursor { at: 2 }))
}

// A signed byte.
#[tactic(auto, unfolding(crate::specs::Field::signed_byte))]
pub fn read_i8(rest: &[u8]) -> Option<(i16, Cursor)>
    ensures { ParsesAs signed_byte rest.now (field_result result) }
{
    let (value, cursor) = read_u8(rest)?;
    Some((i16::from(value.cast_signed()), cursor))
}

// A signed two-byte number, big-endian.
#[tactic(auto, unfolding(crate::specs::Field::signed_two_bytes))]
pub fn read_i16(rest: &[u8]) -> Option<(i16, Cursor)>
    ensures { ParsesAs signed_two_bytes rest.now (field_result result) }
{
    let (value, cursor) = read_u16(rest)?;
    Some((value.cast_signed(), cursor))
}

// The bytes after the first n; empty if there are fewer.
#[tactic(auto, using(crate::proofs::Laws::Field::rests))]
pub fn after(rest: &[u8], n: usize) -> &[u8]
    ensures { result.now ≡ drop n rest.now }
{
    rest.get(n..).unwrap_or(&[])
}
