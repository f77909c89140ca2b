// Reads a coefficient's code: a pair with its sign, an escape with run and level, or the end of the block.
ghost use Rattle.std.specs.Prelude.{◌≡◌, cond, ◌^◌, ◌<◌, ◌≤◌, eqb, ltb, pos, ◌-ℤ◌, drop};
ghost use Rattle.mpeg1_bits.specs.Requires.{InBytes};
ghost use Rattle.mpeg1_bits.specs.Bits.{bits_from, bits_in};
ghost use Rattle.mpeg1_tables.specs.Code.{code_of};
ghost use Rattle.mpeg1_tables.specs.AnnexB.{next_coefficients, byte_words};
ghost use Rattle.mpeg1_vlc.specs.Requires.{WordIn};
ghost use Rattle.mpeg1_vlc.specs.Coefficient.{is_one_alone, signed_of, large_of, escaped_of, finished_of, words_of, coefficient_code_of};
ghost use Rattle.mpeg1_vlc.specs.Large.{lowest_of, added_to};

use crate::lookup::{look_up, power_of_two};
use mpeg1_bits::{BitPosition, Window, peek};
use mpeg1_tables::code::{Code, CodeError};
use mpeg1_tables::table;
use mpeg1_tables::table::CodeTable;

// Run, level and code length in bits; or end of block and code length.
#[derive(Clone, Copy)]
pub enum Coefficient {
    Pair(u8, i16, usize),
    EndOfBlock(usize),
}

// The two kinds of large levels, which an escape's first eight bits of a level tell apart.
#[derive(Clone, Copy)]
enum LargeLevels {
    Negative,
    Positive,
}

// The values of the two words that are not a pair.
const END_OF_BLOCK: u16 = 0;

const COEFFICIENT_ESCAPE: u16 = 64;

// In a window of 32 bits: the first bit; and the least numbers that do not start with six zeros, or with eight.
const FIRST_BIT: u32 = 1 << 31;

const PAST_SIX_ZEROS: u32 = 1 << 26;

const PAST_EIGHT_ZEROS: u32 = 1 << 24;

// A coefficient's word, without its sign. Words that start with six zeros are in the second row, with eight in the third.
fn look_up_word(table: &CodeTable, next: Window) -> Result<Code, CodeError>
    requires { next.count ≤ 32 }
    ensures { result ≡ code_of next_coefficients (bits_in next) }
{
    if next.count < 8 || PAST_SIX_ZEROS <= next.bits {
        return look_up(table, table::COEFFICIENTS, 0, next);
    }
    if PAST_EIGHT_ZEROS <= next.bits {
        return look_up(table, table::COEFFICIENTS_AFTER_SIX_ZEROS, 6, next);
    }
    look_up(table, table::COEFFICIENTS_AFTER_EIGHT_ZEROS, 8, next)
}

// A level with its sign.
fn with_sign(level: u16, sign: u32) -> i16
    requires { level < 64 }
    ensures { result ≡ cond (eqb sign 0) (pos level) (pos 0 -ℤ pos level) }
{
    let size = level as i16;
    if sign == 0 { size } else { -size }
}

// A pair, with the sign that follows its word.
fn signed_pair(word: Code, next: Window) -> Result<Coefficient, CodeError>
    requires { (word.value < 2 ^ 11) × (word.length ≤ 16) × (word.length ≤ next.count) × (next.count ≤ 32) }
    ensures { result ≡ signed_of word.value word.length (drop word.length (bits_in next)) }
{
    if next.count <= word.length {
        return Err(CodeError::Truncated);
    }
    let past = 31 - word.length;
    let sign = (next.bits >> past) % 2;
    let run = (word.value / 64) as u8;
    let level = with_sign(word.value % 64, sign);
    Ok(Coefficient::Pair(run, level, word.length + 1))
}

// A byte as a level, in two's complement.
fn signed_level(byte: u32) -> i16
    requires { byte < 256 }
    ensures { result ≡ cond (ltb byte 128) (pos byte) (pos byte -ℤ pos 256) }
{
    i16::from((byte as u8).cast_signed())
}

impl LargeLevels {
    // The lowest of the 128 numbers that the second eight bits can be.
    fn lowest(self) -> usize
        ensures { result ≡ lowest_of self }
    {
        match self {
            LargeLevels::Negative => 1,
            LargeLevels::Positive => 128,
        }
    }

    // The number that these bits have added to the level.
    fn added(self) -> u16
        ensures { result ≡ added_to self }
    {
        match self {
            LargeLevels::Negative => 256,
            LargeLevels::Positive => 0,
        }
    }
}

// A level that was coded with `less` added.
fn lessened(value: u16, less: u16) -> i16
    requires { (value < 2 ^ 11) × (less ≤ 256) }
    ensures { result ≡ pos value -ℤ pos less }
{
    let read = value as i16;
    read - less as i16
}

// The code of a large level's second eight bits, which are one of 128 numbers.
fn large_code(levels: LargeLevels, next: Window) -> Result<Code, CodeError>
    requires { next.count ≤ 32 }
    ensures { result ≡ code_of (byte_words (lowest_of levels) 128) (bits_in next) }
{
    let low = levels.lowest();
    let known = next.count.min(8);
    let past = 32 - known;
    let padding = power_of_two(8 - known);
    let first = ((next.bits as usize) >> past) * padding;
    if first + padding <= low {
        return Err(CodeError::NoCode);
    }
    if low + 127 < first {
        return Err(CodeError::NoCode);
    }
    if known < 8 {
        return Err(CodeError::Truncated);
    }
    Ok(Code {
        value: first as u16,
        length: 8,
    })
}

// A large level: the eight bits after the first 20.
fn large_level(levels: LargeLevels, run: u8, next: Window) -> Result<Coefficient, CodeError>
    requires { (20 ≤ next.count) × (next.count ≤ 32) }
    ensures { result ≡ large_of (byte_words (lowest_of levels) 128) (added_to levels) run 20 (drop 20 (bits_in next)) }
{
    let rest = Window {
        bits: next.bits % 4096 * 1048576,
        count: next.count - 20,
    };
    let code = large_code(levels, rest)?;
    let level = lessened(code.value, levels.added());
    Ok(Coefficient::Pair(run, level, 20 + code.length))
}

// Run and level after an escape's six bits.
fn escaped(next: Window) -> Result<Coefficient, CodeError>
    requires { (6 ≤ next.count) × (next.count ≤ 32) }
    ensures { result ≡ escaped_of 6 (drop 6 (bits_in next)) }
{
    if next.count < 20 {
        return Err(CodeError::Truncated);
    }
    let run = ((next.bits >> 20) % 64) as u8;
    let byte = (next.bits >> 12) % 256;
    if byte == 0 {
        return large_level(LargeLevels::Positive, run, next);
    }
    if byte == 128 {
        return large_level(LargeLevels::Negative, run, next);
    }
    Ok(Coefficient::Pair(run, signed_level(byte), 20))
}

// A coefficient, given its word: reads what follows it.
#[tactic(auto, unfolding(crate::specs::Coefficient::finished_of))]
fn finished(word: Code, next: Window) -> Result<Coefficient, CodeError>
    requires { WordIn word.value word.length next × (next.count ≤ 32) }
    ensures { result ≡ finished_of word.value word.length (drop word.length (bits_in next)) }
{
    match word.value {
        END_OF_BLOCK => Ok(Coefficient::EndOfBlock(word.length)),
        COEFFICIENT_ESCAPE => escaped(next),
        _ => signed_pair(word, next),
    }
}

// Any coefficient except the first of a non-intra block.
#[tactic(auto, unfolding(crate::specs::Coefficient::coefficient_code_of))]
fn next_coefficient(table: &CodeTable, next: Window) -> Result<Coefficient, CodeError>
    requires { next.count ≤ 32 }
    ensures { result ≡ coefficient_code_of next_coefficients (bits_in next) }
{
    let word = look_up_word(table, next)?;
    finished(word, next)
}

// Whether the code is the word `1`, which only the first coefficient of a non-intra block has; all other words are the same there.
#[tactic(auto, unfolding(crate::specs::Coefficient::is_one_alone))]
fn is_one_alone(first: bool, next: Window) -> bool
    ensures { result ≡ is_one_alone first next }
{
    first && next.count != 0 && FIRST_BIT <= next.bits
}

fn coefficient_in(table: &CodeTable, next: Window, first: bool) -> Result<Coefficient, CodeError>
    requires { next.count ≤ 32 }
    ensures { result ≡ coefficient_code_of (words_of first) (bits_in next) }
{
    if is_one_alone(first, next) {
        let one = Code {
            value: 1,
            length: 1,
        };
        return signed_pair(one, next);
    }
    next_coefficient(table, next)
}

// Reads a coefficient; `first` says that it is the first of a non-intra block.
pub fn read_coefficient(
    table: &CodeTable,
    bytes: &[u8],
    at: BitPosition,
    first: bool,
) -> Result<Coefficient, CodeError>
    requires { InBytes bytes.now at }
    ensures { result ≡ coefficient_code_of (words_of first) (bits_from bytes.now at) }
{
    let next = peek(bytes, at);
    coefficient_in(table, next, first)
}
