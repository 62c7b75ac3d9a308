//! Texts and numbers in their width.

ghost use Rattle.std.specs.Prelude.{◌≡◌, ◌+◌, ◌++◌, ◌<◌, ◌≤◌, ℤ, false, pos, length, replicate, OnOk, unsigned_abs};
ghost use Rattle.std.specs.Fmt.{decimal, digits};
ghost use Rattle.rank_range.specs.Formats.{in_width, number_in_width, sign_of};
ghost use Rattle.rank_range.specs.Kinds as kinds;
ghost use Rattle.rank_range.specs.Kinds.{value_of};
ghost use Rattle.c_lib.specs.Pieces.{side_of, signed_kind, unsigned_kind};

use crate::formats::{Conversion, Side};
use am_base::Bytes;
use itoa::Buffer;
use std::alloc::{AllocError, Global};

/// The number of a signed kind that the low bits of a word stand for.
#[tactic(auto, unfolding(rank_range::specs::Kinds::reduced))]
pub fn signed_value(long: bool, word: u64) -> i64
    ensures { result ≡ value_of (signed_kind long) word }
{
    if long {
        word.cast_signed()
    } else {
        ((word % 0x1_0000_0000) as u32).cast_signed() as i64
    }
}

/// The number of an unsigned kind that the low bits of a word stand for.
#[tactic(auto, unfolding(rank_range::specs::Kinds::reduced))]
pub fn unsigned_value(long: bool, word: u64) -> u64
    ensures { pos result ≡ value_of (unsigned_kind long) word }
{
    if long { word } else { word % 0x1_0000_0000 }
}

/// The word of a number.
pub fn word_of(value: i64) -> u64
    ensures { result ≡ kinds.word_of value }
{
    value.cast_unsigned()
}

/// Appends a text in the width of a conversion.
pub fn append_text(out: &mut Bytes, conversion: Conversion, text: &[u8]) -> Result<(), AllocError>
    ensures { OnOk result (out.new ≡ out.old ++ in_width (side_of conversion.side) conversion.width text.now) }
{
    let gap = (conversion.width as usize).saturating_sub(text.len());
    match conversion.side {
        Side::Left => {
            out.append(text)?;
            append_many(out, gap, b' ')
        }
        Side::Zeros | Side::Right => {
            append_many(out, gap, b' ')?;
            out.append(text)
        }
    }
}

/// Appends a signed number in decimal.
pub fn append_signed(out: &mut Bytes, conversion: Conversion, value: i64) -> Result<(), AllocError>
    ensures { OnOk result (out.new ≡ out.old ++ number_in_width (side_of conversion.side) conversion.width (sign_of value) (decimal (unsigned_abs value))) }
{
    let mut buffer = Buffer::new();
    let digits = buffer.format(value.unsigned_abs());
    let sign: &[u8] = if value < 0 { b"-" } else { b"" };
    append_number(out, conversion, sign, digits.as_bytes())
}

/// Appends an unsigned number in decimal.
pub fn append_unsigned(
    out: &mut Bytes,
    conversion: Conversion,
    value: u64,
) -> Result<(), AllocError>
    ensures { OnOk result (out.new ≡ out.old ++ number_in_width (side_of conversion.side) conversion.width (sign_of (pos value)) (decimal value)) }
{
    let mut buffer = Buffer::new();
    let digits = buffer.format(value);
    append_number(out, conversion, b"", digits.as_bytes())
}

/// Appends an unsigned number in hexadecimal.
pub fn append_hexadecimal(
    alloc: Global,
    out: &mut Bytes,
    conversion: Conversion,
    value: u64,
) -> Result<(), AllocError>
    ensures { OnOk result (out.new ≡ out.old ++ number_in_width (side_of conversion.side) conversion.width (sign_of (pos value)) (digits 16 false value)) }
{
    let digits = format!(in alloc; "{value:x}")?;
    append_number(out, conversion, b"", digits.as_bytes())
}

/// Appends a sign and digits, with zeros between them where the conversion has them.
fn append_number(
    out: &mut Bytes,
    conversion: Conversion,
    sign: &[u8],
    digits: &[u8],
) -> Result<(), AllocError>
    ensures { OnOk result (out.new ≡ out.old ++ number_in_width (side_of conversion.side) conversion.width sign.now digits.now) }
{
    let gap = (conversion.width as usize).saturating_sub(sign.len() + digits.len());
    if conversion.side == Side::Right {
        append_many(out, gap, b' ')?;
    }
    out.append(sign)?;
    if conversion.side == Side::Zeros {
        append_many(out, gap, b'0')?;
    }
    out.append(digits)?;
    if conversion.side == Side::Left {
        append_many(out, gap, b' ')?;
    }
    Ok(())
}

/// Appends a byte `n` times.
fn append_many(out: &mut Bytes, n: usize, byte: u8) -> Result<(), AllocError>
    ensures { OnOk result (out.new ≡ out.old ++ replicate n byte) }
{
    for i in 0..n {
        out.push(byte)?;
    }
    Ok(())
}
