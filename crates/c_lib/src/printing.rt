//! What `printf` writes of a format and its words.

ghost use Rattle.std.specs.Prelude.{◌≡◌, false, OnOk};
ghost use Rattle.rank_range.specs.Areas.{Areas, areas_of};
ghost use Rattle.rank_range.specs.Formats.{format_of};
ghost use Rattle.rank_range.specs.Library.{converts, written, behind_text, Writes};
ghost use Rattle.c_lib.specs.Pieces.{conversion_of, what_in, is_text};
ghost use Rattle.c_lib.specs.Answers.{IsBehind};

use crate::formats::{Conversion, End, Piece, What, first_piece};
use crate::memory::text_at;
use crate::numbers::{
    append_hexadecimal, append_signed, append_text, append_unsigned, signed_value, unsigned_value,
};
use am_base::{Bytes, TrapCause};
use rank_range::{LibStop, Mem};
use std::alloc::{AllocError, Global};

/// Appends what a format writes, with the words of its arguments.
pub fn append_format<M: Mem>(
    alloc: Global,
    out: &mut Bytes,
    format: &[u8],
    words: &[u64],
    m: &M,
) -> Result<(), LibStop>
    ensures { IsBehind out.old (written (areas_of (M.rank_of m.now) (M.top_of m.now) (M.bytes_of m.now)) (format_of format.now).pieces (format_of format.now).end words.now) out.new result }
{
    let mut rest = format;
    let mut left = words;
    loop {
        match first_piece(rest) {
            Ok((Piece::Plain(byte), more)) => {
                out.push(byte)?;
                rest = more;
            }
            Ok((Piece::Converts(conversion), more)) => {
                let [word, others @ ..] = left else {
                    return Err(LibStop::Trap(TrapCause::BadFormat));
                };
                match convert(alloc, out, conversion, *word, m) {
                    Ok(()) => {}
                    Err(stop) => return Err(stop),
                }
                left = others;
                rest = more;
            }
            Err(End::Whole) => return Ok(()),
            Err(End::Bad) => return Err(LibStop::Trap(TrapCause::BadFormat)),
            Err(End::Open) => return Err(LibStop::Trap(TrapCause::BadAddress)),
        }
    }
}

/// Appends what a conversion writes of a word.
fn convert<M: Mem>(
    alloc: Global,
    out: &mut Bytes,
    conversion: Conversion,
    word: u64,
    m: &M,
) -> Result<(), LibStop>
    ensures { IsBehind out.old (converts (areas_of (M.rank_of m.now) (M.top_of m.now) (M.bytes_of m.now)) (conversion_of conversion) (what_in conversion.what) word) out.new result }
{
    let written = if conversion.what == What::Text {
        match text_at(m, word) {
            Some(text) => append_text(out, conversion, text),
            None => return Err(LibStop::Trap(TrapCause::BadAddress)),
        }
    } else {
        append_word(alloc, out, conversion, word)
    };
    match written {
        Ok(()) => Ok(()),
        Err(AllocError) => Err(LibStop::Memory),
    }
}

/// Appends what a conversion that isn't of a text writes of a word.
fn append_word(
    alloc: Global,
    out: &mut Bytes,
    conversion: Conversion,
    word: u64,
) -> Result<(), AllocError>
    ensures { OnOk result ((areas : Areas) → is_text conversion.what ≡ false → behind_text out.old (converts areas (conversion_of conversion) (what_in conversion.what) word) ≡ Writes out.new) }
{
    match conversion.what {
        What::Signed { long } => append_signed(out, conversion, signed_value(long, word)),
        What::Unsigned { long } => append_unsigned(out, conversion, unsigned_value(long, word)),
        What::Hexadecimal { long } => append_hexadecimal(
            alloc,
            out,
            conversion,
            unsigned_value(long, word),
        ),
        What::Character | What::Text => append_text(out, conversion, &[(word % 256) as u8]),
    }
}
