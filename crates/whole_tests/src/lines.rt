//! The line of a case: its words, its numbers and its escapes.

ghost use Rattle.std.specs.Prelude.{◌<◌};

use std::alloc::{AllocError, Global};

/// The word of that place, from 0 on, and an empty one where there is none.
pub(crate) fn word_at(line: &str, place: usize) -> &str {
    line.split(' ').nth(place).unwrap_or("")
}

/// The number that a word says, in decimal or behind `0x`.
pub(crate) fn number(word: &str) -> Option<u64> {
    match word.strip_prefix("0x") {
        Some(digits) => u64::from_str_radix(digits, 16).ok(),
        None => word.parse().ok(),
    }
}

pub(crate) fn number_at(line: &str, place: usize) -> Option<u64> {
    number(word_at(line, place))
}

pub(crate) fn u32_at(line: &str, place: usize) -> Option<u32> {
    u32::try_from(number_at(line, place)?).ok()
}

pub(crate) fn u16_at(line: &str, place: usize) -> Option<u16> {
    u16::try_from(number_at(line, place)?).ok()
}

pub(crate) fn u8_at(line: &str, place: usize) -> Option<u8> {
    u8::try_from(number_at(line, place)?).ok()
}

pub(crate) fn i32_at(line: &str, place: usize) -> Option<i32> {
    word_at(line, place).parse().ok()
}

/// What stands behind the first blank.
pub(crate) fn behind_first(line: &str) -> &str {
    match line.split_once(' ') {
        Some((_, rest)) => rest,
        None => "",
    }
}

/// The answer to a line that is no case.
pub(crate) fn no_case(out: &mut String) -> Result<(), AllocError> {
    out.push_str("no case")
}

/// Bytes as text: a line's end, a backslash, and what is no printable character by escapes.
pub(crate) fn show_bytes(out: &mut String, bytes: &[u8]) -> Result<(), AllocError> {
    for byte in bytes {
        match *byte {
            b'\n' => out.push_str("\\n")?,
            b'\\' => out.push_str("\\\\")?,
            b' '..=b'~' => out.push(char::from(*byte))?,
            _ => write!(out, "\\x{byte:02x}")?,
        }
    }
    Ok(())
}

/// Bytes as hexadecimal numbers, with a blank between two.
pub(crate) fn show_hexadecimal(out: &mut String, bytes: &[u8]) -> Result<(), AllocError> {
    for (at, byte) in bytes.iter().enumerate() {
        if at > 0 {
            out.push_str(" ")?;
        }
        write!(out, "{byte:02x}")?;
    }
    Ok(())
}

/// Where a text is read: what the next byte is.
#[derive(Clone, Copy)]
enum Place {
    Plain,
    /// Behind a backslash.
    Escape,
    /// The first digit behind `\x`.
    High,
    /// The second one, behind this value.
    Low(u8),
    /// A digit behind `\<`, or the bar.
    Count,
}

/// A text that is read, with the piece that is repeated.
#[derive(Drop)]
struct Reader {
    out: Vec<u8>,
    piece: Vec<u8>,
    times: u32,
    is_repeated: bool,
    place: Place,
}

impl Reader {
    fn put(&mut self, byte: u8) -> Result<(), AllocError> {
        self.place = Place::Plain;
        if self.is_repeated {
            self.piece.push(byte)?;
        } else {
            self.out.push(byte)?;
        }
        Ok(())
    }

    /// Ends the piece: it stands there so many times.
    fn repeat(&mut self) -> Result<(), AllocError> {
        self.place = Place::Plain;
        self.is_repeated = false;
        for _turn in 0..self.times {
            self.out.extend_from_slice(self.piece.as_slice())?;
        }
        Ok(())
    }

    /// Begins a piece.
    fn begin(&mut self) {
        self.place = Place::Count;
        self.is_repeated = true;
        self.times = 0;
        self.piece.clear();
    }

    fn escape(&mut self, byte: u8) -> Result<(), AllocError> {
        self.place = Place::Plain;
        match byte {
            b'n' => self.put(b'\n'),
            b'r' => self.put(b'\r'),
            b't' => self.put(b'\t'),
            b'e' => Ok(()),
            b'x' => {
                self.place = Place::High;
                Ok(())
            }
            b'<' => {
                self.begin();
                Ok(())
            }
            b'>' => self.repeat(),
            _ => self.put(byte),
        }
    }

    fn count(&mut self, byte: u8) {
        match byte {
            b'0'..=b'9' => {
                let digit = u32::from(byte - b'0');
                self.times = self.times.saturating_mul(10).saturating_add(digit);
            }
            _ => self.place = Place::Plain,
        }
    }

    fn next(&mut self, byte: u8) -> Result<(), AllocError> {
        match self.place {
            Place::Plain if byte == b'\\' => {
                self.place = Place::Escape;
                Ok(())
            }
            Place::Plain => self.put(byte),
            Place::Escape => self.escape(byte),
            Place::High => {
                self.place = Place::Low(digit_of(byte));
                Ok(())
            }
            Place::Low(high) => self.put(high % 16 * 16 + digit_of(byte)),
            Place::Count => {
                self.count(byte);
                Ok(())
            }
        }
    }
}

/// The value of a hexadecimal digit.
fn digit_of(byte: u8) -> u8
    ensures { result < 16 }
{
    match byte {
        b'0'..=b'9' => byte - b'0',
        b'a'..=b'f' => byte - b'a' + 10,
        _ => 0,
    }
}

/// The bytes of a text with escapes: `\n`, `\r`, `\t`, `\\`, `\xHH`, `\e` for nothing, and `\<62|x\>` for 62 times `x`.
pub(crate) fn unescaped(alloc: Global, text: &str) -> Result<Vec<u8>, AllocError> {
    let mut reader = Reader {
        out: Vec::new(alloc),
        piece: Vec::new(alloc),
        times: 0,
        is_repeated: false,
        place: Place::Plain,
    };
    for byte in text.as_bytes() {
        reader.next(*byte)?;
    }
    let Reader { out, .. } = reader;
    Ok(out)
}
