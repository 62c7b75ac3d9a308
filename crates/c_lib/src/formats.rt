//! The formats of `printf` (C11, 7.21.6.1), of those that this profile has.

ghost use Rattle.std.specs.Prelude.{◌≡◌, ◌+◌, ◌*◌, ◌<◌, ◌≤◌, option_map, MatchResult};
ghost use Rattle.rank_range.specs.Formats as formats;
ghost use Rattle.rank_range.specs.Formats.{Found, Ends};
ghost use Rattle.c_lib.specs.Pieces.{side_of, what_in, piece_of, end_of};

/// How a text is put into its width.
#[derive(Clone, Copy, Debug, PartialEq, Eq)]
pub enum Side {
    /// To the left, with spaces behind it.
    Left,
    /// To the right, with zeros between a number's sign and its digits.
    Zeros,
    /// To the right, with spaces before it.
    Right,
}

/// What a conversion writes.
#[derive(Clone, Copy, Debug, PartialEq, Eq)]
pub enum What {
    /// A signed number, of 64 bits where it is long and else of 32; so it is with the unsigned ones.
    Signed { long: bool },
    /// An unsigned number in decimal.
    Unsigned { long: bool },
    /// An unsigned number in hexadecimal.
    Hexadecimal { long: bool },
    Character,
    Text,
}

/// A conversion: how its text is put into a width, and what it writes.
#[derive(Clone, Copy, Debug, PartialEq, Eq)]
pub struct Conversion {
    pub side: Side,
    pub width: u16,
    pub what: What,
}

/// A piece of a format: a byte that stands for itself, or a conversion.
#[derive(Clone, Copy, Debug, PartialEq, Eq)]
pub enum Piece {
    Plain(u8),
    Converts(Conversion),
}

/// How a format ends.
#[derive(Clone, Copy, Debug, PartialEq, Eq)]
pub enum End {
    /// At its zero.
    Whole,
    /// At a bad conversion.
    Bad,
    /// Where its area ends.
    Open,
}

/// The piece that a format begins with, and the bytes behind it; or how the format ends.
pub fn first_piece(format: &[u8]) -> Result<(Piece, &[u8]), End>
    ensures { MatchResult result (λ p. formats.first_piece format.now ≡ Found (piece_of p.0) p.1.now) (λ e. formats.first_piece format.now ≡ Ends (end_of e)) }
{
    match format {
        [] => Err(End::Open),
        [0, ..] => Err(End::Whole),
        [b'%', rest @ ..] => behind_percent(rest),
        [byte, rest @ ..] => Ok((Piece::Plain(*byte), rest)),
    }
}

/// The piece whose `%` stands before these bytes.
fn behind_percent(bytes: &[u8]) -> Result<(Piece, &[u8]), End>
    ensures { MatchResult result (λ p. formats.behind_percent bytes.now ≡ Found (piece_of p.0) p.1.now) (λ e. formats.behind_percent bytes.now ≡ Ends (end_of e)) }
{
    match bytes {
        [] => Err(End::Open),
        [b'%', rest @ ..] => Ok((Piece::Plain(b'%'), rest)),
        [b'-', rest @ ..] => width_from(3, Side::Left, 0, rest),
        [b'0', rest @ ..] => width_from(3, Side::Zeros, 0, rest),
        _ => width_from(3, Side::Right, 0, bytes),
    }
}

fn is_digit(byte: u8) -> bool
    ensures { result ≡ formats.is_digit byte }
{
    b'0' <= byte && byte <= b'9'
}

/// The conversion whose width goes on here by `n` digits at most.
fn width_from(n: u8, side: Side, width: u16, bytes: &[u8]) -> Result<(Piece, &[u8]), End>
    requires three { n ≤ 3 }
    requires two { 0 < n → width ≤ 99 }
    requires one { 1 < n → width ≤ 9 }
    requires none { 2 < n → width ≤ 0 }
    ensures { MatchResult result (λ p. formats.width_from n (side_of side) width bytes.now ≡ Found (piece_of p.0) p.1.now) (λ e. formats.width_from n (side_of side) width bytes.now ≡ Ends (end_of e)) }
{
    if n == 0 {
        return behind_width(side, width, bytes);
    }
    match bytes {
        [] => Err(End::Open),
        [byte, rest @ ..] if is_digit(*byte) => width_from(
            n - 1,
            side,
            10 * width + (*byte - b'0') as u16,
            rest,
        ),
        _ => behind_width(side, width, bytes),
    }
}

/// The conversion behind its width: an `l` or two, and the conversion's byte.
fn behind_width(side: Side, width: u16, bytes: &[u8]) -> Result<(Piece, &[u8]), End>
    ensures { MatchResult result (λ p. formats.behind_width (side_of side) width bytes.now ≡ Found (piece_of p.0) p.1.now) (λ e. formats.behind_width (side_of side) width bytes.now ≡ Ends (end_of e)) }
{
    match bytes {
        [] | [b'l'] => Err(End::Open),
        [b'l', b'l', rest @ ..] => behind_long(side, width, rest),
        [b'l', byte, rest @ ..] => found(side, width, what_of(true, *byte), rest),
        [byte, rest @ ..] => found(side, width, what_of(false, *byte), rest),
    }
}

fn behind_long(side: Side, width: u16, bytes: &[u8]) -> Result<(Piece, &[u8]), End>
    ensures { MatchResult result (λ p. formats.behind_long (side_of side) width bytes.now ≡ Found (piece_of p.0) p.1.now) (λ e. formats.behind_long (side_of side) width bytes.now ≡ Ends (end_of e)) }
{
    match bytes {
        [] => Err(End::Open),
        [byte, rest @ ..] => found(side, width, what_of(true, *byte), rest),
    }
}

fn found(side: Side, width: u16, what: Option<What>, rest: &[u8]) -> Result<(Piece, &[u8]), End>
    ensures { MatchResult result (λ p. formats.found (side_of side) width (option_map what_in what) rest.now ≡ Found (piece_of p.0) p.1.now) (λ e. formats.found (side_of side) width (option_map what_in what) rest.now ≡ Ends (end_of e)) }
{
    match what {
        Some(what) => Ok((Piece::Converts(Conversion { side, width, what }), rest)),
        None => Err(End::Bad),
    }
}

/// The conversion that a byte names, with or without an `l`.
fn what_of(long: bool, byte: u8) -> Option<What>
    ensures { option_map what_in result ≡ formats.what_of long byte }
{
    match byte {
        b'd' | b'i' => Some(What::Signed { long }),
        b'u' => Some(What::Unsigned { long }),
        b'x' => Some(What::Hexadecimal { long }),
        b'c' if !long => Some(What::Character),
        b's' if !long => Some(What::Text),
        _ => None,
    }
}
