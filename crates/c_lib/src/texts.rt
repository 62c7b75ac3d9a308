//! Texts up to a zero, comparisons, and the number at the front of a text (C11, 7.22.1 and 7.24).

ghost use Rattle.std.specs.Prelude.{◌≡◌, ◌%◌, ◌^◌, if◌then◌else◌, nat_lt, pos, negsuc, option_map};
ghost use Rattle.std.specs.Option.{option_copied};
ghost use Rattle.rank_range.specs.Areas as areas;
ghost use Rattle.rank_range.specs.Kinds.{low_bits};
ghost use Rattle.rank_range.specs.Library as library;

/// The bytes before the first zero, if there is one.
pub fn before_zero(bytes: &[u8]) -> Option<&[u8]>
    ensures { option_copied result ≡ areas.before_zero bytes.now }
{
    for (n, byte) in bytes.iter().enumerate() {
        if *byte == 0 {
            return Some(&bytes[..n]);
        }
    }
    None
}

/// -1, 0 or 1, by the first bytes that differ, as unsigned numbers.
pub fn compared(xs: &[u8], ys: &[u8]) -> i64
    ensures { result ≡ library.compared xs.now ys.now }
{
    let mut left = xs;
    let mut right = ys;
    while let [x, more @ ..] = left {
        let [y, others @ ..] = right else {
            return 0;
        };
        if *x != *y {
            return order(*x, *y);
        }
        left = more;
        right = others;
    }
    0
}

/// -1, 0 or 1, by the first bytes of two texts that differ; none where one of them ends before that.
pub fn texts_compared(xs: &[u8], ys: &[u8]) -> Option<i64>
    ensures { result ≡ library.texts_compared xs.now ys.now }
{
    let mut left = xs;
    let mut right = ys;
    while let [x, more @ ..] = left {
        let [y, others @ ..] = right else {
            return None;
        };
        if *x != *y {
            return Some(order(*x, *y));
        }
        if *x == 0 {
            return Some(0);
        }
        left = more;
        right = others;
    }
    None
}

fn order(x: u8, y: u8) -> i64
    ensures { result ≡ (if nat_lt x y then negsuc 0 else pos 1) }
{
    if x < y { -1 } else { 1 }
}

/// The low 32 bits of the number that a text begins with, behind white space; none where the bytes end before a byte stands
/// behind the number.
pub fn atoi_bits(bytes: &[u8]) -> Option<u32>
    ensures { result ≡ option_map (low_bits 32) (library.atoi_value bytes.now) }
{
    let mut rest = bytes;
    while let [byte, more @ ..] = rest {
        if !is_space(*byte) {
            return number_bits(rest);
        }
        rest = more;
    }
    None
}

fn is_space(byte: u8) -> bool
    ensures { result ≡ library.is_space byte }
{
    (9 <= byte && byte <= 13) || byte == 32
}

/// The low 32 bits of the number that these bytes begin with, by a sign and digits.
fn number_bits(bytes: &[u8]) -> Option<u32>
    ensures { result ≡ option_map (low_bits 32) (library.behind_spaces bytes.now) }
{
    match bytes {
        [] => None,
        [b'-', digits @ ..] => match digits_bits(digits) {
            Some(bits) => Some(0u32.wrapping_sub(bits)),
            None => None,
        },
        [b'+', digits @ ..] => digits_bits(digits),
        _ => digits_bits(bytes),
    }
}

fn is_digit(byte: u8) -> bool
    ensures { result ≡ library.is_digit byte }
{
    b'0' <= byte && byte <= b'9'
}

/// The low 32 bits of the number that these digits spell; none where no other byte stands behind them.
fn digits_bits(bytes: &[u8]) -> Option<u32>
    ensures { result ≡ option_map (λ n. n % 2 ^ 32) (library.digits_value 0 bytes.now) }
{
    let mut bits = 0u32;
    let mut rest = bytes;
    while let [byte, more @ ..] = rest {
        if !is_digit(*byte) {
            return Some(bits);
        }
        bits = bits.wrapping_mul(10).wrapping_add((*byte - b'0') as u32);
        rest = more;
    }
    None
}
