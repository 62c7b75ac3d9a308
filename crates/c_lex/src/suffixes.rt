//! The suffixes and types of numbers.

ghost use Rattle.std.specs.Prelude.{◌≡◌, ◌≤◌, length};
ghost use Rattle.c_lex.specs.NumberVerdicts.{long_len, unsigned_len, suffix_at};

/// The suffix of a number: how many bytes it has, whether it has a `u`, and whether it has an `l` or two.
#[derive(Clone, Copy, Debug, PartialEq, Eq)]
pub struct Suffix {
    pub len: usize,
    pub unsigned: bool,
    pub long: bool,
}

/// How many bytes of `l`, `L`, `ll` or `LL` the text begins with.
#[tactic(auto, unfolding(crate::specs::NumberVerdicts::long_len))]
fn long_len(text: &[u8]) -> usize
    ensures value { result ≡ long_len text.now }
    ensures few { result ≤ 2 }
    ensures inside { result ≤ length text.now }
{
    match text {
        [b'l', b'l', ..] | [b'L', b'L', ..] => 2,
        [b'l' | b'L', ..] => 1,
        _ => 0,
    }
}

/// How many bytes of `u` or `U` the text begins with, one at most.
#[tactic(auto, unfolding(crate::specs::NumberVerdicts::unsigned_len))]
fn unsigned_len(text: &[u8]) -> usize
    ensures value { result ≡ unsigned_len text.now }
    ensures few { result ≤ 1 }
    ensures inside { result ≤ length text.now }
{
    match text {
        [b'u' | b'U', ..] => 1,
        _ => 0,
    }
}

/// The longest suffix that the text begins with.
#[tactic(auto, unfolding(crate::specs::NumberVerdicts::suffix_at))]
pub fn suffix_at(text: &[u8]) -> Suffix
    ensures value { result ≡ suffix_at text.now }
    ensures inside { result.len ≤ length text.now }
{
    if unsigned_len(text) == 1 {
        let long = long_len(&text[1..]);
        return Suffix {
            len: 1 + long,
            unsigned: true,
            long: long != 0,
        };
    }
    let long = long_len(text);
    if long == 0 {
        return Suffix {
            len: 0,
            unsigned: false,
            long: false,
        };
    }
    let unsigned = unsigned_len(&text[long..]);
    Suffix {
        len: long + unsigned,
        unsigned: unsigned == 1,
        long: true,
    }
}
