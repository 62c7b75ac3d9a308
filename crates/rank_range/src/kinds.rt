//! The whole types of C, and the words of 64 bits that their numbers are kept in.

ghost use Rattle.std.specs.Prelude.{◌≡◌};
ghost use Rattle.rank_range.specs.Kinds as kinds;
ghost use Rattle.rank_range.specs.Kinds.{is_signed, width_of, bits_of, AreWords, AreExtended};

use crate::Width;

/// A whole type (C11, 6.2.5). `long long` is as `long`, and an enumeration as `int`.
#[derive(Clone, Copy, Debug, PartialEq, Eq)]
pub enum Kind {
    /// `char`, which is signed here, and `signed char`
    Char,
    UnsignedChar,
    Short,
    UnsignedShort,
    Int,
    Unsigned,
    Long,
    UnsignedLong,
}

impl Kind {
    pub fn is_signed(self) -> bool
        ensures { result ≡ is_signed self }
    {
        match self {
            Kind::Char | Kind::Short | Kind::Int | Kind::Long => true,
            Kind::UnsignedChar | Kind::UnsignedShort | Kind::Unsigned | Kind::UnsignedLong => false,
        }
    }

    /// How many bytes a number of the kind has.
    pub fn width(self) -> Width
        ensures { result ≡ width_of self }
    {
        match self {
            Kind::Char | Kind::UnsignedChar => Width::One,
            Kind::Short | Kind::UnsignedShort => Width::Two,
            Kind::Int | Kind::Unsigned => Width::Four,
            Kind::Long | Kind::UnsignedLong => Width::Eight,
        }
    }

    /// How many bits a number of the kind has.
    pub fn bits(self) -> u64
        ensures { result ≡ bits_of self }
    {
        self.width().bytes() as u64 * 8
    }

    /// The kind after the integer promotions (C11, 6.3.1.1).
    pub fn promoted(self) -> Kind
        ensures { result ≡ kinds.promoted self }
    {
        match self {
            Kind::Char | Kind::UnsignedChar | Kind::Short | Kind::UnsignedShort => Kind::Int,
            Kind::Int | Kind::Unsigned | Kind::Long | Kind::UnsignedLong => self,
        }
    }
}

/// The kind in which an operator works whose operands have these kinds, after the usual arithmetic conversions (C11,
/// 6.3.1.8): of the two promoted kinds the one that stands behind in `int`, `unsigned`, `long`, `unsigned long`.
pub fn usual(a: Kind, b: Kind) -> Kind
    ensures { result ≡ kinds.usual a b }
{
    match (a.promoted(), b.promoted()) {
        (Kind::UnsignedLong, _) | (_, Kind::UnsignedLong) => Kind::UnsignedLong,
        (Kind::Long, _) | (_, Kind::Long) => Kind::Long,
        (Kind::Unsigned, _) | (_, Kind::Unsigned) => Kind::Unsigned,
        _ => Kind::Int,
    }
}

/// The word of the number of the kind that the lowest bits of `word` stand for: they are extended by the sign of a signed
/// kind, and else by zeros.
pub fn extended(kind: Kind, word: u64) -> u64
    ensures { result ≡ kinds.extended kind word }
{
    match kind {
        Kind::Char => (((word % 0x100) as u8).cast_signed() as i64).cast_unsigned(),
        Kind::UnsignedChar => word % 0x100,
        Kind::Short => (((word % 0x1_0000) as u16).cast_signed() as i64).cast_unsigned(),
        Kind::UnsignedShort => word % 0x1_0000,
        Kind::Int => (((word % 0x1_0000_0000) as u32).cast_signed() as i64).cast_unsigned(),
        Kind::Unsigned => word % 0x1_0000_0000,
        Kind::Long | Kind::UnsignedLong => word,
    }
}

/// The word of a value of the kind `from` as one of the kind `to` (C11, 6.3.1.3). A number that doesn't fit loses its
/// high bits.
pub fn convert(word: u64, from: Kind, to: Kind) -> u64
    ensures { result ≡ kinds.convert word from to }
{
    extended(to, extended(from, word))
}

/// Laws: a word that was extended is that of a number of the kind, and so a value is converted by extending its word.
pub fn words_are_extended()
    ensures words { AreWords }
    ensures converted { AreExtended }
{}
