//! The words of a type (C11, 6.7.2).

ghost use Rattle.std.specs.Prelude.{◌≡◌};
ghost use Rattle.c_judge.specs.Words as words;

use c_ast::TypeWord;
use c_types::Base;
use rank_range::Kind;

/// Which words stand among specifiers. `int` and `signed` make no difference.
#[derive(Clone, Copy, Debug, PartialEq, Eq)]
pub struct TypeWords {
    pub is_void: bool,
    pub is_char: bool,
    pub is_short: bool,
    pub is_long: bool,
    pub is_unsigned: bool,
}

impl TypeWords {
    pub fn none() -> TypeWords
        ensures { result ≡ words.no_words }
    {
        TypeWords {
            is_void: false,
            is_char: false,
            is_short: false,
            is_long: false,
            is_unsigned: false,
        }
    }

    /// One more word.
    pub fn with(self, word: TypeWord) -> TypeWords
        ensures { result ≡ words.with_word word self }
    {
        let mut words = self;
        match word {
            TypeWord::Void => words.is_void = true,
            TypeWord::Char => words.is_char = true,
            TypeWord::Short => words.is_short = true,
            TypeWord::Long => words.is_long = true,
            TypeWord::Unsigned => words.is_unsigned = true,
            TypeWord::Int | TypeWord::Signed => {}
        }
        words
    }

    /// The type that the words are.
    pub fn base(self) -> Base
        ensures { result ≡ words.base_of self }
    {
        if self.is_void {
            return Base::Void;
        }
        Base::Whole(self.kind())
    }

    fn kind(self) -> Kind
        ensures { result ≡ words.kind_of self }
    {
        let (signed, unsigned) = if self.is_char {
            (Kind::Char, Kind::UnsignedChar)
        } else if self.is_short {
            (Kind::Short, Kind::UnsignedShort)
        } else if self.is_long {
            (Kind::Long, Kind::UnsignedLong)
        } else {
            (Kind::Int, Kind::Unsigned)
        };
        if self.is_unsigned { unsigned } else { signed }
    }
}
