//! The rules that a source may break.

ghost use Rattle.std.specs.Prelude.{◌≡◌};
ghost use Rattle.c_typing.specs.Rules.{number_of};
ghost use Rattle.c_typing.specs.declared.rules.TypeError.TheVariants.{Memory};

use std::alloc::AllocError;
use thiserror::Error;

/// The rules on types, names and statements, in the order of their numbers. Their texts are those of the answers.
#[derive(Clone, Copy, Debug, PartialEq, Eq)]
pub enum Rule {
    /// 1: name not declared (C11, 6.5.1)
    NotDeclared,
    /// 2: name declared twice (C11, 6.7p3)
    DeclaredTwice,
    /// 3: incomplete type (C11, 6.2.5)
    Incomplete,
    /// 4: no such member (C11, 6.5.2.3)
    NoSuchMember,
    /// 5: not an assignable place (C11, 6.3.2.1)
    NotAssignable,
    /// 6: place is const (C11, 6.3.2.1 and 6.7.3)
    ConstPlace,
    /// 7: operand is no whole number
    NotWhole,
    /// 8: operand is no number or pointer
    NotScalar,
    /// 9: pointer types differ
    PointersDiffer,
    /// 10: pointer and number mixed
    PointerAndNumber,
    /// 11: not a pointer
    NotPointer,
    /// 12: not a function
    NotFunction,
    /// 13: wrong number of arguments (C11, 6.5.2.2)
    WrongCount,
    /// 14: declared with another type (C11, 6.7p4)
    DeclaredDifferently,
    /// 15: return value missing (C11, 6.8.6.4)
    ValueMissing,
    /// 16: return value not wanted (C11, 6.8.6.4)
    ValueNotWanted,
    /// 17: void value used (C11, 6.3.2.2)
    VoidUsed,
    /// 18: break outside a loop or switch (C11, 6.8.6.3)
    BreakOutside,
    /// 19: continue outside a loop (C11, 6.8.6.2)
    ContinueOutside,
    /// 20: case outside a switch (C11, 6.8.1)
    CaseOutside,
    /// 21: case value repeated (C11, 6.8.4.2)
    CaseRepeated,
    /// 22: second default (C11, 6.8.4.2)
    SecondDefault,
    /// 23: bad array size (C11, 6.7.6.2)
    BadArraySize,
    /// 24: too many initialisers (C11, 6.7.9)
    TooManyInitialisers,
    /// 25: initialiser does not fit (C11, 6.7.9)
    InitialiserUnfit,
    /// 26: struct value used, which is this profile's own
    StructUsed,
    /// 27: type not allowed for a parameter or result, which is this profile's own
    BadParameterOrResult,
    /// 28: bad type of main (C11, 5.1.2.2.1)
    BadMain,
    /// 29: static and extern disagree (C11, 6.2.2)
    LinkagesDisagree,
    /// 30: object too large, which is this profile's own
    TooLarge,
    /// 31: not a constant (C11, 6.6)
    NotConstant,
}

impl Rule {
    /// Of two broken rules at one place, the one with the lesser number is told.
    pub fn number(self) -> u8
        ensures { result ≡ number_of self }
    {
        match self {
            Rule::NotDeclared => 1,
            Rule::DeclaredTwice => 2,
            Rule::Incomplete => 3,
            Rule::NoSuchMember => 4,
            Rule::NotAssignable => 5,
            Rule::ConstPlace => 6,
            Rule::NotWhole => 7,
            Rule::NotScalar => 8,
            Rule::PointersDiffer => 9,
            Rule::PointerAndNumber => 10,
            Rule::NotPointer => 11,
            Rule::NotFunction => 12,
            Rule::WrongCount => 13,
            Rule::DeclaredDifferently => 14,
            Rule::ValueMissing => 15,
            Rule::ValueNotWanted => 16,
            Rule::VoidUsed => 17,
            Rule::BreakOutside => 18,
            Rule::ContinueOutside => 19,
            Rule::CaseOutside => 20,
            Rule::CaseRepeated => 21,
            Rule::SecondDefault => 22,
            Rule::BadArraySize => 23,
            Rule::TooManyInitialisers => 24,
            Rule::InitialiserUnfit => 25,
            Rule::StructUsed => 26,
            Rule::BadParameterOrResult => 27,
            Rule::BadMain => 28,
            Rule::LinkagesDisagree => 29,
            Rule::TooLarge => 30,
            Rule::NotConstant => 31,
        }
    }
}

/// Why a construct has no type.
#[derive(Clone, Copy, Debug, PartialEq, Eq, Error)]
pub enum TypeError {
    /// It breaks this rule, and none with a lesser number.
    #[error("a rule is broken")]
    Broken(Rule),
    #[error("out of memory")]
    Memory,
}

impl From<AllocError> for TypeError {
    ghost from_gives = { λ _ e. e ≡ Memory };

    fn from(_e: AllocError) -> TypeError {
        TypeError::Memory
    }
}
