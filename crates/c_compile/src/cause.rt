//! Why files are refused.

ghost use Rattle.std.specs.Prelude.{◌≡◌, ◌+◌};
ghost use Rattle.c_compile.specs.Causes.{cause_number, cause_text, rule_text};

use c_typing::Rule;

/// Why files are refused, in the order in which causes are looked for.
#[derive(Clone, Copy, Debug, PartialEq, Eq)]
pub enum Cause {
    BadByte,
    FloatLiteral,
    OutWord,
    TooWide,
    Unclosed,
    Directive,
    TooMany,
    Unexpected,
    TooNested,
    /// A rule on types, names or statements is broken.
    Rule(Rule),
    TooLarge,
    Undefined,
    Twice,
    TooComplex,
    /// No code is made for programs of this kind.
    NotBuilt,
}

impl Cause {
    pub fn number(self) -> u16
        ensures { result ≡ cause_number self }
    {
        match self {
            Cause::BadByte => 1,
            Cause::FloatLiteral => 2,
            Cause::OutWord => 3,
            Cause::TooWide => 4,
            Cause::Unclosed => 5,
            Cause::Directive => 6,
            Cause::TooMany => 7,
            Cause::Unexpected => 20,
            Cause::TooNested => 21,
            Cause::Rule(rule) => rule_cause(rule.number()),
            Cause::TooLarge => 90,
            Cause::Undefined => 91,
            Cause::Twice => 92,
            Cause::TooComplex => 95,
            Cause::NotBuilt => 99,
        }
    }

    /// The text by which a refusal tells the cause.
    pub fn text(self) -> &'static [u8]
        ensures { result.now ≡ cause_text self }
    {
        match self {
            Cause::BadByte => b"bad byte",
            Cause::FloatLiteral => b"floating point",
            Cause::OutWord => b"word outside this profile",
            Cause::TooWide => b"number wider than 64 bits",
            Cause::Unclosed => b"unclosed",
            Cause::Directive => b"directive",
            Cause::TooMany => b"too many tokens",
            Cause::Unexpected => b"unexpected token or end",
            Cause::TooNested => b"nested too deeply",
            Cause::Rule(rule) => rule_text(rule),
            Cause::TooLarge => b"globals too large",
            Cause::Undefined => b"name used but not defined",
            Cause::Twice => b"name defined twice",
            Cause::TooComplex => b"more than 32 pending values",
            Cause::NotBuilt => b"source form not built",
        }
    }
}

/// The number of the cause that a rule of this number is.
fn rule_cause(rule: u8) -> u16
    ensures { result ≡ 40 + rule }
{
    40 + u16::from(rule)
}

fn rule_text(rule: Rule) -> &'static [u8]
    ensures { result.now ≡ rule_text rule }
{
    match rule {
        Rule::NotDeclared => b"name not declared",
        Rule::DeclaredTwice => b"name declared twice",
        Rule::Incomplete => b"incomplete type",
        Rule::NoSuchMember => b"no such member",
        Rule::NotAssignable => b"not an assignable place",
        Rule::ConstPlace => b"place is const",
        Rule::NotWhole => b"operand is no whole number",
        Rule::NotScalar => b"operand is no number or pointer",
        Rule::PointersDiffer => b"pointer types differ",
        Rule::PointerAndNumber => b"pointer and number mixed",
        Rule::NotPointer => b"not a pointer",
        Rule::NotFunction => b"not a function",
        Rule::WrongCount => b"wrong number of arguments",
        Rule::DeclaredDifferently => b"declared with another type",
        Rule::ValueMissing => b"return value missing",
        Rule::ValueNotWanted => b"return value not wanted",
        Rule::VoidUsed => b"void value used",
        Rule::BreakOutside => b"break outside a loop or switch",
        Rule::ContinueOutside => b"continue outside a loop",
        Rule::CaseOutside => b"case outside a switch",
        Rule::CaseRepeated => b"case value repeated",
        Rule::SecondDefault => b"second default",
        Rule::BadArraySize => b"bad array size",
        Rule::TooManyInitialisers => b"too many initialisers",
        Rule::InitialiserUnfit => b"initialiser does not fit",
        Rule::StructUsed => b"struct value used",
        Rule::BadParameterOrResult => b"type not allowed for a parameter or result",
        Rule::BadMain => b"bad type of main",
        Rule::LinkagesDisagree => b"static and extern disagree",
        Rule::TooLarge => b"object too large",
        Rule::NotConstant => b"not a constant",
    }
}
