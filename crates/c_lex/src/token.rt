//! Tokens.

use am_base::Bytes;

/// A word that C gives a meaning (C11, 6.4.1), of those that this profile has.
#[derive(Clone, Copy, Debug, PartialEq, Eq)]
pub enum Keyword {
    Auto,
    Break,
    Case,
    Char,
    Const,
    Continue,
    Default,
    Do,
    Else,
    Enum,
    Extern,
    For,
    If,
    Inline,
    Int,
    Long,
    Register,
    Restrict,
    Return,
    Short,
    Signed,
    Sizeof,
    Static,
    Struct,
    Switch,
    Typedef,
    Unsigned,
    Void,
    Volatile,
    While,
}

/// A punctuator (C11, 6.4.6), of those that this profile has.
#[derive(Clone, Copy, Debug, PartialEq, Eq)]
pub enum Mark {
    /// `(`
    OpenParen,
    /// `)`
    CloseParen,
    /// `[`
    OpenBracket,
    /// `]`
    CloseBracket,
    /// `{`
    OpenBrace,
    /// `}`
    CloseBrace,
    /// `;`
    Semicolon,
    /// `,`
    Comma,
    /// `:`
    Colon,
    /// `?`
    Question,
    /// `.`
    Dot,
    /// `->`
    Arrow,
    /// `=`
    Assign,
    /// `+=`
    PlusAssign,
    /// `-=`
    MinusAssign,
    /// `*=`
    StarAssign,
    /// `/=`
    SlashAssign,
    /// `%=`
    PercentAssign,
    /// `&=`
    AmpersandAssign,
    /// `^=`
    CaretAssign,
    /// `|=`
    BarAssign,
    /// `<<=`
    ShiftLeftAssign,
    /// `>>=`
    ShiftRightAssign,
    /// `||`
    OrOr,
    /// `&&`
    AndAnd,
    /// `|`
    Bar,
    /// `^`
    Caret,
    /// `&`
    Ampersand,
    /// `==`
    Equal,
    /// `!=`
    NotEqual,
    /// `<`
    Less,
    /// `>`
    Greater,
    /// `<=`
    AtMost,
    /// `>=`
    AtLeast,
    /// `<<`
    ShiftLeft,
    /// `>>`
    ShiftRight,
    /// `+`
    Plus,
    /// `-`
    Minus,
    /// `*`
    Star,
    /// `/`
    Slash,
    /// `%`
    Percent,
    /// `++`
    PlusPlus,
    /// `--`
    MinusMinus,
    /// `~`
    Tilde,
    /// `!`
    Bang,
}

/// The type of an integer constant (C11, 6.4.4.1); `long long` is `Long` (this profile's own).
#[derive(Clone, Copy, Debug, PartialEq, Eq)]
pub enum NumberType {
    Int,
    UnsignedInt,
    Long,
    UnsignedLong,
}

/// What a token is.
#[derive(Clone, Copy, Debug, PartialEq, Eq)]
pub enum TokenKind {
    Keyword(Keyword),
    Name,
    Number(NumberType),
    /// A character literal, of type int.
    Character,
    /// A string literal, joined with those next to it.
    Text,
    Mark(Mark),
}

/// The headers that a source may include.
#[derive(Clone, Copy, Debug, PartialEq, Eq)]
pub enum Header {
    /// `mpi.h`
    Mpi,
    /// `stdio.h`
    Stdio,
    /// `stdlib.h`
    Stdlib,
    /// `string.h`
    Strings,
}

/// Which headers have been included before a place: their names are known from there on.
#[derive(Clone, Copy, Debug, PartialEq, Eq)]
pub struct Headers {
    pub mpi: bool,
    pub stdio: bool,
    pub stdlib: bool,
    pub strings: bool,
}

/// A token of a source.
#[derive(Debug, Drop)]
pub struct Token {
    pub kind: TokenKind,
    /// From 1 on. A token that comes from a macro has the line of the macro's use.
    pub line: u32,
    /// A number's value. A character's value as an int, extended to 64 bits with its sign. Else 0.
    pub value: u64,
    /// A name's bytes. The bytes that a string stands for, without a zero at the end. Else none.
    pub text: Bytes,
    /// The headers included before the token.
    pub headers: Headers,
}
