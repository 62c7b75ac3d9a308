//! Values of constant expressions, as gcc computes them on x86-64 Linux.

use am_base::Bytes;
use c_ast::{BinaryOp, Expr, External, Init, NumberType, PrefixOp, Unit};
use c_const::{
    ConstError, Evaluated, Number, Told, binary, cast, conditional, constant, evaluate,
    first_token, number_kind, of_kind, prefix,
};
use c_lex::{LexError, lex};
use c_parser::{ParseError, parse};
use c_types::{Named, Names, Scope};
use indexmap::IndexMap;
use rank_range::Kind;
use sqlite_items::Items;
use std::alloc::{AllocError, Global};
use std::test::Fail;

/// Expressions, and what kind and word gcc gives them. `RED` is an enumerator of value 3, `BLUE` one of -7.
const VALUES: [(&str, Kind, u64); 49] = [
    ("1 + 2 * 3", Kind::Int, 7),
    ("7 / -2", Kind::Int, 18_446_744_073_709_551_613),
    ("7 % -2", Kind::Int, 1),
    ("-7 / 2", Kind::Int, 18_446_744_073_709_551_613),
    ("-7 % 2", Kind::Int, 18_446_744_073_709_551_615),
    ("2147483648", Kind::Long, 2_147_483_648),
    ("0x80000000", Kind::Unsigned, 2_147_483_648),
    ("4294967296u", Kind::UnsignedLong, 4_294_967_296),
    ("-2147483648", Kind::Long, 18_446_744_071_562_067_968),
    ("1 - 2u", Kind::Unsigned, 4_294_967_295),
    ("1 - 2ul", Kind::UnsignedLong, 18_446_744_073_709_551_615),
    ("1l * 2u", Kind::Long, 2),
    ("-1 < 0u", Kind::Int, 0),
    ("-1l < 0u", Kind::Int, 1),
    ("-1 < 0ul", Kind::Int, 0),
    ("1u << 31", Kind::Unsigned, 2_147_483_648),
    ("-8 >> 1", Kind::Int, 18_446_744_073_709_551_612),
    ("0xfffffff8u >> 1", Kind::Unsigned, 2_147_483_644),
    ("1l << 40", Kind::Long, 1_099_511_627_776),
    ("1 << 3ul", Kind::Int, 8),
    ("'a' + 1", Kind::Int, 98),
    ("'\\377'", Kind::Int, 18_446_744_073_709_551_615),
    ("+'b'", Kind::Int, 98),
    ("~0", Kind::Int, 18_446_744_073_709_551_615),
    ("~0u", Kind::Unsigned, 4_294_967_295),
    ("!5", Kind::Int, 0),
    ("!0", Kind::Int, 1),
    ("1 || 1 / 0", Kind::Int, 1),
    ("0 && 1 / 0", Kind::Int, 0),
    ("1 ? 2 : 1 / 0", Kind::Int, 2),
    ("0 ? 1 / 0 : 2", Kind::Int, 2),
    ("1 ? -1 : 0u", Kind::Unsigned, 4_294_967_295),
    ("0 ? 1l : 'a'", Kind::Long, 97),
    ("2 && 3", Kind::Int, 1),
    ("0 || 4", Kind::Int, 1),
    ("0 || 0", Kind::Int, 0),
    ("5 > 4 > 3", Kind::Int, 0),
    ("3 >= 3", Kind::Int, 1),
    ("3 <= 2", Kind::Int, 0),
    ("3 == 3l", Kind::Int, 1),
    ("3 != 3", Kind::Int, 0),
    ("0xf0 & 0x3c | 1 ^ 7", Kind::Int, 54),
    ("2 - (1 - 3)", Kind::Int, 4),
    ("10 - 4 - 3", Kind::Int, 3),
    ("100 / 7 / 2", Kind::Int, 7),
    ("0u - 1 > 0", Kind::Int, 1),
    ("RED + BLUE", Kind::Int, 18_446_744_073_709_551_612),
    ("RED << 2", Kind::Int, 12),
    ("BLUE < RED", Kind::Int, 1),
];

/// The same, with what is told of the token of this number: the type of a cast, or the bytes of a `sizeof`.
const TOLD_VALUES: [(&str, u32, Told, Kind, u64); 9] = [
    ("(char)300", 3, Told::Whole(Kind::Char), Kind::Char, 44),
    (
        "(unsigned char)-1",
        3,
        Told::Whole(Kind::UnsignedChar),
        Kind::UnsignedChar,
        255,
    ),
    (
        "(short)40000",
        3,
        Told::Whole(Kind::Short),
        Kind::Short,
        18_446_744_073_709_526_080,
    ),
    (
        "(unsigned short)65537 + 0",
        3,
        Told::Whole(Kind::UnsignedShort),
        Kind::Int,
        1,
    ),
    (
        "(int)4294967295u",
        3,
        Told::Whole(Kind::Int),
        Kind::Int,
        18_446_744_073_709_551_615,
    ),
    (
        "(unsigned long)-1",
        3,
        Told::Whole(Kind::UnsignedLong),
        Kind::UnsignedLong,
        18_446_744_073_709_551_615,
    ),
    (
        "(long)4294967295u",
        3,
        Told::Whole(Kind::Long),
        Kind::Long,
        4_294_967_295,
    ),
    (
        "sizeof(int) - 5",
        3,
        Told::Size(4),
        Kind::UnsignedLong,
        18_446_744_073_709_551_615,
    ),
    (
        "-(unsigned char)200",
        4,
        Told::Whole(Kind::UnsignedChar),
        Kind::Int,
        18_446_744_073_709_551_416,
    ),
];

/// Expressions that have no constant value.
const REFUSED: [&str; 17] = [
    "1 / 0",
    "1 % 0",
    "(-2147483647 - 1) / -1",
    "1 << 32",
    "1 >> -1",
    "1 || f()",
    "0 && f()",
    "0 && x",
    "1 ? 2 : y",
    "0 ? 2 : 1 / 0",
    "(1, 2)",
    "1 + (RED = 2)",
    "RED++",
    "*0",
    "\"a\"[0]",
    "(char *)0",
    "sizeof(int)",
];

/// The names of the enumerators in scope, and of an object.
fn names(alloc: Global) -> Result<Names, AllocError> {
    let mut ordinary = Scope::new(alloc);
    for (name, value) in [("RED", 3), ("BLUE", 18_446_744_073_709_551_609)] {
        let name = Bytes::from_slice(alloc, name.as_bytes())?;
        ordinary.declare(
            name,
            Named::Constant {
                kind: Kind::Int,
                value,
            },
        )?;
    }
    Ok(Names {
        ordinary,
        tags: Scope::new(alloc),
        structs: Items::new(alloc),
    })
}

/// The unit of `int x = EXPRESSION;`, if it is one.
fn unit_of(alloc: Global, expression: &str) -> Result<Option<Unit>, AllocError> {
    let mut text = Bytes::from_slice(alloc, b"int x = ")?;
    text.append(expression.as_bytes())?;
    text.append(b";")?;
    if text.len() >= 1 << 31 {
        return Ok(None);
    }
    let tokens = match lex(alloc, text.as_slice()) {
        Ok(tokens) => tokens,
        Err(LexError::Memory) => return Err(AllocError),
        Err(_) => return Ok(None),
    };
    if tokens.len() >= 1 << 32 {
        return Ok(None);
    }
    match parse(alloc, tokens.as_slice()) {
        Ok(unit) => Ok(Some(unit)),
        Err(ParseError::Memory) => Err(AllocError),
        Err(_) => Ok(None),
    }
}

/// The expression with which the unit's first object begins.
fn expression_of(unit: &Unit) -> Option<&Expr> {
    let Some(External::Declaration(declaration)) = unit.externals.get(0) else {
        return None;
    };
    let declared = declaration.declared.get(0)?;
    match &declared.init {
        Some(Init::Value(expression)) => Some(expression),
        _ => None,
    }
}

/// Whether this is the answer for the expression, where this is told.
fn answers(
    alloc: Global,
    text: &str,
    told: Option<(u32, Told)>,
    want: Result<Number, ConstError>,
) -> Result<bool, AllocError> {
    let env = names(alloc)?;
    let mut types = IndexMap::new(alloc);
    if let Some((token, told)) = told {
        types.insert(token, told)?;
    }
    let Some(unit) = unit_of(alloc, text)? else {
        return Ok(false);
    };
    let is_right = match expression_of(&unit) {
        Some(expression) => first_token(expression) == 3
            && constant(expression, &env, &types) == want
            && is_evaluated(evaluate(expression, &env, &types), want),
        None => false,
    };
    drop(unit);
    Ok(is_right)
}

/// Whether what an expression has goes with the answer.
fn is_evaluated(value: Option<Evaluated>, want: Result<Number, ConstError>) -> bool {
    let word = match value {
        Some(value) => value.word,
        None => None,
    };
    match want {
        Ok(number) => word == Some(number.word),
        Err(ConstError::NotConstant { .. }) => word.is_none(),
        Err(ConstError::Memory) => false,
    }
}

/// What the operators give by themselves on -1 as an `unsigned char`: `(c + 1ul) ? c : 2u`.
fn chosen_alone() -> Option<Evaluated> {
    let minus = prefix(
        PrefixOp::Minus,
        Some(of_kind(number_kind(NumberType::Int), 1)),
    );
    let byte = cast(Kind::UnsignedChar, minus);
    let one = of_kind(number_kind(NumberType::UnsignedLong), 1);
    let sum = binary(BinaryOp::Add, byte, Some(one));
    conditional(sum, byte, Some(of_kind(Kind::Unsigned, 2)))
}

#[test]
fn constants_have_their_values(rt: HostRuntime) -> Result<(), Fail> {
    assert!(rt; chosen_alone() == Some(of_kind(Kind::Unsigned, 255)));
    for (text, kind, word) in VALUES {
        assert!(rt;
            answers(rt.alloc(), text, None, Ok(Number { kind, word }))?,
            "{text}"
        );
    }
    for (text, token, told, kind, word) in TOLD_VALUES {
        let told = Some((token, told));
        assert!(rt;
            answers(rt.alloc(), text, told, Ok(Number { kind, word }))?,
            "{text}"
        );
    }
    for text in REFUSED {
        let want = Err(ConstError::NotConstant { token: 3 });
        assert!(rt; answers(rt.alloc(), text, None, want)?, "{text}");
    }
    Ok(())
}
