//! A made source's tokens are read as a tree.
ghost use Rattle.std.specs.Prelude.{◌<◌, ◌^◌, length};

use crate::failed::Failed;
use crate::lexing::failed_by;
use c_lex::{Token, lex};
use c_parser::{ParseError, parse};
use std::alloc::{AllocError, Global};

/// What a source is made of.
#[derive(Clone, Copy)]
pub enum Shape {
    /// Statements of 20 tokens in one function.
    Flat,
    /// Statements in one function, each a name in 62 parentheses, so 126 tokens.
    Deep,
    /// Declarations of 10 tokens, by the name of a type, each of two new names.
    Names,
}

impl Shape {
    pub(crate) fn of(kind: &str) -> Option<Shape> {
        match kind {
            "flat" => Some(Shape::Flat),
            "deep" => Some(Shape::Deep),
            "names" => Some(Shape::Names),
            _ => None,
        }
    }
}

/// How deep parentheses may stand in a statement of a function.
const DEPTH: u32 = 62;

/// How many functions and declarations are read in so many turns, from a source of so many parts.
pub(crate) fn externals_in(
    alloc: Global,
    shape: Shape,
    parts: u32,
    turns: u32,
) -> Result<u64, Failed> {
    let tokens = tokens_of(alloc, shape, parts)?;
    if tokens.len() >= 1 << 32 {
        return Err(Failed::Words);
    }
    let mut count = 0u64;
    for _turn in 0..turns {
        count = count.saturating_add(externals_of(alloc, &tokens)?);
    }
    Ok(count)
}

fn externals_of(alloc: Global, tokens: &[Token]) -> Result<u64, Failed>
    requires { length tokens.now < 2 ^ 32 }
{
    match parse(alloc, tokens) {
        Ok(unit) => {
            let count = unit.externals.len() as u64;
            drop(unit);
            Ok(count)
        }
        Err(ParseError::Memory) => Err(Failed::Memory),
        Err(_) => Err(Failed::Refused),
    }
}

/// The tokens of a source. One of 2^31 bytes or more isn't read.
fn tokens_of(alloc: Global, shape: Shape, parts: u32) -> Result<Vec<Token>, Failed> {
    let source = source_of(alloc, shape, parts)?;
    let bytes = source.as_str().as_bytes();
    if bytes.len() >= 1 << 31 {
        return Err(Failed::Words);
    }
    match lex(alloc, bytes) {
        Ok(tokens) => Ok(tokens),
        Err(error) => Err(failed_by(error)),
    }
}

fn source_of(alloc: Global, shape: Shape, parts: u32) -> Result<String, AllocError> {
    let mut source = String::new(alloc);
    source.push_str("typedef int word;\nint f() {\n")?;
    for part in 0..parts {
        append(&mut source, shape, part)?;
    }
    source.push_str("}\n")?;
    Ok(source)
}

fn append(source: &mut String, shape: Shape, part: u32) -> Result<(), AllocError> {
    match shape {
        Shape::Flat => source.push_str("if (x < 1) y[2] = f(x, 1) + 2;\n")?,
        Shape::Deep => {
            repeat(source, "(")?;
            source.push_str("x")?;
            repeat(source, ")")?;
            source.push_str(";\n")?;
        }
        Shape::Names => write!(source, "word x{part} = x{part} + 1, *y{part};\n")?,
    }
    Ok(())
}

fn repeat(source: &mut String, text: &str) -> Result<(), AllocError> {
    for _turn in 0..DEPTH {
        source.push_str(text)?;
    }
    Ok(())
}
