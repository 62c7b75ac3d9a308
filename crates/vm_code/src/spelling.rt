//! The listing of code.
ghost use Rattle.std.specs.Prelude.{◌≡◌, ◌++◌, IfOk, OnOk};
ghost use Rattle.vm_code.specs.Listing.{six_digits, access_name, kind_name, binary_name, unary_name, behind_space, number_word, spelled, listing_line, listing_from};

use crate::{Code, Instr};
use am_base::{Bytes, decimal};
use itoa::Buffer;
use rank_range::{Binary, Kind, Unary};
use std::alloc::{AllocError, Global};

const ZEROS: [u8; 6] = *b"000000";

/// The listing of the code: a line for each instruction.
pub fn listing(alloc: Global, code: &Code) -> Result<Bytes, AllocError>
    ensures { IfOk result (λ text. text ≡ listing_from 0 code.now.instrs) }
{
    let mut out = Bytes::new(alloc);
    let mut number = 0u64;
    for instr in code.instrs.as_slice() {
        append_line(&mut out, number, *instr)?;
        number += 1;
    }
    Ok(out)
}

fn append_line(out: &mut Bytes, number: u64, instr: Instr) -> Result<(), AllocError>
    ensures { OnOk result (out.new ≡ out.old ++ listing_line number instr) }
{
    append_six_digits(out, number)?;
    out.append(b" ")?;
    append_instr(out, instr)?;
    out.append(b"\n")
}

/// Appends the number in six digits, or in as many as it has where these are more.
fn append_six_digits(out: &mut Bytes, number: u64) -> Result<(), AllocError>
    ensures { OnOk result (out.new ≡ out.old ++ six_digits number) }
{
    let mut buffer = Buffer::new();
    let digits = buffer.format(number).as_bytes();
    if digits.len() < ZEROS.len() {
        let zeros = &ZEROS[..];
        out.append(&zeros[digits.len()..])?;
    }
    out.append(digits)
}

fn append_instr(out: &mut Bytes, instr: Instr) -> Result<(), AllocError>
    ensures { OnOk result (out.new ≡ out.old ++ spelled instr) }
{
    match instr {
        Instr::Push(value) => append_number(out, b"push", value),
        Instr::Pop => out.append(b"pop"),
        Instr::Dup => out.append(b"dup"),
        Instr::Local(offset) => append_number(out, b"local", offset),
        Instr::Global(offset) => append_number(out, b"global", u64::from(offset)),
        Instr::Load(kind) => append_word(out, b"load", access_name(kind)),
        Instr::Store(kind) => append_word(out, b"store", access_name(kind)),
        Instr::Copy(count) => append_number(out, b"copy", count),
        Instr::Zero(count) => append_number(out, b"zero", count),
        Instr::Binary { op, kind } => append_word(out, binary_name(op), kind_name(kind)),
        Instr::Unary { op, kind } => append_word(out, unary_name(op), kind_name(kind)),
        Instr::Extend(kind) => append_word(out, b"ext", access_name(kind)),
        Instr::Jump(place) => append_number(out, b"jump", u64::from(place)),
        Instr::JumpIfZero(place) => append_number(out, b"jz", u64::from(place)),
        Instr::JumpIfNot(place) => append_number(out, b"jnz", u64::from(place)),
        Instr::Tick { unit, line } => {
            append_number(out, b"tick", u64::from(unit))?;
            append_number(out, b"", u64::from(line))
        }
        Instr::Call {
            function,
            arguments,
        } => {
            append_number(out, b"call", u64::from(function))?;
            append_number(out, b"", arguments)
        }
        Instr::Library { call, arguments } => {
            append_word(out, b"lib", call.name())?;
            append_number(out, b"", arguments)
        }
        Instr::Mpi {
            call,
            arguments,
            second: _,
        } => {
            append_word(out, b"mpi", call.name())?;
            append_number(out, b"", arguments)
        }
        Instr::Return => out.append(b"ret"),
    }
}

/// Appends a name, and a number behind a space.
fn append_number(out: &mut Bytes, name: &[u8], number: u64) -> Result<(), AllocError>
    ensures { OnOk result (out.new ≡ out.old ++ (name.now ++ number_word number)) }
{
    out.append(name)?;
    out.append(b" ")?;
    decimal(out, number)
}

/// Appends a name, and a word behind a space.
fn append_word(out: &mut Bytes, name: &[u8], word: &[u8]) -> Result<(), AllocError>
    ensures { OnOk result (out.new ≡ out.old ++ (name.now ++ behind_space word.now)) }
{
    out.append(name)?;
    out.append(b" ")?;
    out.append(word)
}

fn binary_name(op: Binary) -> &'static [u8]
    ensures { result.now ≡ binary_name op }
{
    match op {
        Binary::Add => b"add",
        Binary::Subtract => b"sub",
        Binary::Multiply => b"mul",
        Binary::Divide => b"div",
        Binary::Remainder => b"rem",
        Binary::And => b"and",
        Binary::Or => b"or",
        Binary::Xor => b"xor",
        Binary::ShiftLeft => b"shl",
        Binary::ShiftRight => b"shr",
        Binary::Equal => b"eq",
        Binary::NotEqual => b"ne",
        Binary::Less => b"lt",
        Binary::AtMost => b"le",
    }
}

fn unary_name(op: Unary) -> &'static [u8]
    ensures { result.now ≡ unary_name op }
{
    match op {
        Unary::Negate => b"neg",
        Unary::Complement => b"not",
    }
}

/// How a number lies in memory: its sign, and its bytes.
fn access_name(kind: Kind) -> &'static [u8]
    ensures { result.now ≡ access_name kind }
{
    match kind {
        Kind::Char => b"s1",
        Kind::UnsignedChar => b"u1",
        Kind::Short => b"s2",
        Kind::UnsignedShort => b"u2",
        Kind::Int => b"s4",
        Kind::Unsigned => b"u4",
        Kind::Long | Kind::UnsignedLong => b"w8",
    }
}

/// In which kind an operator works.
fn kind_name(kind: Kind) -> &'static [u8]
    ensures { result.now ≡ kind_name kind }
{
    match kind {
        Kind::Char => b"i1",
        Kind::UnsignedChar => b"u1",
        Kind::Short => b"i2",
        Kind::UnsignedShort => b"u2",
        Kind::Int => b"i4",
        Kind::Unsigned => b"u4",
        Kind::Long => b"i8",
        Kind::UnsignedLong => b"u8",
    }
}
