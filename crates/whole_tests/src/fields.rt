//! `fields`: `decimal N` and `signed N` show digits; `put WIDTH N` bytes; `take WIDTH AT HH..` a number in them and the
//! place behind it; `bytes A B` and `lines A B ..` what bytes and lines become; `order A B` how two numbers stand.

use crate::lines::{
    i32_at, no_case, number_at, show_bytes, show_hexadecimal, u16_at, u32_at, word_at,
};
use am_base::{
    Bytes, Line, LineList, PacketNo, ProcId, RankId, decimal, put_u16, put_u32, put_u64,
    signed_decimal, take_u16, take_u32, take_u64,
};
use std::alloc::{AllocError, Global};

pub(crate) fn answer(alloc: Global, out: &mut String, line: &str) -> Result<(), AllocError> {
    match word_at(line, 0) {
        "decimal" => show_decimal(alloc, out, number_at(line, 1)),
        "signed" => show_signed(alloc, out, i32_at(line, 1)),
        "put" => show_put(alloc, out, line),
        "take" => show_taken(alloc, out, line),
        "bytes" => show_joined(alloc, out, line),
        "lines" => show_lines(alloc, out, line),
        "order" => show_order(out, line),
        _ => no_case(out),
    }
}

fn show_decimal(alloc: Global, out: &mut String, number: Option<u64>) -> Result<(), AllocError> {
    let Some(number) = number else {
        return no_case(out);
    };
    let mut digits = Bytes::new(alloc);
    decimal(&mut digits, number)?;
    show_bytes(out, digits.as_slice())
}

fn show_signed(alloc: Global, out: &mut String, number: Option<i32>) -> Result<(), AllocError> {
    let Some(number) = number else {
        return no_case(out);
    };
    let mut digits = Bytes::new(alloc);
    signed_decimal(&mut digits, number)?;
    show_bytes(out, digits.as_slice())
}

fn show_put(alloc: Global, out: &mut String, line: &str) -> Result<(), AllocError> {
    let mut bytes = Bytes::new(alloc);
    match (word_at(line, 1), number_at(line, 2)) {
        ("2", Some(_)) => put_u16(&mut bytes, u16_at(line, 2).unwrap_or(0))?,
        ("4", Some(_)) => put_u32(&mut bytes, u32_at(line, 2).unwrap_or(0))?,
        ("8", Some(number)) => put_u64(&mut bytes, number)?,
        _ => return no_case(out),
    }
    show_hexadecimal(out, bytes.as_slice())
}

fn show_taken(alloc: Global, out: &mut String, line: &str) -> Result<(), AllocError> {
    let Some(at) = number_at(line, 2) else {
        return no_case(out);
    };
    let at = at as usize;
    let bytes = bytes_of(alloc, line)?;
    let taken = match word_at(line, 1) {
        "2" => take_u16(bytes.as_slice(), at).map(|(number, next)| (u64::from(number), next)),
        "4" => take_u32(bytes.as_slice(), at).map(|(number, next)| (u64::from(number), next)),
        "8" => take_u64(bytes.as_slice(), at),
        _ => return no_case(out),
    };
    match taken {
        Some((number, next)) => write!(out, "{number}, then {next}"),
        None => out.push_str("none"),
    }
}

/// The bytes that stand as hexadecimal numbers behind the third word.
fn bytes_of(alloc: Global, line: &str) -> Result<Bytes, AllocError> {
    let mut bytes = Vec::new(alloc);
    for word in line.split(' ').skip(3) {
        bytes.push(u8::from_str_radix(word, 16).unwrap_or(0))?;
    }
    Ok(Bytes::from_vec(bytes))
}

/// The first text with the second and a full stop behind it, and what is left of them.
fn show_joined(alloc: Global, out: &mut String, line: &str) -> Result<(), AllocError> {
    let mut bytes = Bytes::from_slice(alloc, word_at(line, 1).as_bytes())?;
    bytes.append(word_at(line, 2).as_bytes())?;
    bytes.push(b'.')?;
    show_bytes(out, bytes.as_slice())?;
    write!(out, " has {} bytes", bytes.len())?;
    bytes.clear();
    if bytes.is_empty() {
        out.push_str(", then none")?;
    }
    let rest = bytes.into_vec();
    write!(out, ", {} in all", rest.len())
}

/// The words as numbered lines.
fn show_lines(alloc: Global, out: &mut String, line: &str) -> Result<(), AllocError> {
    let mut list = LineList::new(alloc);
    if list.is_empty() {
        out.push_str("none, then")?;
    }
    for (place, word) in line.split(' ').skip(1).take(99).enumerate() {
        let text = Bytes::from_slice(alloc, word.as_bytes())?;
        list.push(Line {
            number: place as u32,
            text,
        })?;
    }
    let list = LineList::from_vec(list.into_vec());
    write!(out, " {}:", list.len())?;
    for line in list.as_slice() {
        write!(out, " {} ", line.number)?;
        show_bytes(out, line.text.as_slice())?;
    }
    Ok(())
}

/// How two numbers stand, as those of ranks, processors and packets.
fn show_order(out: &mut String, line: &str) -> Result<(), AllocError> {
    let (Some(a), Some(b)) = (u16_at(line, 1), u16_at(line, 2)) else {
        return no_case(out);
    };
    let (p, q) = (ProcId((a % 256) as u8), ProcId((b % 256) as u8));
    let (m, n) = (PacketNo(u64::from(a)), PacketNo(u64::from(b)));
    let below = RankId(a) < RankId(b);
    write!(
        out,
        "rank below: {below}, one processor: {}, packet at most: {}",
        p == q,
        m <= n
    )
}
