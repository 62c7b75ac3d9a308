//! `names`: what a header declares by a name (`mpi NAME`, `stdio NAME`, `stdlib NAME`, `string NAME`), the causes of traps
//! (`trap N`), and a line as it is released (`released R TEXT`).

use crate::lines::{behind_first, no_case, show_bytes, u8_at, u16_at, word_at};
use am_base::{
    Bytes, Header, HeaderItem, HeaderType, RankId, TrapCause, append_released, header_item,
};
use std::alloc::{AllocError, Global};

pub(crate) fn answer(alloc: Global, out: &mut String, line: &str) -> Result<(), AllocError> {
    match word_at(line, 0) {
        "mpi" => show_item(out, Header::Mpi, word_at(line, 1)),
        "stdio" => show_item(out, Header::Stdio, word_at(line, 1)),
        "stdlib" => show_item(out, Header::Stdlib, word_at(line, 1)),
        "string" => show_item(out, Header::Strings, word_at(line, 1)),
        "trap" => show_trap(out, u8_at(line, 1)),
        "released" => show_released(alloc, out, line),
        _ => no_case(out),
    }
}

fn show_item(out: &mut String, header: Header, name: &str) -> Result<(), AllocError> {
    match header_item(header, name.as_bytes()) {
        Some(HeaderItem::TypeName(named)) => write!(out, "type {}", spelled(named)),
        Some(HeaderItem::Constant(value)) => write!(out, "{value}"),
        Some(HeaderItem::NullPointer(pointer)) => write!(out, "null {}", spelled(pointer)),
        Some(HeaderItem::Library(call)) => {
            show_call(out, call.result(), call.name(), call.parameters())
        }
        Some(HeaderItem::Mpi(call)) => {
            show_call(out, HeaderType::Int, call.name(), call.parameters())
        }
        None => out.push_str("none"),
    }
}

/// A declaration in C.
fn show_call(
    out: &mut String,
    answered: HeaderType,
    name: &[u8],
    parameters: &[HeaderType],
) -> Result<(), AllocError> {
    write!(out, "{} ", spelled(answered))?;
    show_bytes(out, name)?;
    out.push_str("(")?;
    for (at, parameter) in parameters.iter().enumerate() {
        if at > 0 {
            out.push_str(", ")?;
        }
        out.push_str(spelled(*parameter))?;
    }
    out.push_str(")")
}

fn spelled(named: HeaderType) -> &'static str {
    match named {
        HeaderType::Void => "void",
        HeaderType::Int => "int",
        HeaderType::UnsignedLong => "unsigned long",
        HeaderType::VoidPointer => "void *",
        HeaderType::ConstVoidPointer => "const void *",
        HeaderType::CharPointer => "char *",
        HeaderType::ConstCharPointer => "const char *",
        HeaderType::IntPointer => "int *",
        HeaderType::ArgumentsPointer => "char ***",
        HeaderType::Status => "MPI_Status",
        HeaderType::StatusPointer => "MPI_Status *",
        HeaderType::ConstStatusPointer => "const MPI_Status *",
    }
}

fn show_trap(out: &mut String, number: Option<u8>) -> Result<(), AllocError> {
    match TrapCause::of_number(number.unwrap_or(0)) {
        Some(cause) => {
            show_bytes(out, cause.text())?;
            write!(out, ", number {}", cause.number())
        }
        None => out.push_str("none"),
    }
}

fn show_released(alloc: Global, out: &mut String, line: &str) -> Result<(), AllocError> {
    let Some(rank) = u16_at(line, 1) else {
        return no_case(out);
    };
    let mut text = Bytes::new(alloc);
    append_released(
        &mut text,
        RankId(rank),
        behind_first(behind_first(line)).as_bytes(),
    )?;
    show_bytes(out, text.as_slice())
}
