//! Reductions: the operations on the bytes of elements.

ghost use Rattle.std.specs.Prelude.{◌≡◌, ◌+◌, ◌-◌, ◌*◌, ◌%◌, ◌^◌, ◌<◌, ◌≤◌, ◌++◌, All, IfOk, OnOk, length, map, drop};
ghost use Rattle.byteorder.specs.Endian.{little_number, little_bytes};
ghost use Rattle.mpi_types.specs.Tables.{datatype_size};
ghost use Rattle.mpi_types.specs.Reduce.{is_signed, is_less, shifted, combined, begun, combined_lists, elements_of, bytes_of, reduced};

use crate::{Arg, Datatype, Operation};
use am_base::Bytes;
use byteorder::{ByteOrder, LittleEndian};
use std::alloc::{AllocError, Global};

/// What is left of so many elements of each member after the reduction (MPI 3.1, section 5.9).
pub fn reduced_args(
    alloc: Global,
    operation: Operation,
    datatype: Datatype,
    count: u32,
    args: &[Arg],
) -> Result<Bytes, AllocError>
    requires { All (λ a. count * datatype_size datatype ≤ length a.body) args.now }
    ensures { IfOk result (λ b. b ≡ reduced operation datatype count (map (λ a. a.body) args.now)) }
{
    let Some((first, rest)) = args.split_first() else {
        return Ok(Bytes::new(alloc));
    };
    let mut total = begun_elements(alloc, operation, datatype, count, first.body.as_slice())?;
    for arg in rest {
        combine(&mut total, operation, datatype, arg.body.as_slice());
    }
    spelled(alloc, datatype, total.as_slice())
}

/// The elements of one body, as a fold begins with them.
fn begun_elements(
    alloc: Global,
    operation: Operation,
    datatype: Datatype,
    count: u32,
    body: &[u8],
) -> Result<Vec<u64>, AllocError>
    requires { count * datatype_size datatype ≤ length body.now }
    ensures { IfOk result (λ v. v.items ≡ map (begun operation) (elements_of (datatype_size datatype) count body.now)) }
{
    let size = datatype.size() as usize;
    let mut elements = Vec::new(alloc);
    for i in 0..count as usize {
        elements.push(begin(operation, element(body, size, i)))?;
    }
    Ok(elements)
}

/// Combines each element with the one of a body at its place.
fn combine(total: &mut Vec<u64>, operation: Operation, datatype: Datatype, body: &[u8])
    requires { length total.old.items * datatype_size datatype ≤ length body.now }
    ensures { total.new.items ≡ combined_lists operation datatype total.old.items
        (elements_of (datatype_size datatype) (length total.old.items) body.now) }
{
    let size = datatype.size() as usize;
    for i in 0..total.len() {
        let other = element(body, size, i);
        total[i] = combined(operation, datatype, total[i], other);
    }
}

/// The bytes of elements.
fn spelled(alloc: Global, datatype: Datatype, elements: &[u64]) -> Result<Bytes, AllocError>
    ensures { IfOk result (λ b. b ≡ bytes_of (datatype_size datatype) elements.now) }
{
    let size = datatype.size() as usize;
    let mut out = Bytes::new(alloc);
    for element in elements {
        append_element(&mut out, size, *element)?;
    }
    Ok(out)
}

fn append_element(out: &mut Bytes, size: usize, element: u64) -> Result<(), AllocError>
    requires low { 1 ≤ size }
    requires high { size ≤ 8 }
    ensures { OnOk result (out.new ≡ out.old ++ little_bytes size element) }
{
    let bytes = element.to_le_bytes();
    out.append(&bytes[..size])
}

/// The element of this number, of so many bytes each.
fn element(body: &[u8], size: usize, i: usize) -> u64
    requires low { 1 ≤ size }
    requires high { size ≤ 8 }
    requires within { (i + 1) * size ≤ length body.now }
    ensures { result ≡ little_number size (drop (i * size) body.now) }
{
    LittleEndian::read_uint(&body[i * size..], size)
}

fn begin(operation: Operation, element: u64) -> u64
    ensures { result ≡ begun operation element }
{
    match operation {
        Operation::Land | Operation::Lor => u64::from(element != 0),
        Operation::Sum
        | Operation::Prod
        | Operation::Max
        | Operation::Min
        | Operation::Band
        | Operation::Bor
        | Operation::Bxor => element,
    }
}

/// What the operation makes of two elements, in the width of the datatype.
fn combined(operation: Operation, datatype: Datatype, a: u64, b: u64) -> u64
    ensures { result ≡ combined operation datatype a b }
{
    match operation {
        Operation::Sum => low(datatype, a.wrapping_add(b)),
        Operation::Prod => low(datatype, a.wrapping_mul(b)),
        Operation::Max => { if is_less(datatype, a, b) { b } else { a } }
        Operation::Min => { if is_less(datatype, a, b) { a } else { b } }
        Operation::Land => u64::from(a != 0 && b != 0),
        Operation::Lor => u64::from(a != 0 || b != 0),
        Operation::Band => a & b,
        Operation::Bor => a | b,
        Operation::Bxor => a ^ b,
    }
}

/// What the datatype's width keeps of a number.
fn low(datatype: Datatype, number: u64) -> u64
    ensures { result ≡ number % 256 ^ datatype_size datatype }
{
    match datatype.size() {
        1 => number % (1 << 8),
        2 => number % (1 << 16),
        4 => number % (1 << 32),
        _ => number,
    }
}

fn is_less(datatype: Datatype, a: u64, b: u64) -> bool
    ensures { result ≡ is_less datatype a b }
{
    if !is_signed(datatype) {
        return a < b;
    }
    let half = half_of(datatype);
    shifted(a, half) < shifted(b, half)
}

/// Half of what the datatype's width can count.
fn half_of(datatype: Datatype) -> u64
    ensures value { result ≡ 2 ^ (8 * datatype_size datatype - 1) }
    ensures high { result ≤ 2 ^ 63 }
{
    match datatype.size() {
        1 => 1 << 7,
        2 => 1 << 15,
        4 => 1 << 31,
        _ => 1 << 63,
    }
}

/// A number of two's complement so shifted that negative ones come first.
fn shifted(number: u64, half: u64) -> u64
    requires { half ≤ 2 ^ 63 }
    ensures { result ≡ shifted number half }
{
    if number < half {
        number + half
    } else {
        number - half
    }
}

fn is_signed(datatype: Datatype) -> bool
    ensures { result ≡ is_signed datatype }
{
    match datatype {
        Datatype::Char
        | Datatype::SignedChar
        | Datatype::Short
        | Datatype::Int
        | Datatype::Long
        | Datatype::LongLong => true,
        Datatype::UnsignedChar
        | Datatype::Byte
        | Datatype::UnsignedShort
        | Datatype::Unsigned
        | Datatype::UnsignedLong
        | Datatype::UnsignedLongLong => false,
    }
}
