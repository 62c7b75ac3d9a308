//! Numbers and texts with their readers and writers.

ghost use Rattle.std.specs.Prelude.{◌≡◌};
ghost use Rattle.byte_formats.specs.Formats.{number8, number16, number32, number64, signed32, text};
ghost use Rattle.byte_formats.specs.FormatLaws.{number8_is, number16_is, number32_is, number64_is, signed32_is, text_is};

use crate::{
    Cursor, Spelling, Unspelled, put_i32, put_text, put_u8, put_u16, put_u32, put_u64, take_i32,
    take_text, take_u8, take_u16, take_u32, take_u64,
};
use am_base::Bytes;
use std::alloc::{AllocError, Global};

/// Numbers of one byte.
pub struct Number8;

impl Spelling for Number8 {
    type Value = u8;

    ghost format = { number8 };

    fn take(_alloc: Global, cursor: &mut Cursor<'_>) -> Result<u8, Unspelled> {
        take_u8(cursor)
    }

    fn put(out: &mut Bytes, value: &u8) -> Result<(), AllocError> {
        put_u8(out, *value)
    }

    ghost is_format = { number8_is };
}

/// Numbers of two bytes, the lowest first.
pub struct Number16;

impl Spelling for Number16 {
    type Value = u16;

    ghost format = { number16 };

    fn take(_alloc: Global, cursor: &mut Cursor<'_>) -> Result<u16, Unspelled> {
        take_u16(cursor)
    }

    fn put(out: &mut Bytes, value: &u16) -> Result<(), AllocError> {
        put_u16(out, *value)
    }

    ghost is_format = { number16_is };
}

/// Numbers of four bytes, the lowest first.
pub struct Number32;

impl Spelling for Number32 {
    type Value = u32;

    ghost format = { number32 };

    fn take(_alloc: Global, cursor: &mut Cursor<'_>) -> Result<u32, Unspelled> {
        take_u32(cursor)
    }

    fn put(out: &mut Bytes, value: &u32) -> Result<(), AllocError> {
        put_u32(out, *value)
    }

    ghost is_format = { number32_is };
}

/// Numbers of eight bytes, the lowest first.
pub struct Number64;

impl Spelling for Number64 {
    type Value = u64;

    ghost format = { number64 };

    fn take(_alloc: Global, cursor: &mut Cursor<'_>) -> Result<u64, Unspelled> {
        take_u64(cursor)
    }

    fn put(out: &mut Bytes, value: &u64) -> Result<(), AllocError> {
        put_u64(out, *value)
    }

    ghost is_format = { number64_is };
}

/// Signed numbers of four bytes, the lowest first, in two's complement.
pub struct Signed32;

impl Spelling for Signed32 {
    type Value = i32;

    ghost format = { signed32 };

    fn take(_alloc: Global, cursor: &mut Cursor<'_>) -> Result<i32, Unspelled> {
        take_i32(cursor)
    }

    fn put(out: &mut Bytes, value: &i32) -> Result<(), AllocError> {
        put_i32(out, *value)
    }

    ghost is_format = { signed32_is };
}

/// A length of four bytes and so many bytes.
pub struct Text;

impl Spelling for Text {
    type Value = Bytes;

    ghost format = { text };

    fn take(alloc: Global, cursor: &mut Cursor<'_>) -> Result<Bytes, Unspelled> {
        take_text(alloc, cursor)
    }

    fn put(out: &mut Bytes, value: &Bytes) -> Result<(), AllocError> {
        put_text(out, value.as_slice())
    }

    ghost is_format = { text_is };
}
