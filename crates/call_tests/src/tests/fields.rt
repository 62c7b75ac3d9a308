//! Fields and lists as bytes, both ways, cut at every length and with one more byte.

use am_base::Bytes;
use byte_formats::{
    Cursor, Number8, Number16, Number32, Number64, Signed32, Spelling, Text, Unspelled, ascend,
    put_count8, put_count16, put_count32, put_i32, put_many, put_option, put_text, put_u8, put_u16,
    put_u32, put_u64, spell, take_block, take_i32, take_many, take_option, take_text, take_u8,
    take_u16, take_u32, take_u64, unspell,
};
use std::alloc::{AllocError, Global};
use std::test::Fail;

/// The fields below one behind another.
const FIELDS: [u8; 43] = [
    254, // 8 bits
    2, 1, // 16 bits
    4, 3, 2, 255, // 32 bits
    8, 7, 6, 5, 4, 3, 2, 1, // 64 bits
    254, 255, 255, 255, // -2
    2, 0, 0, 0, 104, 105, // a text
    255, // a count of 8 bits
    255, 255, // of 16 bits
    0, 0, 1, 0, // of 32 bits
    9, 8, 7, // a block
    1, 3, 2, // an optional number
    0, // none
    1, 0, 3, 2, // two numbers
];

fn put_numbers(out: &mut Bytes) -> Result<(), AllocError> {
    put_u8(out, 254)?;
    put_u16(out, 0x0102)?;
    put_u32(out, 0xff02_0304)?;
    put_u64(out, 0x0102_0304_0506_0708)?;
    put_i32(out, -2)
}

fn put_counts(out: &mut Bytes) -> Result<(), AllocError> {
    put_text(out, b"hi")?;
    put_count8(out, 255)?;
    put_count16(out, 65_535)?;
    put_count32(out, 65_536)?;
    out.append(&[9, 8, 7])
}

fn put_lists(out: &mut Bytes) -> Result<(), AllocError> {
    put_option::<Number16>(out, &Some(0x0203))?;
    put_option::<Number16>(out, &None)?;
    put_many::<Number16>(out, &[1, 0x0203])
}

fn fields(alloc: Global) -> Result<Bytes, AllocError> {
    let mut out = Bytes::new(alloc);
    put_numbers(&mut out)?;
    put_counts(&mut out)?;
    put_lists(&mut out)?;
    Ok(out)
}

fn are_numbers(cursor: &mut Cursor<'_>) -> Result<bool, Unspelled> {
    let byte = take_u8(cursor)?;
    let short = take_u16(cursor)?;
    let word = take_u32(cursor)?;
    let long = take_u64(cursor)?;
    let signed = take_i32(cursor)?;
    Ok(
        byte == 254
            && short == 0x0102
            && word == 0xff02_0304
            && long == 0x0102_0304_0506_0708
            && signed == -2,
    )
}

fn are_counts(alloc: Global, cursor: &mut Cursor<'_>) -> Result<bool, Unspelled> {
    let text = take_text(alloc, cursor)?;
    let byte = take_u8(cursor)?;
    let short = take_u16(cursor)?;
    let word = take_u32(cursor)?;
    let block = take_block(cursor, 3)?;
    Ok(
        text.as_slice() == b"hi".as_slice()
            && byte == 255
            && short == 65_535
            && word == 65_536
            && block == [9, 8, 7].as_slice(),
    )
}

fn are_lists(alloc: Global, cursor: &mut Cursor<'_>) -> Result<bool, Unspelled> {
    let some = take_option::<Number16>(alloc, cursor)?;
    let none = take_option::<Number16>(alloc, cursor)?;
    let many = take_many::<Number16>(alloc, cursor, 2)?;
    Ok(some == Some(0x0203) && none.is_none() && many.as_slice() == [1, 0x0203].as_slice())
}

/// Whether the fields are these, and how many bytes are left behind them.
fn taken(alloc: Global, bytes: &[u8]) -> Result<(bool, usize), Unspelled> {
    let mut cursor = Cursor { rest: bytes };
    let numbers = are_numbers(&mut cursor)?;
    let counts = are_counts(alloc, &mut cursor)?;
    let lists = are_lists(alloc, &mut cursor)?;
    Ok((numbers && counts && lists, cursor.rest.len()))
}

/// Whether no shorter beginning of the fields has all of them, and one more byte is left.
fn are_cut(alloc: Global) -> Result<bool, AllocError> {
    for end in 0..FIELDS.len() {
        match taken(alloc, &FIELDS[..end]) {
            Ok(_) => return Ok(false),
            Err(Unspelled::Bad) => {}
            Err(Unspelled::Memory) => return Err(AllocError),
        }
    }
    let mut longer = Bytes::from_slice(alloc, &FIELDS)?;
    longer.push(7)?;
    match taken(alloc, longer.as_slice()) {
        Ok(answer) => Ok(answer == (true, 1)),
        Err(Unspelled::Bad) => Ok(false),
        Err(Unspelled::Memory) => Err(AllocError),
    }
}

fn is_bad<S: Spelling>(alloc: Global, bytes: &[u8]) -> Result<bool, AllocError> {
    match unspell::<S>(alloc, bytes) {
        Ok(value) => {
            drop(value);
            Ok(false)
        }
        Err(Unspelled::Bad) => Ok(true),
        Err(Unspelled::Memory) => Err(AllocError),
    }
}

/// Whether the bytes spell a value, and no shorter beginning does, nor do they with one more byte.
fn is_exact<S: Spelling>(alloc: Global, bytes: &[u8]) -> Result<bool, AllocError> {
    for end in 0..bytes.len() {
        if !is_bad::<S>(alloc, &bytes[..end])? {
            return Ok(false);
        }
    }
    let mut longer = Bytes::from_slice(alloc, bytes)?;
    longer.push(0)?;
    Ok(is_bad::<S>(alloc, longer.as_slice())? && !is_bad::<S>(alloc, bytes)?)
}

/// Whether each number is spelled by these bytes.
fn are_spelled(alloc: Global) -> Result<bool, AllocError> {
    let byte = spell::<Number8>(alloc, &254)?;
    let short = spell::<Number16>(alloc, &0x0102)?;
    let word = spell::<Number32>(alloc, &0xff02_0304)?;
    let long = spell::<Number64>(alloc, &0x0102_0304_0506_0708)?;
    let signed = spell::<Signed32>(alloc, &-2)?;
    Ok(
        byte.as_slice() == &FIELDS[..1]
            && short.as_slice() == &FIELDS[1..3]
            && word.as_slice() == &FIELDS[3..7]
            && long.as_slice() == &FIELDS[7..15]
            && signed.as_slice() == &FIELDS[15..19],
    )
}

fn are_exact(alloc: Global) -> Result<bool, AllocError> {
    Ok(
        is_exact::<Number8>(alloc, &FIELDS[..1])?
            && is_exact::<Number16>(alloc, &FIELDS[1..3])?
            && is_exact::<Number32>(alloc, &FIELDS[3..7])?
            && is_exact::<Number64>(alloc, &FIELDS[7..15])?
            && is_exact::<Signed32>(alloc, &FIELDS[15..19])?
            && is_exact::<Text>(alloc, &FIELDS[19..25])?,
    )
}

fn lists_ascend() -> bool {
    ascend(&[1, 2, 4], |a: &u8, b: &u8| a < b)
        && !ascend(&[1, 4, 4], |a: &u8, b: &u8| a < b)
        && !ascend(&[2, 1, 4], |a: &u8, b: &u8| a < b)
}

#[test]
fn fields_are_spelled_one_way(rt: HostRuntime) -> Result<(), Fail> {
    let alloc = rt.alloc();
    let bytes = fields(alloc)?;
    assert!(rt; bytes.as_slice() == FIELDS.as_slice() && are_cut(alloc)?);
    assert!(rt; are_spelled(alloc)? && are_exact(alloc)?);
    assert!(rt; is_bad::<Text>(alloc, &[255, 255, 255, 255, 1])? && lists_ascend());
    Ok(())
}
