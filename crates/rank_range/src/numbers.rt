//! Numbers in bytes, the lowest byte first.

ghost use Rattle.std.specs.Prelude.{◌≡◌, ◌+◌, ◌≤◌, ◌<◌, ◌^◌, length};
ghost use Rattle.rank_range.specs.Numbers.{bytes_in, number_at, with_number, AreLoadedBack, OthersStay, LengthStays};

use crate::Width;
use byteorder::{ByteOrder, LittleEndian};

/// The number in the bytes from `at` on, the lowest byte first.
pub fn read_number(bytes: &[u8], at: usize, width: Width) -> u64
    requires { at + bytes_in width ≤ length bytes.now }
    ensures value { result ≡ number_at bytes.now at (bytes_in width) }
    ensures fits { result < 256 ^ bytes_in width }
{
    match width {
        Width::One => bytes[at] as u64,
        Width::Two => LittleEndian::read_u16(&bytes[at..]) as u64,
        Width::Four => LittleEndian::read_u32(&bytes[at..]) as u64,
        Width::Eight => LittleEndian::read_u64(&bytes[at..]),
    }
}

/// Puts the lowest bytes of `value` from `at` on, the lowest byte first. No other byte changes.
pub fn write_number(bytes: &mut [u8], at: usize, width: Width, value: u64)
    requires { at + bytes_in width ≤ length bytes.old }
    ensures { bytes.new ≡ with_number bytes.old at (bytes_in width) value }
{
    let field = value.to_le_bytes();
    match width {
        Width::One => bytes[at..at + 1].copy_from_slice(&field[..1]),
        Width::Two => bytes[at..at + 2].copy_from_slice(&field[..2]),
        Width::Four => bytes[at..at + 4].copy_from_slice(&field[..4]),
        Width::Eight => bytes[at..at + 8].copy_from_slice(&field[..8]),
    }
}

/// Laws: what is loaded is what was stored last, and a store changes nothing beside its bytes.
pub fn stored_numbers_are_loaded()
    ensures same { AreLoadedBack }
    ensures others { OthersStay }
    ensures length { LengthStays }
{}
