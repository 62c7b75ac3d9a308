//! Formats of bytes as values of definitions, with the laws by which they are put together, and the reading and writing
//! of their fields.
#![tactic(auto)]

mod cursor;
mod fields;
mod laws;
mod order;
mod plain;
mod spelling;

pub use cursor::{Cursor, Unspelled};
pub use fields::{
    put_count8, put_count16, put_count32, put_i32, put_text, put_u8, put_u16, put_u32, put_u64,
    take_block, take_i32, take_text, take_u8, take_u16, take_u32, take_u64,
};
pub use laws::{
    bytes_spell_one_value, choices_are_formats, fields_are_formats, list_formats_are_formats,
    made_formats_are_formats,
};
pub use order::ascend;
pub use plain::{Number8, Number16, Number32, Number64, Signed32, Text};
pub use spelling::{Spelling, put_many, put_option, spell, take_many, take_option, unspell};
