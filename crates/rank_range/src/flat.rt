//! A rank's memory as one block of bytes.

ghost use Rattle.std.specs.Prelude.{◌≡◌, ◌+◌, ◌-◌, ◌≤◌, ℕ, true, length, slice_index, IfOk};
ghost use Rattle.rank_range.specs.Layout.{base_of, range_bytes, stack_start};

use crate::parts::{copy_part, fill_part, part_of, put_part};
use crate::{
    BadAddress, Mem, RANGE_BYTES, STACK_START, Width, is_accessible, place_of, place_of_bytes,
    read_number, write_number,
};
use am_base::RankId;
use std::alloc::{AllocError, Global};
use std::marker::Model;

/// A rank's memory as one block of bytes. Its pages are always marked.
#[derive(Debug, Drop)]
pub struct FlatMem {
    rank: RankId,
    top: u32,
    bytes: Vec<u8>,
}

impl Model for FlatMem {
    ghost use Rattle.std.specs.Prelude.{◌≡◌, ◌≤◌, ℕ, List, length};
    ghost use Rattle.rank_range.specs.Layout.{range_bytes, stack_start};

    ghost Value = { ℕ × ℕ × List ℕ };

    ghost view = { λ m. (m.rank.0, m.top, m.bytes.items) };

    ghost invariant = { λ m. (length m.bytes.items ≡ range_bytes) × (stack_start ≤ m.top) × (m.top ≤ range_bytes) };
}

impl Mem for FlatMem {
    ghost rank_of = { λ m. m.0 };

    ghost top_of = { λ m. m.1 };

    ghost bytes_of = { λ m. m.2 };

    ghost marks_of = { λ _ page. true };

    fn fresh(alloc: Global, rank: RankId) -> Result<FlatMem, AllocError> {
        let bytes = zeros(alloc, RANGE_BYTES as usize)?;
        Ok(FlatMem {
            rank,
            top: STACK_START,
            bytes,
        })
    }

    fn rank(&self) -> RankId {
        self.rank
    }

    fn top(&self) -> u32 {
        self.top
    }

    fn dirty(&self, _page: u32) -> bool {
        true
    }

    fn accessible(&self, a: u64, n: u64) -> bool {
        is_accessible(self.rank, self.top, a, n)
    }

    fn load(&self, a: u64, width: Width) -> Result<u64, BadAddress> {
        let at = place_of(self.rank, self.top, a, width)?;
        Ok(read_number(self.bytes.as_slice(), at, width))
    }

    fn store(&mut self, a: u64, width: Width, value: u64) -> Result<(), BadAddress> {
        let at = place_of(self.rank, self.top, a, width)?;
        write_number(self.bytes.as_mut_slice(), at, width, value);
        Ok(())
    }

    fn view(&self, a: u64, n: u64) -> Result<&[u8], BadAddress> {
        if n == 0 {
            return Ok(&[]);
        }
        let at = place_of_bytes(self.rank, self.top, a, n)?;
        Ok(part_of(self.bytes.as_slice(), at, n as usize))
    }

    fn write(&mut self, a: u64, bytes: &[u8]) -> Result<(), BadAddress> {
        let n = bytes.len() as u64;
        if n == 0 {
            return Ok(());
        }
        let at = place_of_bytes(self.rank, self.top, a, n)?;
        put_part(self.bytes.as_mut_slice(), at, bytes);
        Ok(())
    }

    fn copy(&mut self, to: u64, from: u64, n: u64) -> Result<(), BadAddress> {
        if n == 0 {
            return Ok(());
        }
        let there = place_of_bytes(self.rank, self.top, from, n)?;
        let here = place_of_bytes(self.rank, self.top, to, n)?;
        copy_part(self.bytes.as_mut_slice(), here, there, n as usize);
        Ok(())
    }

    fn fill(&mut self, a: u64, n: u64, byte: u8) -> Result<(), BadAddress> {
        if n == 0 {
            return Ok(());
        }
        let at = place_of_bytes(self.rank, self.top, a, n)?;
        fill_part(self.bytes.as_mut_slice(), at, n as usize, byte);
        Ok(())
    }

    fn raw(&self, at: u32, width: Width) -> u64 {
        read_number(self.bytes.as_slice(), at as usize, width)
    }

    fn set_raw(&mut self, at: u32, width: Width, value: u64) {
        write_number(self.bytes.as_mut_slice(), at as usize, width, value);
    }

    fn set_top(&mut self, top: u32) {
        self.top = top;
    }

    fn clean(&mut self) {}
}

fn zeros(alloc: Global, count: usize) -> Result<Vec<u8>, AllocError>
    ensures { IfOk result (λ v. (length v.items ≡ count) × ((i : ℕ) → slice_index v.items i ≡ 0)) }
{
    Ok(vec![in alloc; 0u8; count]?)
}
