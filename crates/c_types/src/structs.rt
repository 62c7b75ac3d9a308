//! Structures in the making.

ghost use Rattle.std.specs.Prelude.{◌≡◌, ◌+◌, ◌^◌, ◌<◌, OnOk, OnErr};
ghost use Rattle.c_types.specs.Sizes.{size_of, IsComplete, IsSmall};
ghost use Rattle.c_types.specs.Layouts.{no_members, with_member, finished};

use crate::{CType, Member, Rooms, StructLayout, StructType, alignment, size};
use am_base::Bytes;
use sqlite_items::Items;
use std::alloc::{AllocError, Global};

/// A structure whose members are being declared.
#[derive(Debug, Drop)]
pub struct StructDraft {
    pub members: Items<Member>,
    pub rooms: Rooms,
}

impl StructDraft {
    pub fn new(alloc: Global) -> StructDraft
        ensures { result ≡ no_members }
    {
        StructDraft {
            members: Items::new(alloc),
            rooms: Rooms::none(),
        }
    }

    /// Puts a member behind the others.
    pub fn push(&mut self, structs: &[StructType], name: Bytes, of: CType) -> Result<(), AllocError>
        requires complete { IsComplete structs.now of }
        requires small { IsSmall structs.now of }
        requires fits { self.old.rooms.end + size_of structs.now of + 8 < 2 ^ 64 }
        ensures ok { OnOk result (self.new ≡ with_member structs.now name of self.old) }
        ensures err { OnErr result (self.new ≡ self.old) }
    {
        let mut rooms = self.rooms;
        let offset = rooms.take(size(&of, structs), alignment(&of, structs));
        self.members.push(Member { name, of, offset })?;
        self.rooms = rooms;
        Ok(())
    }

    pub fn finish(self) -> StructLayout
        requires { self.rooms.end + 8 < 2 ^ 64 }
        ensures { result ≡ finished self }
    {
        let StructDraft { members, rooms } = self;
        StructLayout {
            members,
            size: rooms.padded(),
            align: rooms.align,
        }
    }
}
