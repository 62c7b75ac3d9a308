//! Code in the making, and the parts of it that take no expression.

ghost use Rattle.std.specs.Prelude.{◌≡◌, ℕ, ◌+◌, [], length, OnOk};
ghost use Rattle.rank_range.specs.declared.kinds.Kind.TheVariants.{UnsignedLong, Long};
ghost use Rattle.rank_range.specs.declared.operators.Binary.TheVariants.{Add, Subtract, Divide};
ghost use Rattle.vm_code.specs.declared.instr.Instr.TheVariants.{Dup, Push as InstrPush, Binary as InstrBinary, Load as InstrLoad, Store as InstrStore};
ghost use Rattle.c_types.specs.declared.expression.Operand.TheOpen.Step-F.{Count};
ghost use Rattle.c_model.specs.Run.{counted_kind};
ghost use Rattle.codegen.specs.Layout.{one, ◌then◌, jump_where, word_of_truth, negation, truths, on_words, scaled, converted, offset_front, offset_back, moving, against, amount, given_part, step_part};
ghost use Rattle.codegen.specs.Making.{Adds, at_most_word};

use c_types::{Counted, Direction, Given, OffsetBy};
use rank_range::{Binary, Kind};
use sqlite_items::Items;
use std::alloc::{AllocError, Global};
use vm_code::Instr;

/// Code in the making.
#[derive(Debug, Drop)]
pub struct Draft {
    pub instrs: Items<Instr>,
}

impl Draft {
    pub fn new(alloc: Global) -> Draft
        ensures { result.instrs ≡ [] }
    {
        Draft {
            instrs: Items::new(alloc),
        }
    }

    /// The place behind the last instruction, or the greatest number of 32 bits where that is less.
    pub fn end(&self) -> u32
        ensures { result ≡ at_most_word (length self.now.instrs) }
    {
        u32::try_from(self.instrs.len()).unwrap_or(u32::MAX)
    }

    /// The place so many instructions behind the last one, or the greatest number of 32 bits where that is less.
    pub fn ahead(&self, count: u32) -> u32
        ensures { (n : ℕ) → count ≡ at_most_word n → result ≡ at_most_word (length self.now.instrs + n) }
    {
        self.end().saturating_add(count)
    }

    pub fn put(&mut self, instr: Instr) -> Result<(), AllocError>
        ensures { OnOk result (Adds self.old self.new (one instr)) }
    {
        self.instrs.push(instr)
    }

    /// An operator on words, as on addresses.
    pub fn put_words(&mut self, op: Binary) -> Result<(), AllocError>
        ensures { OnOk result (Adds self.old self.new (on_words op)) }
    {
        self.put(Instr::Binary {
            op,
            kind: Kind::UnsignedLong,
        })
    }

    pub fn put_scaled(&mut self, scale: u64) -> Result<(), AllocError>
        ensures { OnOk result (Adds self.old self.new (scaled scale)) }
    {
        self.put(Instr::Push(scale))?;
        self.put_words(Binary::Multiply)
    }

    pub fn put_converted(&mut self, from: Kind, to: Kind) -> Result<(), AllocError>
        ensures { OnOk result (Adds self.old self.new (converted from to)) }
    {
        self.put(Instr::Extend(from))?;
        self.put(Instr::Extend(to))
    }

    /// Puts 1 where the topmost operand is 0, and else 0.
    pub fn put_negation(&mut self) -> Result<(), AllocError>
        ensures { OnOk result (Adds self.old self.new negation) }
    {
        let one = self.ahead(3);
        self.put(Instr::JumpIfZero(one))?;
        self.put(Instr::Push(0))?;
        let end = self.ahead(2);
        self.put(Instr::Jump(end))?;
        self.put(Instr::Push(1))
    }

    /// Ends `&&` or `||`, by the value that is decisive.
    pub fn put_truths(&mut self, decisive: bool) -> Result<(), AllocError>
        ensures { OnOk result (Adds self.old self.new (truths decisive)) }
    {
        let decided = self.ahead(3);
        self.put(jump_where(decisive, decided))?;
        self.put(Instr::Push(truth(!decisive)))?;
        let end = self.ahead(2);
        self.put(Instr::Jump(end))?;
        self.put(Instr::Push(truth(decisive)))
    }

    /// The negation of what an operator tells.
    pub fn put_turned(&mut self, op: Binary, kind: Kind) -> Result<(), AllocError>
        ensures { OnOk result (Adds self.old self.new (one (InstrBinary op kind) then negation)) }
    {
        self.put(Instr::Binary { op, kind })?;
        self.put_negation()
    }

    /// The address of a member.
    pub fn put_member(&mut self, offset: u64) -> Result<(), AllocError>
        ensures { OnOk result (Adds self.old self.new (one (InstrPush offset) then on_words Add)) }
    {
        self.put(Instr::Push(offset))?;
        self.put_words(Binary::Add)
    }

    /// What stands before the number of a pointer and a number.
    pub fn begin_offset(&mut self, by: OffsetBy, scale: u64) -> Result<(), AllocError>
        ensures { OnOk result (Adds self.old self.new (offset_front by scale)) }
    {
        match by {
            OffsetBy::NumberPlusPointer => self.put_scaled(scale),
            OffsetBy::PointerPlusNumber | OffsetBy::PointerMinusNumber => Ok(()),
        }
    }

    /// What stands behind it.
    pub fn end_offset(&mut self, by: OffsetBy, scale: u64) -> Result<(), AllocError>
        ensures { OnOk result (Adds self.old self.new (offset_back by scale)) }
    {
        match by {
            OffsetBy::PointerPlusNumber => {
                self.put_scaled(scale)?;
                self.put_words(Binary::Add)
            }
            OffsetBy::NumberPlusPointer => self.put_words(Binary::Add),
            OffsetBy::PointerMinusNumber => {
                self.put_scaled(scale)?;
                self.put_words(Binary::Subtract)
            }
        }
    }

    /// The difference of two addresses, in elements of so many bytes.
    pub fn put_difference(&mut self, size: u64) -> Result<(), AllocError>
        ensures { OnOk result (Adds self.old self.new (on_words Subtract then one (InstrPush size) then one (InstrBinary Divide Long))) }
    {
        self.put_words(Binary::Subtract)?;
        self.put(Instr::Push(size))?;
        self.put(Instr::Binary {
            op: Binary::Divide,
            kind: Kind::Long,
        })
    }

    /// The number that is updated, converted.
    pub fn begin_update(&mut self, kind: Kind, at: Kind) -> Result<(), AllocError>
        ensures { OnOk result (Adds self.old self.new (one Dup then one (InstrLoad kind) then converted kind at)) }
    {
        self.put(Instr::Dup)?;
        self.put(Instr::Load(kind))?;
        self.put_converted(kind, at)
    }

    /// The operator, and the store of what it gives.
    pub fn end_update(&mut self, op: Binary, kind: Kind, at: Kind) -> Result<(), AllocError>
        ensures { OnOk result (Adds self.old self.new (one (InstrBinary op at) then converted at kind then one (InstrStore kind))) }
    {
        self.put(Instr::Binary { op, kind: at })?;
        self.put_converted(at, kind)?;
        self.put(Instr::Store(kind))
    }

    /// The pointer that is advanced.
    pub fn begin_advance(&mut self) -> Result<(), AllocError>
        ensures { OnOk result (Adds self.old self.new (one Dup then one (InstrLoad UnsignedLong))) }
    {
        self.put(Instr::Dup)?;
        self.put(Instr::Load(Kind::UnsignedLong))
    }

    /// Its sum, and the store of it.
    pub fn end_advance(&mut self, direction: Direction, scale: u64) -> Result<(), AllocError>
        ensures { OnOk result (Adds self.old self.new (scaled scale then on_words (moving direction) then one (InstrStore UnsignedLong))) }
    {
        self.put_scaled(scale)?;
        self.put_words(moving(direction))?;
        self.put(Instr::Store(Kind::UnsignedLong))
    }

    /// `++` and `--`.
    pub fn put_count(
        &mut self,
        counted: Counted,
        direction: Direction,
        given: Given,
    ) -> Result<(), AllocError>
        ensures { OnOk result (Adds self.old self.new (step_part (Count counted direction given))) }
    {
        let kind = counted_kind(counted);
        self.put(Instr::Dup)?;
        self.put(Instr::Load(kind))?;
        self.put(Instr::Push(amount(counted)))?;
        self.put_words(moving(direction))?;
        self.put(Instr::Extend(kind))?;
        self.put(Instr::Store(kind))?;
        self.put_given(counted, direction, given)
    }

    /// What is given behind a count.
    fn put_given(
        &mut self,
        counted: Counted,
        direction: Direction,
        given: Given,
    ) -> Result<(), AllocError>
        ensures { OnOk result (Adds self.old self.new (given_part given counted direction)) }
    {
        match given {
            Given::New => Ok(()),
            Given::Old => {
                self.put(Instr::Push(amount(counted)))?;
                self.put_words(against(direction))?;
                self.put(Instr::Extend(counted_kind(counted)))
            }
        }
    }
}

fn counted_kind(counted: Counted) -> Kind
    ensures { result ≡ counted_kind counted }
{
    match counted {
        Counted::Number(kind) => kind,
        Counted::Pointer(_) => Kind::UnsignedLong,
    }
}

fn amount(counted: Counted) -> u64
    ensures { result ≡ amount counted }
{
    match counted {
        Counted::Number(_) => 1,
        Counted::Pointer(scale) => scale,
    }
}

fn moving(direction: Direction) -> Binary
    ensures { result ≡ moving direction }
{
    match direction {
        Direction::Up => Binary::Add,
        Direction::Down => Binary::Subtract,
    }
}

fn against(direction: Direction) -> Binary
    ensures { result ≡ against direction }
{
    match direction {
        Direction::Up => Binary::Subtract,
        Direction::Down => Binary::Add,
    }
}

/// 1 or 0.
fn truth(holds: bool) -> u64
    ensures { result ≡ word_of_truth holds }
{
    if holds { 1 } else { 0 }
}

/// The jump where a word is decisive.
pub fn jump_where(decisive: bool, place: u32) -> Instr
    ensures { result ≡ jump_where decisive place }
{
    if decisive {
        Instr::JumpIfNot(place)
    } else {
        Instr::JumpIfZero(place)
    }
}
