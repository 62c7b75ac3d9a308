//! The instructions that touch no memory.

ghost use Rattle.std.specs.Prelude.{◌≡◌, ◌∷◌, ◌+◌, ◌<◌, ◌^◌, ℕ, List, Some};
ghost use Rattle.vm_code.specs.declared.code.Code.{Code};
ghost use Rattle.vm_code.specs.declared.instr.Instr.TheVariants as Instr;
ghost use Rattle.vm_code.specs.Machine.{act, go_on};
ghost use Rattle.rank_machine.specs.View.{Tally, config_of};
ghost use Rattle.rank_machine.specs.Steps.{shown, shown_by};

use crate::halt::Halt;
use crate::work::Work;
use rank_range::{Binary, Kind, Unary, extended, operate, operate_one};
use vm_code::Instr;

/// Puts a word on the operands and goes on behind the instruction.
pub fn go_on(work: &mut Work, word: u64) -> Option<Halt>
    requires { work.old.place + 1 < 2 ^ 64 }
    ensures { (code : Code) (rank top : ℕ) (bytes : List ℕ) (tally : Tally) → shown_by code result (config_of work.new rank top bytes tally) ≡ shown (go_on (word ∷ work.old.operands) (config_of work.old rank top bytes tally)) }
{
    if !work.operands.push(word) {
        return Some(Halt::Lost);
    }
    work.place += 1;
    None
}

#[tactic(auto, unfolding(vm_code::specs::Machine::act))]
pub fn pop(work: &mut Work) -> Option<Halt>
    requires { work.old.place + 1 < 2 ^ 64 }
    ensures { (code : Code) (rank top : ℕ) (bytes : List ℕ) (tally : Tally) → shown_by code result (config_of work.new rank top bytes tally) ≡ shown (act code (Some Instr.Pop) (config_of work.old rank top bytes tally)) }
{
    let Some(_) = work.operands.pop() else {
        return Some(Halt::Lost);
    };
    work.place += 1;
    None
}

#[tactic(auto, unfolding(vm_code::specs::Machine::act))]
pub fn duplicate(work: &mut Work) -> Option<Halt>
    requires { work.old.place + 1 < 2 ^ 64 }
    ensures { (code : Code) (rank top : ℕ) (bytes : List ℕ) (tally : Tally) → shown_by code result (config_of work.new rank top bytes tally) ≡ shown (act code (Some Instr.Dup) (config_of work.old rank top bytes tally)) }
{
    let Some(word) = work.operands.peek() else {
        return Some(Halt::Lost);
    };
    go_on(work, word)
}

/// The operator on the two topmost words.
#[tactic(auto, unfolding(vm_code::specs::Machine::act))]
pub fn binary(work: &mut Work, op: Binary, kind: Kind) -> Option<Halt>
    requires { work.old.place + 1 < 2 ^ 64 }
    ensures { (code : Code) (rank top : ℕ) (bytes : List ℕ) (tally : Tally) → shown_by code result (config_of work.new rank top bytes tally) ≡ shown (act code (Some (Instr.Binary op kind)) (config_of work.old rank top bytes tally)) }
{
    let Some(b) = work.operands.pop() else {
        return Some(Halt::Lost);
    };
    let Some(a) = work.operands.pop() else {
        return Some(Halt::Lost);
    };
    match operate(op, kind, a, b) {
        Ok(word) => go_on(work, word),
        Err(cause) => Some(Halt::Trapped(cause)),
    }
}

#[tactic(auto, unfolding(vm_code::specs::Machine::act))]
pub fn unary(work: &mut Work, op: Unary, kind: Kind) -> Option<Halt>
    requires { work.old.place + 1 < 2 ^ 64 }
    ensures { (code : Code) (rank top : ℕ) (bytes : List ℕ) (tally : Tally) → shown_by code result (config_of work.new rank top bytes tally) ≡ shown (act code (Some (Instr.Unary op kind)) (config_of work.old rank top bytes tally)) }
{
    let Some(a) = work.operands.pop() else {
        return Some(Halt::Lost);
    };
    go_on(work, operate_one(op, kind, a))
}

#[tactic(auto, unfolding(vm_code::specs::Machine::act))]
pub fn extend(work: &mut Work, kind: Kind) -> Option<Halt>
    requires { work.old.place + 1 < 2 ^ 64 }
    ensures { (code : Code) (rank top : ℕ) (bytes : List ℕ) (tally : Tally) → shown_by code result (config_of work.new rank top bytes tally) ≡ shown (act code (Some (Instr.Extend kind)) (config_of work.old rank top bytes tally)) }
{
    let Some(a) = work.operands.pop() else {
        return Some(Halt::Lost);
    };
    go_on(work, extended(kind, a))
}

#[tactic(auto, unfolding(vm_code::specs::Machine::act))]
pub fn jump(work: &mut Work, place: u32) -> Option<Halt>
    ensures { (code : Code) (rank top : ℕ) (bytes : List ℕ) (tally : Tally) → shown_by code result (config_of work.new rank top bytes tally) ≡ shown (act code (Some (Instr.Jump place)) (config_of work.old rank top bytes tally)) }
{
    work.place = u64::from(place);
    None
}

/// Goes on at the place where the topmost word is 0.
#[tactic(auto, unfolding(vm_code::specs::Machine::act))]
pub fn jump_if_zero(work: &mut Work, place: u32) -> Option<Halt>
    requires { work.old.place + 1 < 2 ^ 64 }
    ensures { (code : Code) (rank top : ℕ) (bytes : List ℕ) (tally : Tally) → shown_by code result (config_of work.new rank top bytes tally) ≡ shown (act code (Some (Instr.JumpIfZero place)) (config_of work.old rank top bytes tally)) }
{
    let Some(word) = work.operands.pop() else {
        return Some(Halt::Lost);
    };
    if word == 0 {
        work.place = u64::from(place);
    } else {
        work.place += 1;
    }
    None
}

/// Goes on at the place where the topmost word isn't 0.
#[tactic(auto, unfolding(vm_code::specs::Machine::act))]
pub fn jump_if_not(work: &mut Work, place: u32) -> Option<Halt>
    requires { work.old.place + 1 < 2 ^ 64 }
    ensures { (code : Code) (rank top : ℕ) (bytes : List ℕ) (tally : Tally) → shown_by code result (config_of work.new rank top bytes tally) ≡ shown (act code (Some (Instr.JumpIfNot place)) (config_of work.old rank top bytes tally)) }
{
    let Some(word) = work.operands.pop() else {
        return Some(Halt::Lost);
    };
    if word == 0 {
        work.place += 1;
    } else {
        work.place = u64::from(place);
    }
    None
}
