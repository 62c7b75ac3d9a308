//! The operands of the call that is under way.

ghost use Rattle.std.specs.Prelude.{◌≡◌, ◌<◌, ◌≤◌, ◌∷◌, [], if◌then◌else◌, nat_le, true, length, reverse, take, drop, MatchOption};
ghost use Rattle.vm_code.specs.Machine.{operand_limit};

use std::marker::Model;

/// How many operands may be pending.
pub const OPERAND_LIMIT: usize = 32;

/// The pending words of a call. Contracts see them as a list with the topmost one first.
#[derive(Drop)]
pub struct Operands {
    words: [u64; 32],
    count: usize,
}

impl Model for Operands {
    ghost use Rattle.std.specs.Prelude.{List, ℕ, ◌≤◌, take, reverse};

    ghost Value = { List ℕ };

    ghost view = { λ o. reverse (take o.count o.words) };

    ghost invariant = { λ o. o.count ≤ 32 };
}

impl Operands {
    pub fn new() -> Operands
        ensures { result ≡ [] }
    {
        Operands {
            words: [0; 32],
            count: 0,
        }
    }

    pub fn len(&self) -> usize
        ensures value { result ≡ length self.now }
        ensures few { result ≤ 32 }
    {
        self.count
    }

    /// Puts a word on top, if there is room.
    pub fn push(&mut self, word: u64) -> bool
        ensures room { result ≡ nat_le (length (word ∷ self.old)) operand_limit }
        ensures after { self.new ≡ (if result then word ∷ self.old else self.old) }
    {
        if self.count >= OPERAND_LIMIT {
            return false;
        }
        self.words[self.count] = word;
        self.count += 1;
        true
    }

    /// The topmost word.
    pub fn peek(&self) -> Option<u64>
        ensures { MatchOption result (self.now ≡ []) (λ x. self.now ≡ x ∷ drop 1 self.now) }
    {
        if self.count == 0 {
            return None;
        }
        Some(self.words[self.count - 1])
    }

    /// Takes the topmost word.
    pub fn pop(&mut self) -> Option<u64>
        ensures taken { MatchOption result (self.old ≡ []) (λ x. self.old ≡ x ∷ self.new) }
        ensures fits { nat_le (length self.new) operand_limit ≡ true }
    {
        if self.count == 0 {
            return None;
        }
        self.count -= 1;
        Some(self.words[self.count])
    }

    /// The topmost words, the lowest of them first.
    pub fn top(&self, n: usize) -> &[u64]
        requires { n ≤ length self.now }
        ensures { result.now ≡ reverse (take n self.now) }
    {
        &self.words[self.count - n..self.count]
    }

    /// The words below the topmost ones, the lowest of them first.
    pub fn below(&self, n: usize) -> &[u64]
        requires { n ≤ length self.now }
        ensures words { result.now ≡ reverse (drop n self.now) }
        ensures few { length result.now ≤ 32 }
    {
        &self.words[..self.count - n]
    }

    /// Takes the topmost words away.
    pub fn cut(&mut self, n: usize)
        requires { n ≤ length self.old }
        ensures after { self.new ≡ drop n self.old }
    {
        self.count -= n;
    }

    /// Takes all words away.
    pub fn clear(&mut self)
        ensures { self.new ≡ [] }
    {
        self.count = 0;
    }
}
