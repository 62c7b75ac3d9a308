//! The copies that a processor keeps.

ghost use Rattle.std.specs.Prelude.{◌≡◌, [], IfOk, OnOk, OnErr, option_copied};
ghost use Rattle.buddy_ckpt.specs.Copies.{with_copy, place_in, image_of, is_there};

use am_base::RankId;
use rank_image::ImageBytes;
use std::alloc::{AllocError, Global};
use std::marker::Model;
use std::mem;

/// A copy of a rank.
#[derive(Debug, Drop)]
pub struct Copy {
    pub rank: RankId,
    pub image: ImageBytes,
}

/// The copies that a processor keeps: new ones, and those of the last commit.
#[derive(Debug, Drop)]
pub struct Store {
    fresh: Vec<Copy>,
    committed: Vec<Copy>,
}

impl Model for Store {
    ghost use Rattle.buddy_ckpt.specs.Copies.{Kept};

    ghost Value = { Kept };

    ghost view = { λ s. record { fresh = s.fresh.items; committed = s.committed.items } };
}

impl Store {
    /// A store of no copies.
    pub fn new(alloc: Global) -> Result<Store, AllocError>
        ensures { IfOk result (λ s. s ≡ record { fresh = []; committed = [] }) }
    {
        Ok(Store {
            fresh: Vec::new(alloc),
            committed: Vec::new(alloc),
        })
    }

    /// Keeps a new copy of the rank, in the place of one that is there.
    ///
    /// # Errors
    ///
    /// Only want of memory. The store is then as it was.
    pub fn keep_new(&mut self, r: RankId, image: ImageBytes) -> Result<(), AllocError>
        ensures ok { OnOk result (self.new ≡ record { fresh = with_copy (record { rank = r; image = image }) self.old.fresh; committed = self.old.committed }) }
        ensures err { OnErr result (self.new ≡ self.old) }
    {
        put_copy(&mut self.fresh, Copy { rank: r, image })
    }

    /// Drops the new copies.
    pub fn drop_new(&mut self)
        ensures { self.new ≡ record { fresh = []; committed = self.old.committed } }
    {
        self.fresh.clear();
    }

    /// Whether a new copy of the rank is kept.
    pub fn has_new(&self, r: RankId) -> bool
        ensures { result ≡ is_there (image_of r.0 self.now.fresh) }
    {
        find(self.fresh.as_slice(), r).is_some()
    }

    /// The new copies become those of the last commit.
    pub fn turn(&mut self)
        ensures { self.new ≡ record { fresh = []; committed = self.old.fresh } }
    {
        mem::swap(&mut self.fresh, &mut self.committed);
        self.fresh.clear();
    }

    /// The copy of the rank that the last commit left.
    pub fn old(&self, r: RankId) -> Option<&ImageBytes>
        ensures { option_copied result ≡ image_of r.0 self.now.committed }
    {
        find(self.committed.as_slice(), r)
    }
}

/// Puts a copy in the place of that of its rank, or behind the others where there is none.
fn put_copy(copies: &mut Vec<Copy>, copy: Copy) -> Result<(), AllocError>
    ensures ok { OnOk result (copies.new.items ≡ with_copy copy copies.old.items) }
    ensures err { OnErr result (copies.new.items ≡ copies.old.items) }
{
    let place = place_of(copies.as_slice(), copy.rank);
    if place < copies.len() {
        copies[place] = copy;
        return Ok(());
    }
    copies.push(copy)?;
    Ok(())
}

/// The image of the rank's copy.
fn find(copies: &[Copy], r: RankId) -> Option<&ImageBytes>
    ensures { option_copied result ≡ image_of r.0 copies.now }
{
    match copies.get(place_of(copies, r)) {
        Some(copy) => Some(&copy.image),
        None => None,
    }
}

/// Where the copy of the rank stands, or how many copies there are where there is none.
fn place_of(copies: &[Copy], r: RankId) -> usize
    ensures { result ≡ place_in r.0 copies.now }
{
    for (place, copy) in copies.iter().enumerate() {
        if copy.rank.0 == r.0 {
            return place;
        }
    }
    copies.len()
}
