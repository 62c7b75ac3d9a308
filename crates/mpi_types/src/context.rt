//! The contexts of communicators.

ghost use Rattle.std.specs.Prelude.{◌≡◌, ◌≤◌, ◌<◌, ◌↔◌, [], ◌∷◌, ◌++◌, length, IsTrue, IfOk};

use std::alloc::{AllocError, Global};
use std::marker::Model;

/// How many levels a context may have. This is this profile's own limit.
pub const DEEPEST: usize = 16;

/// How a communicator was made of the one above it: by its collective of this position, counted from 0, with this
/// colour. A duplicate has colour 0.
#[derive(Clone, Copy, Debug, PartialEq, Eq)]
pub struct Level {
    pub position: u32,
    pub colour: i32,
}

/// A communicator's context: the path that led to it from the world, whose own path is empty. Messages of different
/// contexts never meet (MPI 3.1, section 6.1.2).
#[derive(Debug, Drop)]
pub struct Ctx {
    levels: Vec<Level>,
}

impl Model for Ctx {
    ghost use Rattle.std.specs.Prelude.{List, length, ◌≤◌};
    ghost use Rattle.mpi_types.specs.declared.context.Level.{Level};

    ghost Value = { List Level };

    ghost view = { λ c. c.levels.items };

    ghost invariant = { λ c. length c.levels.items ≤ 16 };
}

impl Ctx {
    /// The world's context.
    pub fn world(alloc: Global) -> Ctx
        ensures { result ≡ [] }
    {
        Ctx {
            levels: Vec::new(alloc),
        }
    }

    /// The levels from the world on.
    pub fn levels(&self) -> &[Level]
        ensures value { result.now ≡ self.now }
        ensures short { length self.now ≤ DEEPEST }
    {
        self.levels.as_slice()
    }

    pub fn depth(&self) -> usize
        ensures value { result ≡ length self.now }
        ensures short { result ≤ DEEPEST }
    {
        self.levels.len()
    }

    /// The context of a communicator that is made of this one's.
    pub fn child(&self, alloc: Global, level: Level) -> Result<Ctx, AllocError>
        requires { length self.now < DEEPEST }
        ensures { IfOk result (λ c. c ≡ self.now ++ level ∷ []) }
    {
        let mut levels = Vec::from_slice(alloc, self.levels.as_slice())?;
        levels.push(level)?;
        Ok(Ctx { levels })
    }

    pub fn copied(&self, alloc: Global) -> Result<Ctx, AllocError>
        ensures { IfOk result (λ c. c ≡ self.now) }
    {
        let levels = Vec::from_slice(alloc, self.levels.as_slice())?;
        Ok(Ctx { levels })
    }

    pub fn is_same(&self, other: &Ctx) -> bool
        ensures { IsTrue result ↔ (self.now ≡ other.now) }
    {
        self.levels.as_slice() == other.levels.as_slice()
    }
}
