//! What is known while a unit is checked.

ghost use Rattle.std.specs.Prelude.{◌≡◌, ◌+◌, ◌-◌, ◌<◌, ◌^◌, length, OnOk, Result};
ghost use Rattle.c_typing.specs.Rules.{Tells};
ghost use Rattle.c_typing.specs.declared.judged.Judged.{Judged};
ghost use Rattle.c_typing.specs.declared.rules.Rule.{Rule};
ghost use Rattle.c_judge.specs.State as state;
ghost use Rattle.c_judge.specs.State.{Gives, with_broken, settled, named, with_use, at_token, with_text};

use crate::broken::noted;
use crate::naming::alone;
use crate::{Broken, Found, KnownHeaders, Sight, look_up_name};
use am_base::Bytes;
use c_types::{Base, CType, Initial, Operand, Part, Rooms, StaticObject, TokenAt, Use, Used};
use c_typing::{Judged, Rule, TypeError};
use rank_range::{Kind, Width};
use sqlite_items::Items;
use std::alloc::{AllocError, Global};

/// How many bytes an object may have, which is this profile's own.
const LIMIT: u64 = 1_048_576;

/// What is known while a unit is checked: the names in scope, what the program has so far, and the broken rule that is told.
#[derive(Drop)]
pub struct Checker {
    pub unit: u8,
    pub known: KnownHeaders,
    pub sight: Sight,
    /// The broken rule at the least token, and there the one with the least number.
    pub least: Option<Broken>,
    /// The frame of the function so far.
    pub rooms: Rooms,
    /// How many numbers are taken by objects.
    pub object_count: u32,
    pub objects: Items<StaticObject>,
    pub uses: Items<Use>,
}

/// How an expression stands.
#[derive(Clone, Copy, Debug, PartialEq, Eq)]
pub struct Mode {
    /// Whether its value is used.
    pub is_used: bool,
    /// Whether it is evaluated, or stands in a static initialiser: an operand of `sizeof` isn't (C11, 6.5.3.4p2).
    pub is_evaluated: bool,
}

impl Checker {
    /// Notes a broken rule.
    pub fn note(&mut self, token: u32, rule: Rule)
        ensures { self.new ≡ with_broken token rule self.old }
    {
        self.least = noted(self.least, Broken { token, rule });
    }

    /// A construct, and the rule that it breaks, which is noted.
    pub fn settle(
        &mut self,
        token: u32,
        told: Result<Judged, TypeError>,
    ) -> Result<Option<Judged>, AllocError>
        ensures { (meant : Result Judged Rule) → Tells told meant → Gives result self.new (settled token meant self.old) }
    {
        match told {
            Ok(judged) => Ok(Some(judged)),
            Err(TypeError::Broken(rule)) => {
                self.note(token, rule);
                Ok(None)
            }
            Err(TypeError::Memory) => Err(AllocError),
        }
    }

    /// A name.
    pub fn name(
        &mut self,
        alloc: Global,
        token: u32,
        name: &[u8],
        mode: Mode,
    ) -> Result<Option<Judged>, AllocError>
        ensures { Gives result self.new (named token name.now mode self.old) }
    {
        match look_up_name(alloc, &self.sight, self.known, token, name)? {
            Found::Undeclared => {
                self.note(token, Rule::NotDeclared);
                Ok(None)
            }
            Found::Unknown => Ok(None),
            Found::Judged { judged, used } => match self.use_name(mode.is_evaluated, token, used) {
                Ok(()) => Ok(Some(judged)),
                Err(error) => {
                    drop(judged);
                    Err(error)
                }
            },
        }
    }

    fn use_name(
        &mut self,
        is_evaluated: bool,
        token: u32,
        used: Option<Used>,
    ) -> Result<(), AllocError>
        ensures { OnOk result (self.new ≡ with_use is_evaluated token used self.old) }
    {
        if !is_evaluated {
            return Ok(());
        }
        match used {
            Some(used) => {
                let at = self.at(token);
                self.uses.push(Use { at, used })
            }
            None => Ok(()),
        }
    }

    fn at(&self, token: u32) -> TokenAt
        ensures { result ≡ at_token token self.now }
    {
        TokenAt {
            unit: self.unit,
            token,
        }
    }

    /// A string.
    pub fn text(
        &mut self,
        alloc: Global,
        token: u32,
        bytes: &[u8],
    ) -> Result<Option<Judged>, AllocError>
        requires { length bytes.now < 2 ^ 64 - 1 }
        ensures { Gives result self.new (state.text token bytes.now self.old) }
    {
        let size = bytes.len() as u64 + 1;
        if size > LIMIT {
            self.note(token, Rule::TooLarge);
            return Ok(None);
        }
        let object = self.object_count;
        self.put_text(alloc, token, bytes, size)?;
        let mut parts = Items::new(alloc);
        parts.push(Part::Array(size))?;
        Ok(Some(Judged::Place {
            of: CType {
                base: Base::Whole(Kind::Char),
                is_const: false,
                parts,
            },
            tree: alone(alloc, Operand::Object(object)),
        }))
    }

    fn put_text(
        &mut self,
        alloc: Global,
        token: u32,
        bytes: &[u8],
        size: u64,
    ) -> Result<(), AllocError>
        requires { size ≡ length bytes.now + 1 }
        ensures { OnOk result (self.new ≡ with_text token bytes.now self.old) }
    {
        let initial = Initial {
            bytes: Bytes::from_slice(alloc, bytes)?,
            fixes: Items::new(alloc),
        };
        let object = StaticObject {
            at: self.at(token),
            object: self.object_count,
            size,
            align: Width::One,
            initial,
        };
        self.objects.push(object)?;
        self.object_count = self.object_count.wrapping_add(1);
        Ok(())
    }
}
