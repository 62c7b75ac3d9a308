//! Units, one behind the other: the typed program, or the broken rule that is told.

ghost use Rattle.std.specs.Prelude.{◌≡◌, IfOk, OnOk};
ghost use Rattle.std.specs.Option.{option_copied};
ghost use Rattle.c_check.specs.Units as units;
ghost use Rattle.c_check.specs.Units.{Tells};
ghost use Rattle.c_check.specs.declared.units.CheckError.TheVariants.{Memory};

use crate::objects::{empty_object, is_open_array};
use crate::statics::type_of;
use crate::{Begun, Draft, Labels};
use am_base::Bytes;
use c_ast::{External, Unit};
use c_judge::{Broken, Checker, KnownHeaders, Sight, alignment};
use c_types::{Base, CType, Member, Program, Rooms, Scope, StructLayout, StructType};
use c_typing::{Rule, copied_type, measured, without_last};
use rank_range::{Kind, Width};
use sqlite_items::Items;
use std::alloc::{AllocError, Global};
use std::mem;
use thiserror::Error;

/// A unit as it is read: its tree, the first tokens at which headers are known, and the lines of its tokens.
#[derive(Drop)]
pub struct Source {
    pub tree: Unit,
    pub known: KnownHeaders,
    pub lines: Items<u32>,
}

/// Why there is no typed program.
#[derive(Clone, Copy, Debug, PartialEq, Eq, Error)]
pub enum CheckError {
    /// A rule is broken at a token; of all broken rules the one that is least by unit, then token, then number.
    #[error("a rule is broken")]
    Rule { rule: Rule, unit: u8, token: u32 },
    #[error("out of memory")]
    Memory,
}

impl From<AllocError> for CheckError {
    ghost from_gives = { λ _ e. e ≡ Memory };

    fn from(_e: AllocError) -> CheckError {
        CheckError::Memory
    }
}

/// Checks the units of a program.
#[tactic(auto, unfolding(crate::specs::Units::checked))]
pub fn check(alloc: Global, sources: &[Source]) -> Result<Program, CheckError>
    ensures { Tells result (units.checked sources.now) }
{
    let mut draft = start(alloc)?;
    let mut unit = 0;
    for source in sources {
        match draft.unit(alloc, unit, source) {
            Ok(()) => {}
            Err(_) => {
                drop(draft);
                return Err(CheckError::Memory);
            }
        }
        if let Some(Broken { rule, token }) = draft.checker.least {
            drop(draft);
            return Err(CheckError::Rule { rule, unit, token });
        }
        unit = unit.wrapping_add(1);
    }
    Ok(draft.program())
}

impl Draft {
    fn unit(&mut self, alloc: Global, unit: u8, source: &Source) -> Result<(), AllocError>
        ensures { OnOk result (self.new ≡ units.with_unit unit source.now self.old) }
    {
        self.begin_unit(alloc, unit, source.known);
        let externals = source.tree.externals.as_slice();
        self.externals(alloc, source.lines.as_slice(), externals)?;
        self.end_unit(alloc)
    }

    /// Before a unit no name is in scope; structures and what has external linkage are kept.
    fn begin_unit(&mut self, alloc: Global, unit: u8, known: KnownHeaders)
        ensures { self.new ≡ units.begun_unit unit known self.old }
    {
        self.checker.unit = unit;
        self.checker.known = known;
        self.checker.least = None;
        self.checker.sight.file = Scope::new(alloc);
        self.checker.sight.block = Scope::new(alloc);
        self.checker.sight.file_tags = Scope::new(alloc);
        self.checker.sight.block_tags = Scope::new(alloc);
        self.checker.sight.opened = None;
        self.internal = Scope::new(alloc);
        self.begun = Scope::new(alloc);
    }

    fn externals(
        &mut self,
        alloc: Global,
        lines: &[u32],
        externals: &[External],
    ) -> Result<(), AllocError>
        ensures { OnOk result (self.new ≡ units.with_externals lines.now externals.now self.old) }
    {
        for external in externals {
            self.external(alloc, lines, external)?;
        }
        Ok(())
    }

    fn external(&mut self, alloc: Global, lines: &[u32], of: &External) -> Result<(), AllocError>
        ensures { OnOk result (self.new ≡ units.with_external lines.now of.now self.old) }
    {
        match of {
            External::Declaration(of) => {
                let declared = self.declaration(alloc, lines, of)?;
                drop(declared);
                Ok(())
            }
            External::Function {
                token: _,
                specs,
                declarator,
                body,
            } => self.function(
                alloc,
                lines,
                specs.specifiers.as_slice(),
                declarator,
                body.as_slice(),
            ),
        }
    }

    /// At the end of a unit each object that is defined has its size.
    fn end_unit(&mut self, alloc: Global) -> Result<(), AllocError>
        ensures { OnOk result (self.new ≡ units.ended_unit self.old) }
    {
        let begun = mem::replace(&mut self.begun, Scope::new(alloc));
        let done = self.complete_all(alloc, &begun, begun.meanings.as_slice());
        drop(begun);
        done
    }

    fn complete_all(
        &mut self,
        alloc: Global,
        begun: &Scope<Begun>,
        all: &[Begun],
    ) -> Result<(), AllocError>
        ensures { OnOk result (self.new ≡ units.with_all_complete begun.now all.now self.old) }
    {
        for one in all {
            self.complete(alloc, begun, one)?;
        }
        Ok(())
    }

    /// A tentative definition without an initialiser is one with zeros (C11, 6.9.2p2).
    fn complete(
        &mut self,
        alloc: Global,
        begun: &Scope<Begun>,
        one: &Begun,
    ) -> Result<(), AllocError>
        ensures { OnOk result (self.new ≡ units.with_one_complete begun.now one.now self.old) }
    {
        if is_initialised(begun.look_up(one.name.as_slice())) {
            return Ok(());
        }
        let structs = self.checker.sight.structs.as_slice();
        let seen = self.checker.sight.file.look_up(one.name.as_slice());
        let Some(of) = type_of(seen, one.number) else {
            return Ok(());
        };
        let align = alignment(of, structs);
        match tentative_size(alloc, of, structs)? {
            Some(size) => {
                let object = empty_object(alloc, self.at(one.token), one.number, size, align);
                self.put_at(one.place, object);
            }
            None => self.note(one.token, Rule::Incomplete),
        }
        Ok(())
    }

    fn program(self) -> Program
        ensures { result ≡ units.program_of self }
    {
        let Draft {
            checker,
            external,
            internal,
            begun,
            functions,
            defined,
            main,
            result,
            labels,
        } = self;
        drop(external);
        drop(internal);
        drop(begun);
        drop(result);
        drop(labels);
        let Checker {
            sight,
            objects,
            uses,
            ..
        } = checker;
        drop(sight);
        Program {
            functions,
            defined,
            objects,
            uses,
            main,
        }
    }
}

fn is_initialised(last: Option<&Begun>) -> bool
    ensures { result ≡ units.is_initialised (option_copied last.entry) }
{
    match last {
        Some(last) => last.is_initialised,
        None => false,
    }
}

/// How many bytes an object has that is defined tentatively: an array whose size isn't told has one element (C11, 6.9.2p5).
fn tentative_size(
    alloc: Global,
    of: &CType,
    structs: &[StructType],
) -> Result<Option<u64>, AllocError>
    ensures { IfOk result (λ n. n ≡ units.tentative_size structs.now of.now) }
{
    if let Some(size) = measured(of, structs) {
        return Ok(Some(size));
    }
    if !is_open_array(of) {
        return Ok(None);
    }
    let element = without_last(copied_type(alloc, of)?);
    let size = measured(&element, structs);
    drop(element);
    Ok(size)
}

/// Before the first unit there is `MPI_Status` alone.
fn start(alloc: Global) -> Result<Draft, AllocError>
    ensures { IfOk result (λ d. d ≡ units.start) }
{
    let sight = first_sight(alloc)?;
    Ok(Draft {
        checker: Checker {
            unit: 0,
            known: KnownHeaders {
                mpi: None,
                stdio: None,
                stdlib: None,
                strings: None,
            },
            sight,
            least: None,
            rooms: Rooms::none(),
            object_count: 0,
            objects: Items::new(alloc),
            uses: Items::new(alloc),
        },
        external: Scope::new(alloc),
        internal: Scope::new(alloc),
        begun: Scope::new(alloc),
        functions: Items::new(alloc),
        defined: Items::new(alloc),
        main: None,
        result: None,
        labels: Labels::none(alloc, None),
    })
}

fn first_sight(alloc: Global) -> Result<Sight, AllocError>
    ensures { IfOk result (λ s. s ≡ units.first_sight) }
{
    let mut structs = Items::new(alloc);
    let mut begun = Items::new(alloc);
    let mut fixed = Items::new(alloc);
    structs.push(status(alloc)?)?;
    begun.push(true)?;
    fixed.push(false)?;
    Ok(Sight {
        file: Scope::new(alloc),
        block: Scope::new(alloc),
        file_tags: Scope::new(alloc),
        block_tags: Scope::new(alloc),
        structs,
        begun,
        fixed,
        opened: None,
    })
}

/// `MPI_Status` (MPI 3.1, 3.2.5): its public members, and how many bytes came, which is this profile's own.
fn status(alloc: Global) -> Result<StructType, AllocError>
    ensures { IfOk result (λ t. t ≡ units.status) }
{
    let mut members = Items::new(alloc);
    members.push(int_member(alloc, b"MPI_SOURCE", 0)?)?;
    members.push(int_member(alloc, b"MPI_TAG", 4)?)?;
    members.push(int_member(alloc, b"MPI_ERROR", 8)?)?;
    members.push(int_member(alloc, b"ampi_bytes", 12)?)?;
    Ok(StructType {
        tag: None,
        layout: Some(StructLayout {
            members,
            size: 16,
            align: Width::Four,
        }),
    })
}

fn int_member(alloc: Global, name: &[u8], offset: u64) -> Result<Member, AllocError>
    ensures { IfOk result (λ m. m ≡ units.int_member name.now offset) }
{
    let name = Bytes::from_slice(alloc, name)?;
    Ok(Member {
        name,
        of: CType {
            base: Base::Whole(Kind::Int),
            is_const: false,
            parts: Items::new(alloc),
        },
        offset,
    })
}
