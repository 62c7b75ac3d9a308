//! Structures (C11, 6.7.2.1 and 6.7.2.3).

ghost use Rattle.std.specs.Prelude.{◌≡◌, IfOk, OnOk};
ghost use Rattle.c_judge.specs.State.{Gives};
ghost use Rattle.c_judge.specs.Structures as structures;
ghost use Rattle.c_judge.specs.Structures.{fresh, no_members, with_member, member_rule, has_member, laid_out};
ghost use Rattle.c_types.specs.Sizes.{alignment_of, base_align};

use crate::gathered::Specified;
use crate::shapes::Made;
use crate::{Built, Checker};
use am_base::Bytes;
use c_ast::Name;
use c_types::{Base, CType, Member, Part, StructDraft, StructLayout, StructType, Tagged};
use c_typing::{Rule, is_const, lesser, measured};
use rank_range::Width;
use sqlite_items::Items;
use std::alloc::{AllocError, Global};

/// How many bytes an object may have, which is this profile's own.
const LIMIT: u64 = 1_048_576;

/// The members of a structure so far.
#[derive(Drop)]
pub struct Members {
    /// Nothing where a member has a broken rule.
    pub draft: Option<StructDraft>,
    /// Whether one is `const`, or a structure with a member that is.
    pub is_fixed: bool,
}

/// The type of a structure.
pub fn struct_type(alloc: Global, number: u32) -> CType
    ensures { result ≡ structures.struct_type number }
{
    CType {
        base: Base::Struct(number),
        is_const: false,
        parts: Items::new(alloc),
    }
}

impl Checker {
    /// A new structure, which is incomplete.
    fn fresh(&mut self, tag: Option<Bytes>) -> Result<u32, AllocError>
        ensures { Gives result self.new (fresh tag self.old) }
    {
        let number = (self.sight.structs.len() % 0x1_0000_0000) as u32;
        self.sight.structs.push(StructType { tag, layout: None })?;
        self.sight.begun.push(false)?;
        self.sight.fixed.push(false)?;
        Ok(number)
    }

    /// A new structure with a tag, which is declared in the innermost scope.
    fn declare_struct(&mut self, alloc: Global, name: &Name) -> Result<u32, AllocError>
        ensures { Gives result self.new (structures.declared_struct name.now.text self.old) }
    {
        let tag = Bytes::from_slice(alloc, name.text.as_slice())?;
        let number = self.fresh(Some(tag))?;
        let tag = Bytes::from_slice(alloc, name.text.as_slice())?;
        self.sight.declare_tag(tag, Tagged::Struct(number))?;
        Ok(number)
    }

    /// `struct name`; `is_alone` where it is all of a declaration, which then declares the tag in the innermost scope.
    pub fn refer_struct(
        &mut self,
        alloc: Global,
        is_alone: bool,
        name: &Name,
    ) -> Result<Specified, AllocError>
        ensures { Gives result self.new (structures.referred_struct is_alone name.now self.old) }
    {
        let tag = name.text.as_slice();
        let tagged = if is_alone {
            self.sight.tag_here(tag)
        } else {
            self.sight.tag(tag)
        };
        match tagged {
            Some(Tagged::Struct(number)) => Ok(known_struct(alloc, number)),
            Some(Tagged::Enum) => {
                self.note(name.token, Rule::DeclaredDifferently);
                Ok(Specified::Unknown)
            }
            None => {
                let number = self.declare_struct(alloc, name)?;
                Ok(known_struct(alloc, number))
            }
        }
    }

    /// The structure whose members begin.
    pub fn begin_struct(&mut self, alloc: Global, name: &Option<Name>) -> Result<u32, AllocError>
        ensures { Gives result self.new (structures.begun_struct name.now self.old) }
    {
        let number = match name {
            Some(name) => self.tagged_struct(alloc, name)?,
            None => self.fresh(None)?,
        };
        self.mark_begun(number);
        Ok(number)
    }

    fn mark_begun(&mut self, number: u32)
        ensures { self.new ≡ structures.with_begun number self.old }
    {
        let at = number as usize;
        if at < self.sight.begun.len() {
            self.sight.begun.set(at, true);
        }
    }

    fn tagged_struct(&mut self, alloc: Global, name: &Name) -> Result<u32, AllocError>
        ensures { Gives result self.new (structures.tagged_struct name.now self.old) }
    {
        match self.sight.tag_here(name.text.as_slice()) {
            Some(Tagged::Struct(number)) => {
                if !self.has_begun(number) {
                    return Ok(number);
                }
                self.note(name.token, Rule::DeclaredTwice);
                self.fresh(None)
            }
            Some(Tagged::Enum) => {
                self.note(name.token, Rule::DeclaredDifferently);
                self.fresh(None)
            }
            None => self.declare_struct(alloc, name),
        }
    }

    fn has_begun(&self, number: u32) -> bool
        ensures { result ≡ structures.has_begun self.now number }
    {
        match self.sight.begun.get(number as usize) {
            Some(begun) => *begun,
            None => false,
        }
    }

    /// One more member.
    pub fn add_member(
        &mut self,
        alloc: Global,
        name: &Name,
        made: Made,
        members: Members,
    ) -> Result<Members, AllocError>
        ensures { Gives result self.new (structures.added_member name.now made members self.old) }
    {
        let Made { of, rule } = made;
        let Members { draft, is_fixed } = members;
        let own = member_rule(self.sight.structs.as_slice(), &of);
        let twice = twice_rule(&draft, name.text.as_slice());
        if let Some(rule) = lesser(twice, lesser(rule, own)) {
            drop(of);
            drop(draft);
            self.note(name.token, rule);
            return Ok(Members {
                draft: None,
                is_fixed,
            });
        }
        self.push_member(alloc, name, of, draft, is_fixed)
    }

    fn push_member(
        &self,
        alloc: Global,
        name: &Name,
        of: Option<Built>,
        draft: Option<StructDraft>,
        is_fixed: bool,
    ) -> Result<Members, AllocError>
        ensures { IfOk result (λ m. m ≡ structures.pushed_member self.now name.now.text of draft is_fixed) }
    {
        match (of, draft) {
            (Some(Built::Object(of)), Some(draft)) => {
                let fixed = is_fixed || self.is_fixed(&of);
                let draft = with_member(alloc, self.sight.structs.as_slice(), name, of, draft)?;
                Ok(Members {
                    draft: Some(draft),
                    is_fixed: fixed,
                })
            }
            (Some(of), draft) => {
                drop(of);
                drop(draft);
                Ok(Members {
                    draft: None,
                    is_fixed,
                })
            }
            (None, draft) => {
                drop(draft);
                Ok(Members {
                    draft: None,
                    is_fixed,
                })
            }
        }
    }

    /// Whether a place of the type may not be assigned, for its own or a member's sake. An array is as its elements.
    fn is_fixed(&self, of: &CType) -> bool
        ensures { result ≡ structures.is_fixed_type self.now of.now }
    {
        is_const(of) || self.is_fixed_base(of)
    }

    fn is_fixed_base(&self, of: &CType) -> bool
        ensures { result ≡ structures.is_fixed_base self.now of.now }
    {
        let mut fixed = match of.base {
            Base::Struct(number) => match self.sight.fixed.get(number as usize) {
                Some(fixed) => *fixed,
                None => false,
            },
            Base::Void | Base::Whole(_) => false,
        };
        for part in of.parts.as_slice() {
            fixed = match part {
                Part::Pointer { .. } => false,
                Part::Array(_) | Part::OpenArray => fixed,
            };
        }
        fixed
    }

    /// The structure with its members, or nothing where a member has a broken rule or it is too large, which is told at a token.
    pub fn finish_struct(
        &mut self,
        alloc: Global,
        number: u32,
        place: u32,
        members: Members,
    ) -> Result<Specified, AllocError>
        ensures { Gives result self.new (structures.finished_struct number place members self.old) }
    {
        let Members { draft, is_fixed } = members;
        let Some(draft) = draft else {
            return Ok(Specified::Unknown);
        };
        let StructDraft { members, rooms } = draft;
        if rooms.end > LIMIT || rooms.padded() > LIMIT {
            drop(members);
            self.note(place, Rule::TooLarge);
            return Ok(Specified::Unknown);
        }
        let layout = StructLayout {
            members,
            size: rooms.padded(),
            align: rooms.align,
        };
        self.lay_out(alloc, number, layout, is_fixed)?;
        Ok(known_struct(alloc, number))
    }

    fn lay_out(
        &mut self,
        alloc: Global,
        number: u32,
        layout: StructLayout,
        is_fixed: bool,
    ) -> Result<(), AllocError>
        ensures { OnOk result (self.new ≡ laid_out number layout is_fixed self.old) }
    {
        let at = number as usize;
        let tag = match copied_tag(alloc, self.sight.structs.as_slice(), at) {
            Ok(tag) => tag,
            Err(error) => {
                drop(layout);
                return Err(error);
            }
        };
        let of = StructType {
            tag,
            layout: Some(layout),
        };
        if at < self.sight.structs.len() {
            self.sight.structs.set(at, of);
        } else {
            drop(of);
        }
        if at < self.sight.fixed.len() {
            self.sight.fixed.set(at, is_fixed);
        }
        Ok(())
    }
}

/// The tag of a structure, if it has one.
fn copied_tag(alloc: Global, structs: &[StructType], at: usize) -> Result<Option<Bytes>, AllocError>
    ensures { IfOk result (λ t. t ≡ structures.tag_of structs.now at) }
{
    match sqlite_items::at(structs, at) {
        Some(of) => match &of.tag {
            Some(tag) => Ok(Some(Bytes::from_slice(alloc, tag.as_slice())?)),
            None => Ok(None),
        },
        None => Ok(None),
    }
}

fn known_struct(alloc: Global, number: u32) -> Specified
    ensures { result ≡ structures.known_struct number }
{
    Specified::Known(Built::Object(struct_type(alloc, number)))
}

/// A structure before its first member.
pub fn no_members(alloc: Global) -> Members
    ensures { result ≡ no_members }
{
    Members {
        draft: Some(StructDraft::new(alloc)),
        is_fixed: false,
    }
}

/// A member is an object of a complete type (C11, 6.7.2.1p3).
fn member_rule(structs: &[StructType], of: &Option<Built>) -> Option<Rule>
    ensures { result ≡ member_rule structs.now of.now }
{
    match of {
        Some(Built::Object(of)) => {
            if measured(of, structs).is_none() {
                Some(Rule::Incomplete)
            } else {
                None
            }
        }
        Some(Built::Function(_)) => Some(Rule::Incomplete),
        None => None,
    }
}

fn twice_rule(draft: &Option<StructDraft>, name: &[u8]) -> Option<Rule>
    ensures { result ≡ structures.twice_rule draft.now name.now }
{
    match draft {
        Some(draft) => {
            if has_member(draft.members.as_slice(), name) {
                Some(Rule::DeclaredTwice)
            } else {
                None
            }
        }
        None => None,
    }
}

fn has_member(members: &[Member], name: &[u8]) -> bool
    ensures { result ≡ has_member members.now name.now }
{
    for member in members {
        if member.name.as_slice() == name {
            return true;
        }
    }
    false
}

/// One more member behind the others. Members that have more bytes than an object may have stay where they are.
fn with_member(
    alloc: Global,
    structs: &[StructType],
    name: &Name,
    of: CType,
    draft: StructDraft,
) -> Result<StructDraft, AllocError>
    ensures { IfOk result (λ d. d ≡ with_member structs.now name.now.text of draft) }
{
    let size = measured(&of, structs).unwrap_or(0);
    let align = alignment(&of, structs);
    let StructDraft { members, rooms } = draft;
    let mut members = members;
    let mut rooms = rooms;
    if rooms.end > LIMIT {
        drop(of);
        return Ok(StructDraft { members, rooms });
    }
    let offset = rooms.take(size, align);
    let name = match Bytes::from_slice(alloc, name.text.as_slice()) {
        Ok(name) => name,
        Err(error) => {
            drop(of);
            drop(members);
            return Err(error);
        }
    };
    match members.push(Member { name, of, offset }) {
        Ok(()) => Ok(StructDraft { members, rooms }),
        Err(error) => {
            drop(members);
            Err(error)
        }
    }
}

/// The alignment of a type; that of one that is incomplete is 1.
#[tactic(auto, unfolding(c_types::specs::Sizes::alignment_of))]
pub fn alignment(of: &CType, structs: &[StructType]) -> Width
    ensures { result ≡ alignment_of structs.now of.now }
{
    let mut align = base_alignment(of.base, structs);
    for part in of.parts.as_slice() {
        align = match part {
            Part::Pointer { .. } => Width::Eight,
            Part::Array(_) | Part::OpenArray => align,
        };
    }
    align
}

fn base_alignment(base: Base, structs: &[StructType]) -> Width
    ensures { result ≡ base_align structs.now base }
{
    match base {
        Base::Void => Width::One,
        Base::Whole(kind) => kind.width(),
        Base::Struct(number) => match c_types::layout(structs, number) {
            Some(layout) => layout.align,
            None => Width::One,
        },
    }
}
