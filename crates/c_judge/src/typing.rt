//! Types, by recursion over the trees of specifiers and declarators.

ghost use Rattle.std.specs.Prelude.{◌≡◌, map, [], Some, None, IfOk};
ghost use Rattle.c_judge.specs.State.{Gives};
ghost use Rattle.c_judge.specs.Gathered.{nothing};
ghost use Rattle.c_judge.specs.Structures.{no_members};
ghost use Rattle.c_judge.specs.Judging as judging;
ghost use Rattle.c_judge.specs.Judging.{specifier, declarator, suffix, parameter, members, type_name, expression};
ghost use Rattle.c_judge.specs.Parts.{enumerator_of, sizes_of, direct_of, struct_of, enum_of, size_of};

use crate::constants::next_value;
use crate::gathered::{Gathered, Specified, copied_built, type_named};
use crate::parameters::parameters_of;
use crate::shapes::{Made, applied};
use crate::structures::{Members, no_members};
use crate::{Built, Checker, Extent, Mode, ParamType, Shape};
use c_ast::{
    Abstract, Declarator, Direct, DirectSuffix, EnumSpec, Enumerator, Expr, Member, Name, Param,
    Qualifier, Specifier, StructSpec, TypeName,
};
use c_const::first_token;
use c_types::{Base, CType};
use rank_range::Kind;
use sqlite_items::{Boxed, Items};
use std::alloc::{AllocError, Global};

/// Where specifiers stand: the token of the first declared name of their declaration, or their own first token where no name
/// is declared; and whether they are all of the declaration.
#[derive(Clone, Copy)]
pub struct Standing {
    pub place: u32,
    pub is_alone: bool,
}

impl Mode {
    /// That of a constant expression.
    pub fn constant() -> Mode
        ensures { result ≡ judging.constant_mode }
    {
        Mode {
            is_used: true,
            is_evaluated: true,
        }
    }
}

impl Checker {
    /// The type that a type name is.
    #[cycle(judge)]
    pub fn type_name(&mut self, alloc: Global, of: &TypeName) -> Result<Option<Built>, AllocError>
        ensures { Gives result self.new (type_name of.now self.old) }
    {
        let at = Standing {
            place: of.specs.token,
            is_alone: false,
        };
        let gathered = self.specify(alloc, of.specs.specifiers.as_slice(), at)?;
        let built = gathered.built(alloc);
        match self.abstract_shapes(alloc, &of.declarator) {
            Ok(shapes) => self.made_at(of.specs.token, built, shapes),
            Err(error) => {
                drop(built);
                Err(error)
            }
        }
    }

    fn made_at(
        &mut self,
        token: u32,
        of: Option<Built>,
        shapes: Items<Shape>,
    ) -> Result<Option<Built>, AllocError>
        ensures { Gives result self.new (judging.made_at token of shapes self.old) }
    {
        let Made { of, rule } = applied(self.sight.structs.as_slice(), of, shapes)?;
        if let Some(rule) = rule {
            self.note(token, rule);
        }
        Ok(of)
    }

    /// What specifiers say, one behind the other.
    #[cycle(judge)]
    pub fn specify(
        &mut self,
        alloc: Global,
        specifiers: &[Boxed<Specifier>],
        at: Standing,
    ) -> Result<Gathered, AllocError>
        ensures { Gives result self.new (judging.specify_all (map specifier specifiers.now) at nothing self.old) }
    {
        let mut gathered = Gathered::nothing();
        for one in specifiers {
            gathered = self.specifier(alloc, one.get(), at, gathered)?;
        }
        Ok(gathered)
    }

    #[cycle(judge)]
    pub fn specifier(
        &mut self,
        alloc: Global,
        one: &Specifier,
        at: Standing,
        gathered: Gathered,
    ) -> Result<Gathered, AllocError>
        ensures { Gives result self.new (specifier one.now at gathered self.old) }
    {
        let of = match one {
            Specifier::Storage(storage) => return Ok(gathered.with_storage(*storage)),
            Specifier::Qualifier(qualifier) => return Ok(gathered.with_qualifier(*qualifier)),
            Specifier::Word(word) => return Ok(gathered.with_word(*word)),
            Specifier::TypedefName(name) => {
                return self.named_specifier(alloc, name, gathered);
            }
            Specifier::Struct(of) => self.struct_specified(alloc, of, at),
            Specifier::Enum(of) => self.enum_specified(alloc, of),
        };
        match of {
            Ok(of) => Ok(gathered.with_type(false, of)),
            Err(error) => {
                drop(gathered);
                Err(error)
            }
        }
    }

    fn named_specifier(
        &self,
        alloc: Global,
        name: &Name,
        gathered: Gathered,
    ) -> Result<Gathered, AllocError>
        ensures { IfOk result (λ g. g ≡ judging.named_specifier name.now gathered self.now) }
    {
        match type_named(
            alloc,
            &self.sight,
            self.known,
            name.token,
            name.text.as_slice(),
        ) {
            Ok(of) => Ok(gathered.with_type(true, of)),
            Err(error) => {
                drop(gathered);
                Err(error)
            }
        }
    }

    #[cycle(judge)]
    fn struct_specified(
        &mut self,
        alloc: Global,
        of: &StructSpec<Boxed<Member>>,
        at: Standing,
    ) -> Result<Specified, AllocError>
        ensures { Gives result self.new (judging.struct_specified (struct_of of.now) at self.old) }
    {
        match of {
            StructSpec::Reference { token: _, name } => self.refer_struct(alloc, at.is_alone, name),
            StructSpec::Body {
                token: _,
                name,
                members,
            } => {
                let number = self.begin_struct(alloc, name)?;
                let members = self.add_members(alloc, members.as_slice())?;
                self.finish_struct(alloc, number, tag_place(name, at), members)
            }
        }
    }

    #[cycle(judge)]
    fn add_members(
        &mut self,
        alloc: Global,
        declarations: &[Boxed<Member>],
    ) -> Result<Members, AllocError>
        ensures { Gives result self.new (judging.add_members (map members declarations.now) no_members self.old) }
    {
        let mut made = no_members(alloc);
        for declaration in declarations {
            made = self.member_declaration(alloc, declaration.get(), made)?;
        }
        Ok(made)
    }

    #[cycle(judge)]
    fn member_declaration(
        &mut self,
        alloc: Global,
        declaration: &Member,
        made: Members,
    ) -> Result<Members, AllocError>
        ensures { Gives result self.new (members declaration.now made self.old) }
    {
        let at = Standing {
            place: first_name(declaration.declarators.as_slice(), declaration.specs.token),
            is_alone: false,
        };
        let specifiers = declaration.specs.specifiers.as_slice();
        match self.specify(alloc, specifiers, at) {
            Ok(gathered) => {
                let base = gathered.built(alloc);
                self.declare_members(alloc, declaration.declarators.as_slice(), base, made)
            }
            Err(error) => {
                drop(made);
                Err(error)
            }
        }
    }

    #[cycle(judge)]
    fn declare_members(
        &mut self,
        alloc: Global,
        declarators: &[Declarator],
        base: Option<Built>,
        made: Members,
    ) -> Result<Members, AllocError>
        ensures { Gives result self.new (judging.declare_members (map declarator declarators.now) base made self.old) }
    {
        let mut members = made;
        for one in declarators {
            members = match self.declare_member(alloc, one, &base, members) {
                Ok(members) => members,
                Err(error) => {
                    drop(base);
                    return Err(error);
                }
            };
        }
        drop(base);
        Ok(members)
    }

    #[cycle(judge)]
    fn declare_member(
        &mut self,
        alloc: Global,
        one: &Declarator,
        base: &Option<Built>,
        members: Members,
    ) -> Result<Members, AllocError>
        ensures { Gives result self.new (judging.declare_member (declarator one.now) base.now members self.old) }
    {
        let shapes = match self.declarator(alloc, one, false, Items::new(alloc)) {
            Ok(shapes) => shapes,
            Err(error) => {
                drop(members);
                return Err(error);
            }
        };
        match self.made_of(alloc, base, shapes) {
            Ok(made) => self.add_member(alloc, declared_name(one), made, members),
            Err(error) => {
                drop(members);
                Err(error)
            }
        }
    }

    /// What shapes make of a type, which stays.
    fn made_of(
        &self,
        alloc: Global,
        base: &Option<Built>,
        shapes: Items<Shape>,
    ) -> Result<Made, AllocError>
        ensures { IfOk result (λ m. m ≡ judging.made_in self.now base.now shapes) }
    {
        match copied_built(alloc, base) {
            Ok(base) => applied(self.sight.structs.as_slice(), base, shapes),
            Err(error) => {
                drop(shapes);
                Err(error)
            }
        }
    }

    #[cycle(judge)]
    fn enum_specified(
        &mut self,
        alloc: Global,
        of: &EnumSpec<Boxed<Expr>>,
    ) -> Result<Specified, AllocError>
        ensures { Gives result self.new (judging.enum_specified (enum_of of.now) self.old) }
    {
        match of {
            EnumSpec::Reference { token: _, name } => {
                if self.refer_enum(name) {
                    Ok(int_type(alloc))
                } else {
                    Ok(Specified::Unknown)
                }
            }
            EnumSpec::Body {
                token: _,
                name,
                enumerators,
            } => {
                self.define_enum(alloc, name)?;
                self.enumerate(alloc, enumerators.as_slice())?;
                Ok(int_type(alloc))
            }
        }
    }

    #[cycle(judge)]
    fn enumerate(
        &mut self,
        alloc: Global,
        enumerators: &[Enumerator<Boxed<Expr>>],
    ) -> Result<Option<u64>, AllocError>
        ensures { Gives result self.new (judging.enumerate (map enumerator_of enumerators.now) (Some 0) self.old) }
    {
        let mut next = Some(0);
        for enumerator in enumerators {
            let value = self.own_value(alloc, &enumerator.value, next)?;
            self.declare_enumerator(alloc, &enumerator.name, value)?;
            next = next_value(value);
        }
        Ok(next)
    }

    #[cycle(judge)]
    fn own_value(
        &mut self,
        alloc: Global,
        value: &Option<Boxed<Expr>>,
        next: Option<u64>,
    ) -> Result<Option<u64>, AllocError>
        ensures { Gives result self.new (judging.own_value (size_of value.now) next self.old) }
    {
        match value {
            Some(value) => {
                let judged = self.expr(alloc, value.get(), Mode::constant())?;
                Ok(self.enumerator_value(first_token(value.get()), judged))
            }
            None => Ok(next),
        }
    }

    /// The shapes that a declarator puts behind others. With `keep` the parameters of the part nearest the name stay in scope.
    #[cycle(judge)]
    pub fn declarator(
        &mut self,
        alloc: Global,
        of: &Declarator,
        keep: bool,
        made: Items<Shape>,
    ) -> Result<Items<Shape>, AllocError>
        ensures { Gives result self.new ((declarator of.now).shape keep made self.old) }
    {
        let inner = match &of.direct {
            Direct::Name(_) => made,
            Direct::Nested { token: _, inner } => {
                self.declarator(alloc, inner.get(), keep, made)?
            }
        };
        let keep = keep && is_bare_direct(&of.direct);
        let behind = self.suffixes(alloc, of.suffixes.as_slice(), keep, inner)?;
        put_pointers(of.pointers.as_slice(), behind)
    }

    #[cycle(judge)]
    fn suffixes(
        &mut self,
        alloc: Global,
        suffixes: &[DirectSuffix],
        keep: bool,
        made: Items<Shape>,
    ) -> Result<Items<Shape>, AllocError>
        ensures { Gives result self.new (judging.suffix_shapes (map suffix suffixes.now) keep made self.old) }
    {
        let mut shapes = made;
        let mut keep = keep;
        for one in suffixes {
            let shape = match self.suffix(alloc, one, keep) {
                Ok(shape) => shape,
                Err(error) => {
                    drop(shapes);
                    return Err(error);
                }
            };
            shapes = put_shape(shapes, shape)?;
            keep = false;
        }
        Ok(shapes)
    }

    #[cycle(judge)]
    fn suffix(&mut self, alloc: Global, of: &DirectSuffix, keep: bool) -> Result<Shape, AllocError>
        ensures { Gives result self.new (suffix of.now keep self.old) }
    {
        match of {
            DirectSuffix::Array { at: _, size } => self.size_shape(alloc, size),
            DirectSuffix::Empty { at: _ } | DirectSuffix::Void { at: _ } => {
                Ok(Shape::Function(Items::new(alloc)))
            }
            DirectSuffix::Params { at: _, params } => {
                let rooms = self.rooms;
                let before = self.sight.open();
                let types = self.list_parameters(alloc, params.as_slice())?;
                if !keep {
                    self.sight.close(before);
                    self.rooms = rooms;
                }
                Ok(parameters_of(types))
            }
        }
    }

    #[cycle(judge)]
    fn size_shape(&mut self, alloc: Global, size: &Option<Boxed<Expr>>) -> Result<Shape, AllocError>
        ensures { Gives result self.new (judging.size_shape (size_of size.now) self.old) }
    {
        match size {
            Some(size) => {
                let judged = self.expr(alloc, size.get(), Mode::constant())?;
                Ok(self.extent(first_token(size.get()), judged))
            }
            None => Ok(Shape::Array(Extent::Open)),
        }
    }

    #[cycle(judge)]
    fn abstract_shapes(
        &mut self,
        alloc: Global,
        of: &Abstract<Boxed<Expr>>,
    ) -> Result<Items<Shape>, AllocError>
        ensures { Gives result self.new (judging.abstract_shape of.now.pointers (sizes_of of.now.sizes) self.old) }
    {
        let mut shapes = Items::new(alloc);
        for size in of.sizes.as_slice() {
            let shape = match self.size_shape(alloc, size) {
                Ok(shape) => shape,
                Err(error) => {
                    drop(shapes);
                    return Err(error);
                }
            };
            shapes = put_shape(shapes, shape)?;
        }
        plain_pointers(shapes, of.pointers)
    }

    #[cycle(judge)]
    fn list_parameters(
        &mut self,
        alloc: Global,
        params: &[Param],
    ) -> Result<Option<Items<CType>>, AllocError>
        ensures { Gives result self.new (judging.list_parameters (map parameter params.now) (judging.is_single params.now) (Some []) self.old) }
    {
        let is_alone = params.len() == 1;
        let mut types = Some(Items::new(alloc));
        for param in params {
            let of = match self.param(alloc, param) {
                Ok(of) => of,
                Err(error) => {
                    drop(types);
                    return Err(error);
                }
            };
            types = self.with_parameter(is_alone, types, of)?;
        }
        Ok(types)
    }

    #[cycle(judge)]
    fn param(&mut self, alloc: Global, param: &Param) -> Result<ParamType, AllocError>
        ensures { Gives result self.new (parameter param.now self.old) }
    {
        match param {
            Param::Named { specs, declarator } => {
                let at = Standing {
                    place: declared_name(declarator.get()).token,
                    is_alone: false,
                };
                let gathered = self.specify(alloc, specs.specifiers.as_slice(), at)?;
                let built = gathered.built(alloc);
                self.param_behind(alloc, declarator.get(), built)
            }
            Param::Unnamed { specs, declarator } => {
                let at = Standing {
                    place: specs.token,
                    is_alone: false,
                };
                let gathered = self.specify(alloc, specs.specifiers.as_slice(), at)?;
                self.unnamed_behind(alloc, specs.token, declarator, gathered)
            }
        }
    }

    #[cycle(judge)]
    fn param_behind(
        &mut self,
        alloc: Global,
        of: &Declarator,
        built: Option<Built>,
    ) -> Result<ParamType, AllocError>
        ensures { Gives result self.new (judging.parameter_behind (declarator of.now) built self.old) }
    {
        let shapes = match self.declarator(alloc, of, false, Items::new(alloc)) {
            Ok(shapes) => shapes,
            Err(error) => {
                drop(built);
                return Err(error);
            }
        };
        let made = applied(self.sight.structs.as_slice(), built, shapes)?;
        self.named_parameter(alloc, declared_name(of), made)
    }

    #[cycle(judge)]
    fn unnamed_behind(
        &mut self,
        alloc: Global,
        token: u32,
        of: &Abstract<Boxed<Expr>>,
        gathered: Gathered,
    ) -> Result<ParamType, AllocError>
        ensures { Gives result self.new (judging.unnamed_behind token of.now.pointers (sizes_of of.now.sizes) gathered self.old) }
    {
        let shapes = match self.abstract_shapes(alloc, of) {
            Ok(shapes) => shapes,
            Err(error) => {
                drop(gathered);
                return Err(error);
            }
        };
        let is_named = gathered.is_named && shapes.as_slice().is_empty();
        let built = gathered.built(alloc);
        let made = applied(self.sight.structs.as_slice(), built, shapes)?;
        self.unnamed_parameter(token, is_named, made)
    }
}

fn tag_place(name: &Option<Name>, at: Standing) -> u32
    ensures { result ≡ judging.tag_place name.now at }
{
    match name {
        Some(name) => name.token,
        None => at.place,
    }
}

/// The token of the first name that is declared, or else this one.
fn first_name(declarators: &[Declarator], token: u32) -> u32
    ensures { result ≡ judging.first_name (map declarator declarators.now) token }
{
    match declarators.first() {
        Some(first) => declared_name(first).token,
        None => token,
    }
}

/// The name that a declarator declares.
#[cycle(name)]
pub fn declared_name(of: &Declarator) -> &Name
    ensures { result.now ≡ (declarator of.now).name }
{
    match &of.direct {
        Direct::Name(name) => name,
        Direct::Nested { token: _, inner } => declared_name(inner.get()),
    }
}

/// Whether nothing stands behind the name yet.
#[cycle(bare)]
pub fn is_bare(of: &Declarator) -> bool
    ensures { result ≡ (declarator of.now).is_bare }
{
    of.suffixes.as_slice().is_empty() && is_bare_direct(&of.direct)
}

#[cycle(bare)]
fn is_bare_direct(direct: &Direct<Boxed<Declarator>>) -> bool
    ensures { result ≡ judging.is_bare_direct (direct_of direct.now) }
{
    match direct {
        Direct::Name(_) => true,
        Direct::Nested { token: _, inner } => is_bare(inner.get()),
    }
}

fn put_shape(shapes: Items<Shape>, shape: Shape) -> Result<Items<Shape>, AllocError>
    ensures { IfOk result (λ ss. ss ≡ judging.with_shape_behind shapes shape) }
{
    let mut shapes = shapes;
    match shapes.push(shape) {
        Ok(()) => Ok(shapes),
        Err(error) => {
            drop(shapes);
            Err(error)
        }
    }
}

/// So many pointers behind other shapes.
fn plain_pointers(shapes: Items<Shape>, count: u32) -> Result<Items<Shape>, AllocError>
    ensures { IfOk result (λ ss. ss ≡ judging.with_plain_pointers shapes count) }
{
    let mut shapes = shapes;
    for _ in 0..count {
        shapes = put_shape(shapes, Shape::Pointer { is_const: false })?;
    }
    Ok(shapes)
}

/// The pointers of a declarator behind other shapes, the last one first.
fn put_pointers(
    pointers: &[Items<Qualifier>],
    shapes: Items<Shape>,
) -> Result<Items<Shape>, AllocError>
    ensures { IfOk result (λ ss. ss ≡ judging.with_pointers shapes pointers.now) }
{
    let mut shapes = shapes;
    let mut left = pointers.len();
    while left > 0 {
        left -= 1;
        let is_const = match sqlite_items::at(pointers, left) {
            Some(qualifiers) => has_const(qualifiers.as_slice()),
            None => false,
        };
        shapes = put_shape(shapes, Shape::Pointer { is_const })?;
    }
    Ok(shapes)
}

fn has_const(qualifiers: &[Qualifier]) -> bool
    ensures { result ≡ judging.has_const qualifiers.now }
{
    for qualifier in qualifiers {
        if let Qualifier::Const = qualifier {
            return true;
        }
    }
    false
}

/// The type of an enumeration, which is `int`.
fn int_type(alloc: Global) -> Specified
    ensures { result ≡ judging.int_type }
{
    Specified::Known(Built::Object(CType {
        base: Base::Whole(Kind::Int),
        is_const: false,
        parts: Items::new(alloc),
    }))
}
