//! Parameters (C11, 6.7.6.3) and the rooms of locals in a frame.

ghost use Rattle.std.specs.Prelude.{◌≡◌, IfOk, OnOk};
ghost use Rattle.c_judge.specs.State.{Gives};
ghost use Rattle.c_judge.specs.Parameters as parameters;
ghost use Rattle.c_judge.specs.Parameters.{object_rule, parameters_of};

use crate::constants::{adjusted, adjusted_rule};
use crate::shapes::Made;
use crate::structures::alignment;
use crate::{Built, Checker, ParamType, Shape};
use c_ast::Name;
use c_types::{CType, Named, StructType};
use c_typing::{Rule, class_of_type, copied_type, lesser, measured};
use sqlite_items::Items;
use std::alloc::{AllocError, Global};

/// A frame of so many bytes, which no source has, grows no more.
const FRAME_LIMIT: u64 = 0x8000_0000_0000_0000;

impl Checker {
    /// Takes a room of the frame for a local of the type, and gives its offset.
    pub fn take_room(&mut self, of: &CType) -> u64
        ensures offset { result ≡ parameters.local_offset self.old.sight.structs of.now self.old.rooms }
        ensures taken { self.new ≡ parameters.with_room_taken of.now self.old }
    {
        if self.rooms.end >= FRAME_LIMIT {
            return 0;
        }
        let structs = self.sight.structs.as_slice();
        let size = measured(of, structs).unwrap_or(0);
        let align = alignment(of, structs);
        self.rooms.take(size, align)
    }

    /// The type of a parameter, by what its declarator makes; a rule is told at the token.
    fn parameter_made(&mut self, token: u32, made: Made) -> Result<ParamType, AllocError>
        ensures { Gives result self.new (parameters.parameter_made token made self.old) }
    {
        let Made { of, rule } = made;
        let own = object_rule(self.sight.structs.as_slice(), &of);
        if let Some(rule) = lesser(rule, own) {
            drop(of);
            self.note(token, rule);
            return Ok(ParamType::Unknown);
        }
        parameter_type(self.sight.structs.as_slice(), of)
    }

    /// A parameter with a name, which is a local of its function.
    pub fn named_parameter(
        &mut self,
        alloc: Global,
        name: &Name,
        made: Made,
    ) -> Result<ParamType, AllocError>
        ensures { Gives result self.new (parameters.named_parameter name.now made self.old) }
    {
        let of = self.parameter_made(name.token, made)?;
        match self.name_parameter(alloc, name, &of) {
            Ok(()) => Ok(of),
            Err(error) => {
                drop(of);
                Err(error)
            }
        }
    }

    fn name_parameter(
        &mut self,
        alloc: Global,
        name: &Name,
        of: &ParamType,
    ) -> Result<(), AllocError>
        ensures { OnOk result (self.new ≡ parameters.with_parameter_name name.now of.now self.old) }
    {
        match of {
            ParamType::Known(of) => {
                let offset = self.take_room(of);
                let of = copied_type(alloc, of)?;
                self.declare_name(alloc, name, Some(Named::Local { offset, of }))
            }
            ParamType::Void { token: _ } | ParamType::Unknown => {
                self.declare_name(alloc, name, None)
            }
        }
    }

    /// A parameter without a name, which has its room all the same.
    pub fn unnamed_parameter(
        &mut self,
        token: u32,
        is_named: bool,
        made: Made,
    ) -> Result<ParamType, AllocError>
        ensures { Gives result self.new (parameters.unnamed_parameter token is_named made self.old) }
    {
        if is_lone_void(self.sight.structs.as_slice(), is_named, &made.of) {
            drop(made);
            return Ok(ParamType::Void { token });
        }
        let of = self.parameter_made(token, made)?;
        self.take_room_for(&of);
        Ok(of)
    }

    fn take_room_for(&mut self, of: &ParamType)
        ensures { self.new ≡ parameters.room_for of.now self.old }
    {
        match of {
            ParamType::Known(of) => {
                self.take_room(of);
            }
            ParamType::Void { token: _ } | ParamType::Unknown => {}
        }
    }

    /// One more parameter of a function.
    pub fn with_parameter(
        &mut self,
        is_alone: bool,
        types: Option<Items<CType>>,
        of: ParamType,
    ) -> Result<Option<Items<CType>>, AllocError>
        ensures { Gives result self.new (parameters.with_parameter is_alone types of self.old) }
    {
        match of {
            ParamType::Known(of) => match types {
                Some(types) => {
                    let mut types = types;
                    match types.push(of) {
                        Ok(()) => Ok(Some(types)),
                        Err(error) => {
                            drop(types);
                            Err(error)
                        }
                    }
                }
                None => {
                    drop(of);
                    Ok(None)
                }
            },
            ParamType::Void { token } => {
                if is_alone {
                    return Ok(types);
                }
                drop(types);
                self.note(token, Rule::BadParameterOrResult);
                Ok(None)
            }
            ParamType::Unknown => {
                drop(types);
                Ok(None)
            }
        }
    }
}

/// What keeps a type from being that of a parameter.
fn object_rule(structs: &[StructType], of: &Option<Built>) -> Option<Rule>
    ensures { result ≡ object_rule structs.now of.now }
{
    match of {
        Some(Built::Object(of)) => adjusted_rule(class_of_type(of, structs)),
        Some(Built::Function(_)) => Some(Rule::BadParameterOrResult),
        None => None,
    }
}

fn parameter_type(structs: &[StructType], of: Option<Built>) -> Result<ParamType, AllocError>
    ensures { IfOk result (λ p. p ≡ parameters.parameter_type structs.now of) }
{
    match of {
        Some(Built::Object(of)) => {
            let class = class_of_type(&of, structs);
            Ok(ParamType::Known(adjusted(of, class)?))
        }
        Some(Built::Function(of)) => {
            drop(of);
            Ok(ParamType::Unknown)
        }
        None => Ok(ParamType::Unknown),
    }
}

fn is_lone_void(structs: &[StructType], is_named: bool, of: &Option<Built>) -> bool
    ensures { result ≡ parameters.is_lone_void structs.now is_named of.now }
{
    match of {
        Some(Built::Object(of)) => {
            is_named && class_of_type(of, structs).is_void() && !of.is_const
        }
        Some(Built::Function(_)) | None => false,
    }
}

/// What a parameter list makes of a type.
pub fn parameters_of(types: Option<Items<CType>>) -> Shape
    ensures { result ≡ parameters_of types }
{
    match types {
        Some(types) => Shape::Function(types),
        None => Shape::Unknown,
    }
}
