//! Constants, enumerators and parameters (C11, 6.6, 6.7.2.2 and 6.7.6.3).

ghost use Rattle.std.specs.Prelude.{◌≡◌, IfOk, OnOk};
ghost use Rattle.c_judge.specs.State.{Gives};
ghost use Rattle.c_judge.specs.Constants as constants;
ghost use Rattle.c_judge.specs.Constants.{constant_of, adjusted_rule, adjusted, extent_of};

use crate::shapes::Made;
use crate::{Built, Checker, Extent, Shape};
use am_base::Bytes;
use c_ast::Name;
use c_const::Evaluated;
use c_types::{CType, Named, Tagged};
use c_typing::{Class, Judged, Rule, class_of_type, lesser, measured, pointer_to, without_last};
use rank_range::{Kind, convert, extended};
use std::alloc::{AllocError, Global};

/// The type of a parameter.
#[derive(Drop)]
pub enum ParamType {
    Known(CType),
    /// `void` without a name, by a typedef, at the first token of its specifiers: alone it is as `(void)`.
    Void { token: u32 },
    /// A part has a broken rule.
    Unknown,
}

/// What an expression has as a constant.
pub fn constant_of(judged: &Judged) -> Option<Evaluated>
    ensures { result ≡ constant_of judged.now }
{
    match judged {
        Judged::Value(value) => value.constant,
        Judged::Place { of: _, tree: _ } | Judged::Function { of: _, callee: _ } => None,
    }
}

fn extent_of(kind: Kind, word: u64) -> Extent
    ensures { result ≡ extent_of kind word }
{
    if word == 0 || (kind.is_signed() && word >= 0x8000_0000_0000_0000) {
        Extent::Bad
    } else {
        Extent::Count(word)
    }
}

impl Checker {
    /// The value of a constant expression that begins at a token; nothing where a part has a broken rule.
    pub fn constant(&mut self, token: u32, judged: Option<Judged>) -> Option<Evaluated>
        ensures value { result ≡ (constants.constant token judged self.old).0 }
        ensures state { self.new ≡ (constants.constant token judged self.old).1 }
    {
        let judged = judged?;
        let constant = constant_of(&judged);
        drop(judged);
        match constant {
            Some(
                Evaluated {
                    kind,
                    word: Some(word),
                },
            ) => Some(Evaluated {
                kind,
                word: Some(word),
            }),
            Some(
                Evaluated {
                    kind: _,
                    word: None,
                },
            )
            | None => {
                self.note(token, Rule::NotConstant);
                None
            }
        }
    }

    /// An array of so many elements as the expression says that begins at a token.
    pub fn extent(&mut self, token: u32, judged: Option<Judged>) -> Shape
        ensures value { result ≡ (constants.extent_from token judged self.old).0 }
        ensures state { self.new ≡ (constants.extent_from token judged self.old).1 }
    {
        match self.constant(token, judged) {
            Some(
                Evaluated {
                    kind,
                    word: Some(word),
                },
            ) => Shape::Array(extent_of(kind, word)),
            Some(
                Evaluated {
                    kind: _,
                    word: None,
                },
            )
            | None => Shape::Unknown,
        }
    }

    /// The value of an enumerator, which is an `int`.
    pub fn enumerator_value(&mut self, token: u32, judged: Option<Judged>) -> Option<u64>
        ensures value { result ≡ (constants.enumerator_value token judged self.old).0 }
        ensures state { self.new ≡ (constants.enumerator_value token judged self.old).1 }
    {
        match self.constant(token, judged) {
            Some(
                Evaluated {
                    kind,
                    word: Some(word),
                },
            ) => Some(convert(word, kind, Kind::Int)),
            Some(
                Evaluated {
                    kind: _,
                    word: None,
                },
            )
            | None => None,
        }
    }

    /// Declares an enumerator.
    pub fn declare_enumerator(
        &mut self,
        alloc: Global,
        name: &Name,
        value: Option<u64>,
    ) -> Result<(), AllocError>
        ensures { OnOk result (self.new ≡ constants.with_enumerator name.now value self.old) }
    {
        let meaning = match value {
            Some(value) => Some(Named::Constant {
                kind: Kind::Int,
                value,
            }),
            None => None,
        };
        self.declare_name(alloc, name, meaning)
    }

    /// Declares a name that has no linkage. It may be declared once in a scope.
    pub fn declare_name(
        &mut self,
        alloc: Global,
        name: &Name,
        meaning: Option<Named>,
    ) -> Result<(), AllocError>
        ensures { OnOk result (self.new ≡ constants.with_declared name.now meaning self.old) }
    {
        if self.sight.declared_here(name.text.as_slice()).is_some() {
            drop(meaning);
            self.note(name.token, Rule::DeclaredTwice);
            return Ok(());
        }
        match Bytes::from_slice(alloc, name.text.as_slice()) {
            Ok(text) => self.sight.declare(text, meaning),
            Err(error) => {
                drop(meaning);
                Err(error)
            }
        }
    }

    /// The tag of an enumeration that is defined.
    pub fn define_enum(&mut self, alloc: Global, name: &Option<Name>) -> Result<(), AllocError>
        ensures { OnOk result (self.new ≡ constants.with_enum name.now self.old) }
    {
        match name {
            Some(name) => self.define_enum_tag(alloc, name),
            None => Ok(()),
        }
    }

    fn define_enum_tag(&mut self, alloc: Global, name: &Name) -> Result<(), AllocError>
        ensures { OnOk result (self.new ≡ constants.with_enum_tag name.now self.old) }
    {
        match self.sight.tag_here(name.text.as_slice()) {
            Some(Tagged::Enum) => {
                self.note(name.token, Rule::DeclaredTwice);
                Ok(())
            }
            Some(Tagged::Struct(_)) => {
                self.note(name.token, Rule::DeclaredDifferently);
                Ok(())
            }
            None => {
                let tag = Bytes::from_slice(alloc, name.text.as_slice())?;
                self.sight.declare_tag(tag, Tagged::Enum)
            }
        }
    }

    /// `enum name`, which has to be defined; whether it is.
    pub fn refer_enum(&mut self, name: &Name) -> bool
        ensures value { result ≡ (constants.referred_enum name.now self.old).0 }
        ensures state { self.new ≡ (constants.referred_enum name.now self.old).1 }
    {
        match self.sight.tag(name.text.as_slice()) {
            Some(Tagged::Enum) => true,
            Some(Tagged::Struct(_)) => {
                self.note(name.token, Rule::DeclaredDifferently);
                false
            }
            None => {
                self.note(name.token, Rule::Incomplete);
                false
            }
        }
    }
}

/// The enumerator behind one.
pub fn next_value(value: Option<u64>) -> Option<u64>
    ensures { result ≡ constants.next_value value }
{
    match value {
        Some(value) => Some(extended(Kind::Int, value.wrapping_add(1))),
        None => None,
    }
}

/// A parameter is a number or a pointer, which is this profile's own. An array is as a pointer (C11, 6.7.6.3p7).
pub(crate) fn adjusted_rule(class: Class) -> Option<Rule>
    ensures { result ≡ adjusted_rule class }
{
    if class == Class::Array || class.is_scalar() {
        None
    } else {
        Some(Rule::BadParameterOrResult)
    }
}

pub(crate) fn adjusted(of: CType, class: Class) -> Result<CType, AllocError>
    ensures { IfOk result (λ t. t ≡ adjusted of class) }
{
    match class {
        Class::Array => pointer_to(without_last(of)),
        _ => Ok(of),
    }
}
