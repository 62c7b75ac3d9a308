//! What the specifiers of a declaration say (C11, 6.7.1 to 6.7.3).

ghost use Rattle.std.specs.Prelude.{◌≡◌, IfOk};
ghost use Rattle.c_judge.specs.Gathered as gathered;

use crate::headers::{KnownHeaders, header_type, item_at};
use crate::{Built, Sight, TypeWords, copied_function};
use am_base::HeaderItem;
use c_ast::{Qualifier, Storage, TypeWord};
use c_types::{CType, Named};
use c_typing::{copied_type, with_const};
use sqlite_items::Items;
use std::alloc::{AllocError, Global};

/// What is said of the type.
#[derive(Drop)]
pub enum Specified {
    /// It is that of the words.
    Words,
    Known(Built),
    /// A part has a broken rule.
    Unknown,
}

/// What specifiers have said so far.
#[derive(Drop)]
pub struct Gathered {
    pub is_typedef: bool,
    pub is_extern: bool,
    pub is_static: bool,
    pub is_const: bool,
    /// Whether the type is told by a typedef's name.
    pub is_named: bool,
    pub words: TypeWords,
    pub of: Specified,
}

impl Gathered {
    pub fn nothing() -> Gathered
        ensures { result ≡ gathered.nothing }
    {
        Gathered {
            is_typedef: false,
            is_extern: false,
            is_static: false,
            is_const: false,
            is_named: false,
            words: TypeWords::none(),
            of: Specified::Words,
        }
    }

    pub fn with_storage(self, storage: Storage) -> Gathered
        ensures { result ≡ gathered.with_storage storage self }
    {
        let mut gathered = self;
        match storage {
            Storage::Typedef => gathered.is_typedef = true,
            Storage::Extern => gathered.is_extern = true,
            Storage::Static => gathered.is_static = true,
            Storage::Auto | Storage::Register | Storage::Inline => {}
        }
        gathered
    }

    pub fn with_qualifier(self, qualifier: Qualifier) -> Gathered
        ensures { result ≡ gathered.with_qualifier qualifier self }
    {
        let mut gathered = self;
        match qualifier {
            Qualifier::Const => gathered.is_const = true,
            Qualifier::Volatile | Qualifier::Restrict => {}
        }
        gathered
    }

    pub fn with_word(self, word: TypeWord) -> Gathered
        ensures { result ≡ gathered.with_type_word word self }
    {
        let mut gathered = self;
        gathered.words = gathered.words.with(word);
        gathered
    }

    /// The type is this one, told by a typedef's name or not.
    pub fn with_type(self, is_named: bool, of: Specified) -> Gathered
        ensures { result ≡ gathered.with_type is_named of self }
    {
        let Gathered {
            is_typedef,
            is_extern,
            is_static,
            is_const,
            is_named: _,
            words,
            of: before,
        } = self;
        drop(before);
        Gathered {
            is_typedef,
            is_extern,
            is_static,
            is_const,
            is_named,
            words,
            of,
        }
    }

    /// The type that the specifiers are, if no part has a broken rule.
    pub fn built(self, alloc: Global) -> Option<Built>
        ensures { result ≡ gathered.built_of self }
    {
        let Gathered {
            is_const,
            words,
            of,
            ..
        } = self;
        match of {
            Specified::Words => Some(Built::Object(CType {
                base: words.base(),
                is_const,
                parts: Items::new(alloc),
            })),
            Specified::Known(Built::Object(of)) => Some(Built::Object(if is_const {
                with_const(of)
            } else {
                of
            })),
            Specified::Known(Built::Function(of)) => Some(Built::Function(of)),
            Specified::Unknown => None,
        }
    }
}

/// The type of a typedef's name.
#[tactic(auto, unfolding(crate::specs::Gathered::type_named))]
pub fn type_named(
    alloc: Global,
    sight: &Sight,
    known: KnownHeaders,
    token: u32,
    name: &[u8],
) -> Result<Specified, AllocError>
    ensures { IfOk result (λ s. s ≡ gathered.type_named sight.now known token name.now) }
{
    match sight.look_up(name) {
        Some(Some(named)) => type_by(alloc, named),
        Some(None) => Ok(Specified::Unknown),
        None => match item_at(known, token, name) {
            Some(HeaderItem::TypeName(of)) => {
                Ok(Specified::Known(Built::Object(header_type(alloc, of)?)))
            }
            Some(_) | None => Ok(Specified::Unknown),
        },
    }
}

fn type_by(alloc: Global, named: &Named) -> Result<Specified, AllocError>
    ensures { IfOk result (λ s. s ≡ gathered.type_by named.now) }
{
    match named {
        Named::Type(of) => Ok(Specified::Known(Built::Object(copied_type(alloc, of)?))),
        Named::FunctionType(of) => Ok(Specified::Known(Built::Function(copied_function(
            alloc, of,
        )?))),
        Named::Constant { kind: _, value: _ }
        | Named::NullPointer(_)
        | Named::Local { offset: _, of: _ }
        | Named::Object { number: _, of: _ }
        | Named::Function { number: _, of: _ }
        | Named::Library { call: _, of: _ }
        | Named::Mpi { call: _, of: _ } => Ok(Specified::Unknown),
    }
}

/// The same type.
pub fn copied_built(alloc: Global, of: &Option<Built>) -> Result<Option<Built>, AllocError>
    ensures { IfOk result (λ b. b ≡ of.now) }
{
    match of {
        Some(Built::Object(of)) => Ok(Some(Built::Object(copied_type(alloc, of)?))),
        Some(Built::Function(of)) => Ok(Some(Built::Function(copied_function(alloc, of)?))),
        None => Ok(None),
    }
}
