//! The trees of a source and its declarations.

use crate::{BlockItem, Expr, Name, Qualifier, Stmt, Storage, TypeWord};
use sqlite_items::{Boxed, Items};

/// A source.
#[derive(Drop)]
pub struct Unit {
    pub externals: Items<External>,
}

/// A declaration outside all functions (C11, 6.9).
#[derive(Drop)]
pub enum External {
    Declaration(Decl),
    Function {
        token: u32,
        specs: Specs<Specifier>,
        declarator: Declarator,
        body: Items<BlockItem<Boxed<Stmt>>>,
    },
}

/// A declaration (C11, 6.7).
#[derive(Drop)]
pub struct Decl {
    pub token: u32,
    pub specs: Specs<Specifier>,
    pub declared: Items<InitDeclarator>,
}

/// A declarator, and its initialiser behind `=`.
#[derive(Drop)]
pub struct InitDeclarator {
    pub declarator: Declarator,
    pub init: Option<Init>,
}

/// An initialiser (C11, 6.7.9).
#[derive(Drop)]
pub enum Init {
    Value(Expr),
    /// `{ init, .. }`
    List { token: u32, items: Items<Init> },
}

/// The specifiers of a declaration in their order, with just one type among them (C11, 6.7).
#[derive(Drop)]
pub struct Specs<S> {
    pub token: u32,
    pub specifiers: Items<S>,
}

#[cycle(ast)]
#[derive(Drop)]
pub enum Specifier {
    Storage(Storage),
    Qualifier(Qualifier),
    Word(TypeWord),
    Struct(StructSpec<Boxed<Member>>),
    Enum(EnumSpec<Boxed<Expr>>),
    TypedefName(Name),
}

/// A structure (C11, 6.7.2.1).
#[derive(Drop)]
pub enum StructSpec<M> {
    /// `struct` name
    Reference {
        token: u32,
        name: Name,
    },
    /// `struct` with its members
    Body {
        token: u32,
        name: Option<Name>,
        members: Items<M>,
    },
}

#[cycle(ast)]
#[derive(Drop)]
pub struct Member {
    pub specs: Specs<Boxed<Specifier>>,
    pub declarators: Items<Declarator>,
}

/// An enumeration (C11, 6.7.2.2).
#[derive(Drop)]
pub enum EnumSpec<E> {
    /// `enum` name
    Reference {
        token: u32,
        name: Name,
    },
    /// `enum` with its constants
    Body {
        token: u32,
        name: Option<Name>,
        enumerators: Items<Enumerator<E>>,
    },
}

#[derive(Drop)]
pub struct Enumerator<E> {
    pub name: Name,
    pub value: Option<E>,
}

/// Pointers, each with its qualifiers, and what is behind them (C11, 6.7.6).
#[cycle(ast)]
#[derive(Drop)]
pub struct Declarator {
    pub token: u32,
    pub pointers: Items<Items<Qualifier>>,
    pub direct: Direct<Boxed<Declarator>>,
    pub suffixes: Items<DirectSuffix>,
}

#[derive(Drop)]
pub enum Direct<D> {
    Name(Name),
    /// `( declarator )`
    Nested { token: u32, inner: D },
}

#[cycle(ast)]
#[derive(Drop)]
pub enum DirectSuffix {
    /// `[ cond ]`, or `[ ]`
    Array { at: u32, size: Option<Boxed<Expr>> },
    /// `()`, which means `(void)`
    Empty { at: u32 },
    /// `(void)`
    Void { at: u32 },
    /// `( param, .. )`
    Params { at: u32, params: Items<Param> },
}

#[cycle(ast)]
#[derive(Drop)]
pub enum Param {
    Named {
        specs: Specs<Boxed<Specifier>>,
        declarator: Boxed<Declarator>,
    },
    Unnamed {
        specs: Specs<Boxed<Specifier>>,
        declarator: Abstract<Boxed<Expr>>,
    },
}

/// How many pointers, and arrays with or without a size (C11, 6.7.7).
#[derive(Drop)]
pub struct Abstract<E> {
    pub pointers: u32,
    pub sizes: Items<Option<E>>,
}

/// A type name (C11, 6.7.7).
#[cycle(ast)]
#[derive(Drop)]
pub struct TypeName {
    pub specs: Specs<Boxed<Specifier>>,
    pub declarator: Abstract<Boxed<Expr>>,
}
