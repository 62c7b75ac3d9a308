//! Typedefs and functions that are declared (C11, 6.7 and 6.7.8), and names that are declared as two kinds of thing.

ghost use Rattle.std.specs.Prelude.{◌≡◌, IfOk, OnOk};
ghost use Rattle.std.specs.Option.{option_copied};
ghost use Rattle.c_check.specs.Draft.{Gives};
ghost use Rattle.c_check.specs.Declaring as declaring;
ghost use Rattle.c_check.specs.Declaring.{type_meant, repeats, agrees_with_header};

use crate::redeclared::{functions_agree, is_same};
use crate::{Draft, Linkage, StorageWords};
use am_base::HeaderItem;
use c_ast::Name;
use c_judge::{Built, item_named};
use c_types::{Base, CType, FunctionType, Named, Part};
use c_typing::Rule;
use rank_range::Kind;
use std::alloc::{AllocError, Global};

impl Draft {
    /// Declares the name of a type. It may be declared again with the same type (C11, 6.7p3).
    pub fn declare_typedef(
        &mut self,
        alloc: Global,
        name: &Name,
        of: Built,
    ) -> Result<(), AllocError>
        ensures { OnOk result (self.new ≡ declaring.with_typedef name.now of self.old) }
    {
        if self
            .checker
            .sight
            .declared_here(name.text.as_slice())
            .is_some()
        {
            let is_repeated = repeats(self.checker.sight.declared_here(name.text.as_slice()), &of);
            drop(of);
            self.note_if(!is_repeated, name.token, Rule::DeclaredTwice);
            return Ok(());
        }
        match self.item_here(name) {
            Some(item) => {
                let is_repeated = match item_named(alloc, item) {
                    Ok(named) => repeats_named(named, &of),
                    Err(error) => {
                        drop(of);
                        return Err(error);
                    }
                };
                drop(of);
                self.note_if(!is_repeated, name.token, Rule::DeclaredTwice);
                Ok(())
            }
            None => self.mean(alloc, name, Some(type_meant(of))),
        }
    }

    /// What a header declares by a name outside all functions.
    fn item_here(&self, name: &Name) -> Option<HeaderItem>
        ensures { result ≡ declaring.item_here name.now self.now }
    {
        if self.is_in_block() {
            return None;
        }
        self.header_item(name)
    }

    /// Whether the innermost scope has the name as another kind of thing, or as one without linkage.
    pub fn is_taken(&self, is_function: bool, name: &Name) -> bool
        ensures { result ≡ declaring.is_taken is_function name.now self.now }
    {
        match self.checker.sight.declared_here(name.text.as_slice()) {
            Some(Some(Named::Function { number: _, of: _ })) => !is_function,
            Some(Some(Named::Object { number, of: _ })) => {
                is_function || !self.is_linked_number(name.text.as_slice(), *number)
            }
            Some(None) => false,
            Some(Some(_)) => true,
            None => self.item_here(name).is_some(),
        }
    }

    /// Whether the object with a number has linkage.
    fn is_linked_number(&self, name: &[u8], number: u32) -> bool
        ensures { result ≡ declaring.is_linked_number name.now number self.now }
    {
        self.has_number(Linkage::External, name, number)
            || self.has_number(Linkage::Internal, name, number)
    }

    pub fn has_number(&self, of: Linkage, name: &[u8], number: u32) -> bool
        ensures { result ≡ declaring.has_number of name.now number self.now }
    {
        match self.linked(of, name) {
            Some(link) => link.number == number,
            None => false,
        }
    }

    /// Declares a function, and gives its number if no rule is broken.
    pub fn declare_function(
        &mut self,
        alloc: Global,
        words: StorageWords,
        name: &Name,
        of: FunctionType,
    ) -> Result<Option<u32>, AllocError>
        ensures { Gives result self.new (declaring.function words name.now of self.old) }
    {
        let is_bad = is_main(name) && !is_main_type(&of);
        self.note_if(is_bad, name.token, Rule::BadMain);
        match self.header_item(name) {
            Some(HeaderItem::Library(call)) => {
                self.declare_known(alloc, words, name, HeaderItem::Library(call), of)
            }
            Some(HeaderItem::Mpi(call)) => {
                self.declare_known(alloc, words, name, HeaderItem::Mpi(call), of)
            }
            Some(_) | None => self.declare_own(alloc, words, name, of),
        }
    }

    fn declare_own(
        &mut self,
        alloc: Global,
        words: StorageWords,
        name: &Name,
        of: FunctionType,
    ) -> Result<Option<u32>, AllocError>
        ensures { Gives result self.new (declaring.own_function words name.now of self.old) }
    {
        if self.is_taken(true, name) {
            drop(of);
            self.note(name.token, Rule::DeclaredTwice);
            return Ok(None);
        }
        match self.linkage(words, true, name.text.as_slice()) {
            Some(linkage) => self.link(alloc, linkage, name, Built::Function(of)),
            None => {
                drop(of);
                self.disagree(alloc, name)
            }
        }
    }

    /// A declaration whose linkage disagrees with another one's.
    pub fn disagree(&mut self, alloc: Global, name: &Name) -> Result<Option<u32>, AllocError>
        ensures { Gives result self.new (declaring.disagreed name.now self.old) }
    {
        self.note(name.token, Rule::LinkagesDisagree);
        self.mean(alloc, name, None)?;
        Ok(None)
    }

    /// A function of a header that is declared again.
    fn declare_known(
        &mut self,
        alloc: Global,
        words: StorageWords,
        name: &Name,
        item: HeaderItem,
        of: FunctionType,
    ) -> Result<Option<u32>, AllocError>
        ensures { Gives result self.new (declaring.known_function words name.now item of self.old) }
    {
        if words.is_static {
            drop(of);
            return self.disagree(alloc, name);
        }
        match item_named(alloc, item) {
            Ok(named) => {
                let agrees = agrees_with_header(named, &of);
                drop(of);
                self.note_if(!agrees, name.token, Rule::DeclaredDifferently);
                Ok(None)
            }
            Err(error) => {
                drop(of);
                Err(error)
            }
        }
    }
}

fn type_meant(of: Built) -> Named
    ensures { result ≡ type_meant of }
{
    match of {
        Built::Object(of) => Named::Type(of),
        Built::Function(of) => Named::FunctionType(of),
    }
}

/// Whether a name is declared as the name of the same type.
fn repeats(meaning: Option<&Option<Named>>, of: &Built) -> bool
    ensures { result ≡ declaring.repeats_meaning (option_copied meaning.entry) of.now }
{
    match meaning {
        Some(Some(named)) => repeats_by(named, of),
        Some(None) | None => false,
    }
}

fn repeats_named(named: Named, of: &Built) -> bool
    ensures { result ≡ repeats named of.now }
{
    let is_repeated = repeats_by(&named, of);
    drop(named);
    is_repeated
}

fn repeats_by(named: &Named, of: &Built) -> bool
    ensures { result ≡ repeats named.now of.now }
{
    match named {
        Named::Type(before) => match of {
            Built::Object(of) => is_same(before, of),
            Built::Function(_) => false,
        },
        Named::FunctionType(before) => match of {
            Built::Function(of) => functions_agree(before, of),
            Built::Object(_) => false,
        },
        _ => false,
    }
}

fn agrees_with_header(named: Named, of: &FunctionType) -> bool
    ensures { result ≡ agrees_with_header named of.now }
{
    let agrees = match &named {
        Named::Library {
            call: _,
            of: before,
        }
        | Named::Mpi {
            call: _,
            of: before,
        } => { functions_agree(before, of) }
        _ => false,
    };
    drop(named);
    agrees
}

pub fn is_main(name: &Name) -> bool
    ensures { result ≡ declaring.is_main name.now }
{
    name.text.as_slice() == b"main".as_slice()
}

/// `main` is `int (void)` or `int (int, char **)` (C11, 5.1.2.2.1).
pub fn is_main_type(of: &FunctionType) -> bool
    ensures { result ≡ declaring.is_main_type of.now }
{
    is_int(&of.result) && takes_arguments(of.parameters.as_slice())
}

fn takes_arguments(parameters: &[CType]) -> bool
    ensures { result ≡ declaring.takes_arguments parameters.now }
{
    match parameters {
        [] => true,
        [count, arguments] => is_int(count) && is_argument_list(arguments),
        _ => false,
    }
}

fn is_int(of: &CType) -> bool
    ensures { result ≡ declaring.is_int of.now }
{
    of.base == Base::Whole(Kind::Int) && of.parts.as_slice().is_empty()
}

fn is_argument_list(of: &CType) -> bool
    ensures { result ≡ declaring.is_argument_list of.now }
{
    of.base == Base::Whole(Kind::Char) && !of.is_const && are_two_pointers(of.parts.as_slice())
}

fn are_two_pointers(parts: &[Part]) -> bool
    ensures { result ≡ declaring.are_two_pointers parts.now }
{
    match parts {
        [
            Part::Pointer { is_const: false },
            Part::Pointer { is_const: _ },
        ] => true,
        _ => false,
    }
}
