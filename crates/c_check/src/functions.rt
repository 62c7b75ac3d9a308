//! Definitions of functions (C11, 6.9.1).

ghost use Rattle.std.specs.Prelude.{◌≡◌, IfOk, OnOk, map};
ghost use Rattle.c_judge.specs.Judging.{specifier, declarator};
ghost use Rattle.c_check.specs.Draft.{Gives};
ghost use Rattle.c_check.specs.Functions as functions;
ghost use Rattle.c_check.specs.Functions.{parameters_in, frame_of};
ghost use Rattle.c_check.specs.Running.{item_of};

use crate::declaring::is_main;
use crate::draft::line_at;
use crate::{Draft, Inside, Labels, Linkage, StorageWords};
use am_base::{Bytes, HeaderItem};
use c_ast::{BlockItem, Declarator, Name, Specifier, Stmt};
use c_judge::{Built, Marks, Standing, alignment, declared_name, is_bare};
use c_types::{
    Body, CType, DefinedFunction, Function, FunctionType, Main, Named, Parameter, Rooms, Scope,
    Stmt as Typed, StructType,
};
use c_typing::{Rule, class_of_type, copied_type, measured};
use rank_range::Kind;
use sqlite_items::{Boxed, Items};
use std::alloc::{AllocError, Global};
use std::mem;

/// A frame of so many bytes, which no source has, grows no more.
const FRAME_LIMIT: u64 = 0x8000_0000_0000_0000;

/// The names of the blocks that are open, while a name is declared outside them.
#[derive(Drop)]
struct Aside {
    block: Scope<Option<Named>>,
    opened: Option<Marks>,
}

/// What a definition of a function declares.
#[derive(Drop)]
enum Defined {
    Function(FunctionType),
    /// No function, or one that is told by a typedef (C11, 6.9.1p2).
    Other,
    /// A part has a broken rule.
    Unknown,
}

impl Draft {
    /// A definition of a function. Its parameters and its body are one scope (C11, 6.2.1p4).
    #[tactic(auto, unfolding(crate::specs::Functions::with_function))]
    pub fn function(
        &mut self,
        alloc: Global,
        lines: &[u32],
        specifiers: &[Specifier],
        of: &Declarator,
        body: &[BlockItem<Boxed<Stmt>>],
    ) -> Result<(), AllocError>
        ensures { OnOk result (self.new ≡ functions.with_function lines.now (map specifier specifiers.now) (declarator of.now) (map (item_of lines.now) body.now) self.old) }
    {
        let name = declared_name(of);
        let at = Standing {
            place: name.token,
            is_alone: false,
        };
        let (words, built) = self.specified(alloc, specifiers, at)?;
        self.checker.rooms = Rooms::none();
        let built = self.declared_type(alloc, of, true, built)?;
        let of = function_type(built, is_bare(of), words.is_typedef);
        self.function_behind(alloc, lines, words, name, of, body)?;
        self.close(None);
        Ok(())
    }

    fn function_behind(
        &mut self,
        alloc: Global,
        lines: &[u32],
        words: StorageWords,
        name: &Name,
        of: Defined,
        body: &[BlockItem<Boxed<Stmt>>],
    ) -> Result<(), AllocError>
        ensures { OnOk result (self.new ≡ functions.behind lines.now words name.now of (map (item_of lines.now) body.now) self.old) }
    {
        match of {
            Defined::Function(of) => self.function_of(alloc, lines, words, name, of, body),
            Defined::Other => {
                self.note(name.token, Rule::NotFunction);
                self.mean_aside(alloc, name)
            }
            Defined::Unknown => self.mean_aside(alloc, name),
        }
    }

    /// A name outside all functions that means nothing.
    fn mean_aside(&mut self, alloc: Global, name: &Name) -> Result<(), AllocError>
        ensures { OnOk result (self.new ≡ functions.with_nothing name.now self.old) }
    {
        let aside = self.set_aside(alloc);
        match self.mean(alloc, name, None) {
            Ok(()) => {
                self.put_back(aside);
                Ok(())
            }
            Err(error) => {
                drop(aside);
                Err(error)
            }
        }
    }

    fn set_aside(&mut self, alloc: Global) -> Aside
        ensures aside { result ≡ functions.aside self.old }
        ensures rest { self.new ≡ functions.outside self.old }
    {
        let opened = self.checker.sight.opened;
        self.checker.sight.opened = None;
        Aside {
            block: mem::replace(&mut self.checker.sight.block, Scope::new(alloc)),
            opened,
        }
    }

    fn put_back(&mut self, aside: Aside)
        ensures { self.new ≡ functions.inside aside self.old }
    {
        let Aside { block, opened } = aside;
        self.checker.sight.block = block;
        self.checker.sight.opened = opened;
    }

    fn function_of(
        &mut self,
        alloc: Global,
        lines: &[u32],
        words: StorageWords,
        name: &Name,
        of: FunctionType,
        body: &[BlockItem<Boxed<Stmt>>],
    ) -> Result<(), AllocError>
        ensures { OnOk result (self.new ≡ functions.defined lines.now words name.now of (map (item_of lines.now) body.now) self.old) }
    {
        let heading = match self.heading(alloc, &of) {
            Ok(heading) => heading,
            Err(error) => {
                drop(of);
                return Err(error);
            }
        };
        match self.declare_defined(alloc, words, name, of) {
            Ok(Some(number)) => self.body(alloc, lines, name, number, heading, body),
            Ok(None) => {
                drop(heading);
                Ok(())
            }
            Err(error) => {
                drop(heading);
                Err(error)
            }
        }
    }

    fn heading(&self, alloc: Global, of: &FunctionType) -> Result<Heading, AllocError>
        ensures { IfOk result (λ h. h ≡ functions.heading of.now self.now) }
    {
        let structs = self.checker.sight.structs.as_slice();
        let result = copied_type(alloc, &of.result)?;
        match parameters_in(alloc, structs, of.parameters.as_slice()) {
            Ok(parameters) => Ok(Heading { result, parameters }),
            Err(error) => {
                drop(result);
                Err(error)
            }
        }
    }

    /// Declares a function that is defined, outside all functions.
    fn declare_defined(
        &mut self,
        alloc: Global,
        words: StorageWords,
        name: &Name,
        of: FunctionType,
    ) -> Result<Option<u32>, AllocError>
        ensures { Gives result self.new (functions.declared words name.now of self.old) }
    {
        let aside = self.set_aside(alloc);
        match self.declare_or_repeat(alloc, words, name, of) {
            Ok(number) => {
                self.put_back(aside);
                Ok(number)
            }
            Err(error) => {
                drop(aside);
                Err(error)
            }
        }
    }

    /// A function of a header counts as defined where it is defined again: so it is defined twice.
    fn declare_or_repeat(
        &mut self,
        alloc: Global,
        words: StorageWords,
        name: &Name,
        of: FunctionType,
    ) -> Result<Option<u32>, AllocError>
        ensures { Gives result self.new (functions.declared_or_repeated words name.now of self.old) }
    {
        let is_known = is_function_item(self.header_item(name));
        let number = self.declare_function(alloc, words, name, of)?;
        if !is_known {
            return Ok(number);
        }
        let number = (self.functions.len() % 0x1_0000_0000) as u32;
        let text = Bytes::from_slice(alloc, name.text.as_slice())?;
        self.functions.push(Function {
            name: text,
            body: None,
        })?;
        self.put_defined(name, number)?;
        Ok(Some(number))
    }

    fn put_defined(&mut self, name: &Name, number: u32) -> Result<(), AllocError>
        ensures { OnOk result (self.new ≡ functions.with_defined name.now number self.old) }
    {
        let at = self.at(name.token);
        self.defined.push(DefinedFunction {
            at,
            function: number,
        })
    }

    /// The body of a function.
    fn body(
        &mut self,
        alloc: Global,
        lines: &[u32],
        name: &Name,
        number: u32,
        heading: Heading,
        body: &[BlockItem<Boxed<Stmt>>],
    ) -> Result<(), AllocError>
        ensures { OnOk result (self.new ≡ functions.with_body_of lines.now name.now number heading (map (item_of lines.now) body.now) self.old) }
    {
        let Heading { result, parameters } = heading;
        self.result = Some(result);
        self.labels = Labels::none(alloc, None);
        self.open_body();
        match self.statements(alloc, lines, name, number, body) {
            Ok(stmts) => {
                let body = Body {
                    unit: self.checker.unit,
                    parameters,
                    frame: frame_of(self.checker.rooms),
                    stmts,
                };
                self.put_body(alloc, name, number, body)?;
                self.note_main(lines, name, number);
                Ok(())
            }
            Err(error) => {
                drop(parameters);
                Err(error)
            }
        }
    }

    fn statements(
        &mut self,
        alloc: Global,
        lines: &[u32],
        name: &Name,
        number: u32,
        body: &[BlockItem<Boxed<Stmt>>],
    ) -> Result<Items<Typed>, AllocError>
        ensures { Gives result self.new (functions.statements lines.now name.now number (map (item_of lines.now) body.now) self.old) }
    {
        self.put_defined(name, number)?;
        self.items(alloc, lines, body, Inside::body())
    }

    /// The scope of a function's parameters is open, if it has some.
    fn open_body(&mut self)
        ensures { self.new ≡ functions.with_scope self.old }
    {
        if self.checker.sight.opened.is_none() {
            self.open();
        }
    }

    /// Of several bodies the first one counts.
    fn put_body(
        &mut self,
        alloc: Global,
        name: &Name,
        number: u32,
        body: Body,
    ) -> Result<(), AllocError>
        ensures { OnOk result (self.new ≡ functions.with_body name.now number body self.old) }
    {
        if !self.lacks_body(number) {
            drop(body);
            return Ok(());
        }
        let name = match Bytes::from_slice(alloc, name.text.as_slice()) {
            Ok(name) => name,
            Err(error) => {
                drop(body);
                return Err(error);
            }
        };
        let at = number as usize;
        if at < self.functions.len() {
            self.functions.set(
                at,
                Function {
                    name,
                    body: Some(body),
                },
            );
        }
        Ok(())
    }

    fn lacks_body(&self, number: u32) -> bool
        ensures { result ≡ functions.lacks_body number self.now }
    {
        match self.functions.get(number as usize) {
            Some(function) => function.body.is_none(),
            None => false,
        }
    }

    /// The program begins at its first definition of `main` with external linkage.
    fn note_main(&mut self, lines: &[u32], name: &Name, number: u32)
        ensures { self.new ≡ functions.with_main lines.now name.now number self.old }
    {
        let is_first = self.main.is_none()
            && is_main(name)
            && self.has_number(Linkage::External, name.text.as_slice(), number);
        if is_first {
            self.main = Some(Main {
                function: number,
                unit: self.checker.unit,
                line: line_at(lines, name.token),
            });
        }
    }
}

/// What the type of a function tells its body.
#[derive(Drop)]
struct Heading {
    result: CType,
    parameters: Items<Parameter>,
}

fn function_type(of: Option<Built>, is_bare: bool, is_typedef: bool) -> Defined
    ensures { result ≡ functions.function_type of is_bare is_typedef }
{
    match of {
        Some(Built::Function(of)) => {
            if is_bare || is_typedef {
                drop(of);
                return Defined::Other;
            }
            Defined::Function(of)
        }
        Some(Built::Object(of)) => {
            drop(of);
            Defined::Other
        }
        None => Defined::Unknown,
    }
}

fn is_function_item(item: Option<HeaderItem>) -> bool
    ensures { result ≡ functions.is_function_item item }
{
    match item {
        Some(HeaderItem::Library(_) | HeaderItem::Mpi(_)) => true,
        Some(_) | None => false,
    }
}

/// The parameters of a function, in their order in its frame.
fn parameters_in(
    alloc: Global,
    structs: &[StructType],
    types: &[CType],
) -> Result<Items<Parameter>, AllocError>
    ensures { IfOk result (λ ps. ps ≡ parameters_in structs.now functions.no_rooms types.now) }
{
    let mut rooms = Rooms::none();
    let mut all = Items::new(alloc);
    for of in types {
        let mut next = rooms;
        let offset = take_room(structs, of, &mut next);
        all.push(Parameter {
            offset,
            kind: kind_of(structs, of),
        })?;
        rooms = next;
    }
    Ok(all)
}

fn take_room(structs: &[StructType], of: &CType, rooms: &mut Rooms) -> u64
    ensures offset { result ≡ functions.room_offset structs.now of.now rooms.old }
    ensures taken { rooms.new ≡ functions.room_taken structs.now of.now rooms.old }
{
    if rooms.end >= FRAME_LIMIT {
        return 0;
    }
    let size = measured(of, structs).unwrap_or(0);
    rooms.take(size, alignment(of, structs))
}

fn kind_of(structs: &[StructType], of: &CType) -> Kind
    ensures { result ≡ functions.kind_of structs.now of.now }
{
    class_of_type(of, structs).kind()
}

/// How many bytes a function's frame has.
fn frame_of(rooms: Rooms) -> u64
    ensures { result ≡ frame_of rooms }
{
    if rooms.end >= FRAME_LIMIT {
        return 0;
    }
    rooms.frame_bytes()
}
