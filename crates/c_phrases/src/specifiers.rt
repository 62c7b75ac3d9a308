//! Specifiers, which have just one type among them.

ghost use Rattle.std.specs.Prelude.{◌≡◌, ◌≤◌, if◌then◌else◌, true, false, Some, None, Ok, length, IfOk};
ghost use Rattle.c_grammar.specs.Types.{times, word_number, declares_types, Untyped};
ghost use Rattle.c_grammar.specs.Reading.{Gives};
ghost use Rattle.c_grammar.specs.ReadingDecl.{are_of_type, taken_word, is_untyped, ended_specs, specs};
ghost use Rattle.c_phrases.specs.ReadingSpecs.{typed_of, specifier_step, whole_step};
ghost use Rattle.c_grammar.specs.Levels.{readers};
ghost use Rattle.c_grammar.specs.Nests.{Nests, most, state_of, seen};

use crate::grammar::Grammar;
use am_base::Bytes;
use c_ast::{Name, Specifier, Specs, Storage, TypeWord};
use c_grammar::{Cursor, ParseError, Phrase, ReadSpecs, Wanted, qualifier_of, storage_of, word_of};
use c_lex::{Keyword, TokenKind};
use sqlite_items::Items;
use std::alloc::{AllocError, Global};

/// What specifiers have said so far: words of the type, or that it is a structure, an enumeration or a typedef name, and whether
/// a `typedef` is among them.
#[derive(Drop)]
pub struct SpecsSoFar {
    words: Items<TypeWord>,
    is_whole: bool,
    is_typedef: bool,
}

fn word_number(word: TypeWord) -> u8
    ensures { result ≡ word_number word }
{
    match word {
        TypeWord::Void => 0,
        TypeWord::Char => 1,
        TypeWord::Short => 2,
        TypeWord::Int => 3,
        TypeWord::Long => 4,
        TypeWord::Signed => 5,
        TypeWord::Unsigned => 6,
    }
}

/// How often the word stands in the list.
fn times(word: TypeWord, words: &[TypeWord]) -> usize
    ensures count { result ≡ times word words.now }
    ensures few { result ≤ length words.now }
{
    let wanted = word_number(word);
    words
        .iter()
        .filter(|other| word_number(**other) == wanted)
        .count()
}

/// Whether the words are those of a type (C11, 6.7.2).
fn are_of_type(words: &[TypeWord]) -> bool
    ensures { result ≡ are_of_type words.now }
{
    let void = times(TypeWord::Void, words);
    let char = times(TypeWord::Char, words);
    let short = times(TypeWord::Short, words);
    let int = times(TypeWord::Int, words);
    let long = times(TypeWord::Long, words);
    let signed = times(TypeWord::Signed, words);
    let unsigned = times(TypeWord::Unsigned, words);
    if words.len() == 1 && void == 1 {
        return true;
    }
    if signed + unsigned > 1 {
        return false;
    }
    if char == 1 && words.len() == char + signed + unsigned {
        return true;
    }
    let is_sized = (short <= 1 && long == 0) || (short == 0 && long <= 2);
    1 <= words.len() && int <= 1 && is_sized && void == 0 && char == 0
}

impl SpecsSoFar {
    fn is_untyped(&self) -> bool
        ensures { result ≡ is_untyped (typed_of self.now) }
    {
        !self.is_whole && self.words.is_empty()
    }

    /// Takes a word, if it and the words so far are of a type.
    fn take(&mut self, word: TypeWord) -> Result<bool, AllocError>
        ensures taken { IfOk result (λ taken. taken_word word (typed_of self.old) ≡ (if taken then Some (typed_of self.new) else None)) }
        ensures kept { IfOk result (λ taken. taken ≡ false → typed_of self.new ≡ typed_of self.old) }
        ensures flag { self.new.is_typedef ≡ self.old.is_typedef }
    {
        if self.is_whole {
            return Ok(false);
        }
        self.words.push(word)?;
        if are_of_type(self.words.as_slice()) {
            return Ok(true);
        }
        self.words.pop();
        Ok(false)
    }
}

/// Whether a declaration with this word declares types.
fn declares_types(storage: Storage) -> bool
    ensures { result ≡ declares_types storage }
{
    match storage {
        Storage::Typedef => true,
        Storage::Extern | Storage::Static | Storage::Auto | Storage::Register | Storage::Inline =>
            false,
    }
}

/// Ends specifiers, which have a type among them.
fn ended_specs(
    cursor: &Cursor<'_>,
    token: u32,
    so_far: &SpecsSoFar,
    specifiers: Items<Specifier>,
) -> Result<ReadSpecs, ParseError>
    ensures { Gives (seen cursor.now) result (ended_specs cursor.now.total token (typed_of so_far.now) so_far.now.is_typedef specifiers (state_of cursor.now)) }
{
    if so_far.is_untyped() {
        drop(specifiers);
        return Err(cursor.unexpected());
    }
    Ok(ReadSpecs {
        specs: Specs { token, specifiers },
        is_typedef: so_far.is_typedef,
    })
}

impl<F: Fn(Global, &mut Cursor<'_>, u8, Wanted) -> Result<Phrase, ParseError>> Grammar<F> {
    /// Reads a structure, an enumeration or a typedef name, if one comes next.
    #[tactic(auto, unfolding(crate::specs::ReadingSpecs::whole_step))]
    fn whole_specifier(
        &self,
        cursor: &mut Cursor<'_>,
        so_far: &mut SpecsSoFar,
    ) -> Result<Option<Specifier>, ParseError>
        requires nests { Nests self.now.room (F.pre self.now.parse) (F.post self.now.parse) }
        requires untyped { typed_of so_far.old ≡ Untyped }
        ensures total { cursor.new.total ≡ cursor.old.total }
        ensures reads { Gives (λ found. ((found, (typed_of so_far.new, so_far.new.is_typedef)), state_of cursor.new)) result (whole_step cursor.old.total self.now.room (readers cursor.old.total most self.now.room) so_far.old.is_typedef (state_of cursor.old)) }
    {
        let Some((first, _)) = cursor.rest.split_first() else {
            return Ok(None);
        };
        if cursor.sees_keyword(Keyword::Struct) {
            let found = self.struct_spec(cursor)?;
            so_far.is_whole = true;
            return Ok(Some(Specifier::Struct(found)));
        }
        if cursor.sees_keyword(Keyword::Enum) {
            let found = self.enum_spec(cursor)?;
            so_far.is_whole = true;
            return Ok(Some(Specifier::Enum(found)));
        }
        let text = first.text.as_slice();
        if !matches!(first.kind, TokenKind::Name) || !cursor.names.is_type(first.headers, text) {
            return Ok(None);
        }
        let token = cursor.here();
        let text = Bytes::from_slice(self.alloc, text)?;
        cursor.skip();
        so_far.is_whole = true;
        Ok(Some(Specifier::TypedefName(Name { token, text })))
    }

    /// Reads a specifier, if one comes next.
    #[tactic(auto, unfolding(crate::specs::ReadingSpecs::specifier_step, crate::specs::ReadingSpecs::whole_step))]
    fn specifier(
        &self,
        cursor: &mut Cursor<'_>,
        so_far: &mut SpecsSoFar,
    ) -> Result<Option<Specifier>, ParseError>
        requires { Nests self.now.room (F.pre self.now.parse) (F.post self.now.parse) }
        ensures total { cursor.new.total ≡ cursor.old.total }
        ensures reads { Gives (λ found. ((found, (typed_of so_far.new, so_far.new.is_typedef)), state_of cursor.new)) result (specifier_step cursor.old.total self.now.room (readers cursor.old.total most self.now.room) (typed_of so_far.old) so_far.old.is_typedef (state_of cursor.old)) }
    {
        let Some((first, _)) = cursor.rest.split_first() else {
            return Ok(None);
        };
        if let Some(storage) = storage_of(first.kind) {
            cursor.skip();
            so_far.is_typedef = so_far.is_typedef || declares_types(storage);
            return Ok(Some(Specifier::Storage(storage)));
        }
        if let Some(qualifier) = qualifier_of(first.kind) {
            cursor.skip();
            return Ok(Some(Specifier::Qualifier(qualifier)));
        }
        if let Some(word) = word_of(first.kind) {
            if !so_far.take(word)? {
                return Ok(None);
            }
            cursor.skip();
            return Ok(Some(Specifier::Word(word)));
        }
        if !so_far.is_untyped() {
            return Ok(None);
        }
        self.whole_specifier(cursor, so_far)
    }

    /// Reads specifiers (C11, 6.7).
    #[tactic(auto, unfolding(c_grammar::specs::ReadingDecl::specs))]
    pub fn specs(&self, cursor: &mut Cursor<'_>) -> Result<ReadSpecs, ParseError>
        requires { Nests self.now.room (F.pre self.now.parse) (F.post self.now.parse) }
        ensures total { cursor.new.total ≡ cursor.old.total }
        ensures reads { Gives (seen cursor.new) result (specs cursor.old.total self.now.room (readers cursor.old.total most self.now.room) (state_of cursor.old)) }
    {
        let token = cursor.here();
        let mut so_far = SpecsSoFar {
            words: Items::new(self.alloc),
            is_whole: false,
            is_typedef: false,
        };
        let mut all = Items::new(self.alloc);
        let mut count = cursor.rest.len();
        'specifiers: while count > 0 {
            count -= 1;
            let Some(specifier) = self.specifier(cursor, &mut so_far)? else {
                return ended_specs(cursor, token, &so_far, all);
            };
            all.push(specifier)?;
        }
        ended_specs(cursor, token, &so_far, all)
    }
}
