//! The pieces of a source: gaps, directives and tokens.

ghost use Rattle.std.specs.Prelude.{◌≡◌, ◌+◌, ◌<◌, ◌≤◌, ◌^◌, ◌==◌, ◌∷◌, [], List, ℕ, true, false, length, MatchBool, IfOk, OnOk, IfErr, IfSome};
ghost use Rattle.c_lex.specs.Blanks.{First, NotFirst, feeds_in};
ghost use Rattle.c_lex.specs.Pieces.{Piece as APiece};
ghost use Rattle.c_lex.specs.Fronts.{EndsWith};
ghost use Rattle.c_lex.specs.Faults.{TooMany};
ghost use Rattle.c_lex.specs.Tokens.{names_of, with_header, macros_after, most_tokens, Puts, PassesMost, BeginsRight, Fault, IsAnswer, fault_of};
ghost use Rattle.c_lex.specs.Progress.{Fresh, piece_of, headers_after, SoFar};

use crate::LexError;
use crate::directives::{Directive, directive_at, place_of};
use crate::fronts::{Seen, front_at};
use crate::lexeme::Lexeme;
use crate::macros::{ExpandError, Macros};
use crate::token::{Header, Headers, Token};
use std::alloc::{AllocError, Global};

/// What the pieces of a source have told up to a place.
#[derive(Debug, Drop)]
struct Progress {
    /// The line of the place, from 1 on.
    line: u32,
    /// Whether only gaps stand before the place in its line.
    is_first: bool,
    headers: Headers,
    macros: Macros,
    tokens: Vec<Token>,
}

/// How many lines end in these bytes.
fn feeds_in(bytes: &[u8]) -> u32
    requires { length bytes.now < 2 ^ 32 }
    ensures { result ≡ feeds_in bytes.now }
{
    bytes.iter().filter(|byte| **byte == b'\n').count() as u32
}

/// How many lines end in the text before its rest.
fn feeds_before(text: &[u8], rest: &[u8]) -> u32
    requires small { length text.now < 2 ^ 31 }
    requires ends { EndsWith text.now rest.now }
    ensures { result + feeds_in rest.now ≡ feeds_in text.now }
{
    let (taken, _) = text.split_at(text.len() - rest.len());
    feeds_in(taken)
}

/// The headers with one more.
fn with_header(header: Header, headers: Headers) -> Headers
    ensures { result ≡ with_header header headers }
{
    match header {
        Header::Mpi => Headers {
            mpi: true,
            ..headers
        },
        Header::Stdio => Headers {
            stdio: true,
            ..headers
        },
        Header::Stdlib => Headers {
            stdlib: true,
            ..headers
        },
        Header::Strings => Headers {
            strings: true,
            ..headers
        },
    }
}

impl Progress {
    fn new(alloc: Global) -> Progress
        ensures { (source : List ℕ) → SoFar source source result }
    {
        Progress {
            line: 1,
            is_first: true,
            headers: Headers {
                mpi: false,
                stdio: false,
                stdlib: false,
                strings: false,
            },
            macros: Macros::new(alloc),
            tokens: Vec::new(alloc),
        }
    }

    /// Counts the lines that end in the text before its rest.
    fn pass(&mut self, text: &[u8], rest: &[u8])
        requires small { length text.now < 2 ^ 31 }
        requires ends { EndsWith text.now rest.now }
        requires line { self.old.line + feeds_in text.now < 2 ^ 32 }
        ensures line { self.new.line + feeds_in rest.now ≡ self.old.line + feeds_in text.now }
        ensures same { self.new ≡ record self.old { line = self.new.line } }
    {
        self.line += feeds_before(text, rest);
    }

    /// Puts what a token becomes behind the tokens.
    fn put(&mut self, alloc: Global, at: u32, lexeme: Lexeme) -> Result<(), LexError>
        requires { length self.old.tokens.items ≤ most_tokens }
        ensures same { self.new ≡ record self.old { tokens = self.new.tokens } }
        ensures ok { OnOk result (Puts self.old.macros lexeme self.old.line self.old.headers self.old.tokens.items self.new.tokens.items) }
        ensures few { OnOk result (length self.new.tokens.items ≤ most_tokens) }
        ensures wrong { IfErr result (λ e. IfSome (fault_of e) (λ fault. (fault ≡ Fault TooMany at)
            × PassesMost self.old.macros lexeme (length self.old.tokens.items))) }
    {
        let put = self
            .macros
            .expand(alloc, lexeme, self.line, self.headers, &mut self.tokens);
        match put {
            Ok(()) => Ok(()),
            Err(ExpandError::TooMany) => Err(LexError::TooMany { at }),
            Err(ExpandError::Memory) => Err(LexError::Memory),
        }
    }

    /// Takes note of a directive.
    fn apply(&mut self, directive: Directive) -> Result<(), AllocError>
        requires { Fresh (names_of self.old.macros) (piece_of directive) }
        ensures { OnOk result (self.new ≡ record self.old {
          is_first = false;
          headers = headers_after self.old.headers (piece_of directive ∷ []);
          macros = macros_after self.old.macros (piece_of directive ∷ []);
        }) }
    {
        self.is_first = false;
        match directive {
            Directive::Include(header) => {
                self.headers = with_header(header, self.headers);
                Ok(())
            }
            Directive::Define { name, body } => {
                self.macros.define(name, body)?;
                Ok(())
            }
            Directive::Pragma => Ok(()),
        }
    }

    /// Takes the directive that the text begins with, and gives the text behind it.
    fn directive<'a>(
        &mut self,
        alloc: Global,
        source: &[u8],
        text: &'a [u8],
    ) -> Result<&'a [u8], LexError>
        requires small { length source.now < 2 ^ 31 }
        requires so_far { SoFar source.now text.now self.old }
        requires first { self.old.is_first ≡ true }
        requires hash { First (λ b. b == 35) text.now }
        ensures right { IfOk result (λ rest. SoFar source.now rest.now self.new × (length rest.now < length text.now)) }
        ensures wrong { IfErr result (λ e. IfSome (fault_of e) (λ fault. IsAnswer source.now fault)) }
    {
        let at = place_of(0, source, text);
        let (directive, rest) = directive_at(alloc, &self.macros, at, text)?;
        self.apply(directive)?;
        self.pass(text, rest);
        Ok(rest)
    }

    /// Takes what the text begins with, where no directive does, and gives the text behind it.
    fn front<'a>(
        &mut self,
        alloc: Global,
        source: &[u8],
        text: &'a [u8],
    ) -> Result<&'a [u8], LexError>
        requires small { length source.now < 2 ^ 31 }
        requires so_far { SoFar source.now text.now self.old }
        requires some { 0 < length text.now }
        requires no_directive { self.old.is_first ≡ true → NotFirst (λ b. b == 35) text.now }
        ensures right { IfOk result (λ rest. SoFar source.now rest.now self.new × (length rest.now < length text.now)) }
        ensures wrong { IfErr result (λ e. IfSome (fault_of e) (λ fault. IsAnswer source.now fault)) }
    {
        let at = place_of(0, source, text);
        let (seen, rest) = front_at(alloc, at, text)?;
        match seen {
            Seen::End | Seen::Gap => {
                self.pass(text, rest);
                Ok(rest)
            }
            Seen::LineEnd => {
                self.is_first = true;
                self.pass(text, rest);
                Ok(rest)
            }
            Seen::Token(lexeme) => {
                self.put(alloc, at, lexeme)?;
                self.is_first = false;
                self.pass(text, rest);
                Ok(rest)
            }
        }
    }

    /// Takes the piece that the text begins with, and gives the text behind it.
    fn piece<'a>(
        &mut self,
        alloc: Global,
        source: &[u8],
        text: &'a [u8],
    ) -> Result<&'a [u8], LexError>
        requires small { length source.now < 2 ^ 31 }
        requires so_far { SoFar source.now text.now self.old }
        requires some { 0 < length text.now }
        ensures right { IfOk result (λ rest. SoFar source.now rest.now self.new × (length rest.now < length text.now)) }
        ensures wrong { IfErr result (λ e. IfSome (fault_of e) (λ fault. IsAnswer source.now fault)) }
    {
        if !self.is_first {
            return self.front(alloc, source, text);
        }
        if !begins_directive(text) {
            return self.front(alloc, source, text);
        }
        self.directive(alloc, source, text)
    }
}

/// Whether a `#` stands here.
fn begins_directive(text: &[u8]) -> bool
    ensures { MatchBool result (First (λ b. b == 35) text.now) (NotFirst (λ b. b == 35) text.now) }
{
    matches!(text, [b'#', ..])
}

/// The tokens of a source, strings next to each other not joined yet.
pub fn read(alloc: Global, source: &[u8]) -> Result<Vec<Token>, LexError>
    requires { length source.now < 2 ^ 31 }
    ensures right { IfOk result (λ out. (ps : List APiece) × BeginsRight source.now ps out.items []) }
    ensures wrong { IfErr result (λ e. IfSome (fault_of e) (λ fault. IsAnswer source.now fault)) }
{
    let mut progress = Progress::new(alloc);
    let mut rest = source;
    'pieces: while !rest.is_empty() {
        rest = progress.piece(alloc, source, rest)?;
    }
    let Progress { tokens, .. } = progress;
    Ok(tokens)
}
