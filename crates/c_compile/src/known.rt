//! The first tokens at which headers are known.

ghost use Rattle.std.specs.Prelude.{◌≡◌, ◌<◌, ◌^◌, length};
ghost use Rattle.c_compile.specs.Known as known;
ghost use Rattle.c_compile.specs.Known.{is_in, known_from, KnownWhereIncluded};

use c_judge::KnownHeaders;
use c_lex::{Header, Headers, Token};

fn is_in(header: Header, headers: Headers) -> bool
    ensures { result ≡ is_in header headers }
{
    match header {
        Header::Mpi => headers.mpi,
        Header::Stdio => headers.stdio,
        Header::Stdlib => headers.stdlib,
        Header::Strings => headers.strings,
    }
}

fn known_from(header: Header, tokens: &[Token]) -> Option<u32>
    requires { length tokens.now < 2 ^ 32 }
    ensures { result ≡ known_from header tokens.now }
{
    for (at, token) in tokens.iter().enumerate() {
        if is_in(header, token.headers) {
            return Some(at as u32);
        }
    }
    None
}

/// The first token before which each header is included.
pub fn known_in(tokens: &[Token]) -> KnownHeaders
    requires { length tokens.now < 2 ^ 32 }
    ensures { result ≡ known.known_in tokens.now }
{
    KnownHeaders {
        mpi: known_from(Header::Mpi, tokens),
        stdio: known_from(Header::Stdio, tokens),
        stdlib: known_from(Header::Stdlib, tokens),
        strings: known_from(Header::Strings, tokens),
    }
}

/// A law: the tokens of a text before which a header is included are just those from its first one on.
pub fn known_where_included()
    ensures { KnownWhereIncluded }
{}
