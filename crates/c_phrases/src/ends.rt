//! What ends an expression.

ghost use Rattle.std.specs.Prelude.{◌≡◌, IfOk};
ghost use Rattle.c_grammar.specs.Reading.{Gives, expect_mark};
ghost use Rattle.c_grammar.specs.Nests.{state_of};

use c_ast::Expr;
use c_grammar::{Cursor, ParseError};
use c_lex::Mark;

/// Takes the punctuator that has to come behind an expression.
pub fn ended(cursor: &mut Cursor<'_>, expr: Expr, mark: Mark) -> Result<Expr, ParseError>
    ensures total { cursor.new.total ≡ cursor.old.total }
    ensures reads { Gives (λ _. state_of cursor.new) result (expect_mark cursor.old.total mark (state_of cursor.old)) }
    ensures same { IfOk result (λ found. found ≡ expr) }
{
    match cursor.expect_mark(mark) {
        Ok(()) => Ok(expr),
        Err(e) => {
            drop(expr);
            Err(e)
        }
    }
}
