//! Expressions and declarators as text: each node is a word in parentheses, with its parts behind it.

use super::page::Page;
use super::words::{
    assign_word, binary_word, prefix_word, qualifier_word, storage_word, type_word,
};
use c_ast::{
    Abstract, Declarator, Direct, DirectSuffix, EnumSpec, Enumerator, Expr, Link, Member, Param,
    PostfixOp, Qualifier, Specifier, Specs, StructSpec, TypeName,
};
use sqlite_items::{Boxed, Items};
use std::alloc::AllocError;

#[cycle(show)]
pub(super) fn show_expr(page: &mut Page, expr: &Expr) -> Result<(), AllocError> {
    match expr {
        Expr::Name(name) => page.name(name),
        Expr::Number {
            token,
            value,
            number_type,
        } => page.value(*value, *number_type, *token),
        Expr::Character { token, value } => page.character(*value, *token),
        Expr::Text { token, bytes } => page.quoted(bytes.as_slice(), *token),
        Expr::Paren { token, inner } => {
            page.open("paren", *token)?;
            show_expr(page, inner.get())?;
            page.close()
        }
        Expr::Postfix { .. } | Expr::Binary { .. } | Expr::Comma { .. } => show_chain(page, expr),
        Expr::Conditional { .. } | Expr::Assign { .. } => show_choice(page, expr),
        _ => show_unary(page, expr),
    }
}

/// An expression with operators of one level.
#[cycle(show)]
fn show_chain(page: &mut Page, expr: &Expr) -> Result<(), AllocError> {
    match expr {
        Expr::Postfix {
            token,
            first,
            operators,
        } => {
            page.open("post", *token)?;
            show_expr(page, first.get())?;
            for operator in operators.as_slice() {
                show_postfix(page, operator)?;
            }
        }
        Expr::Binary {
            token,
            first,
            links,
        } => {
            page.open("binary", *token)?;
            show_expr(page, first.get())?;
            for Link { at, op, right } in links.as_slice() {
                page.mark(binary_word(*op), *at)?;
                show_expr(page, right.get())?;
            }
        }
        Expr::Comma {
            token,
            first,
            others,
        } => {
            page.open("comma", *token)?;
            show_expr(page, first.get())?;
            for other in others.as_slice() {
                show_expr(page, other)?;
            }
        }
        _ => return Ok(()),
    }
    page.close()
}

#[cycle(show)]
fn show_choice(page: &mut Page, expr: &Expr) -> Result<(), AllocError> {
    match expr {
        Expr::Conditional {
            token,
            test,
            at,
            then,
            otherwise,
        } => {
            page.open("if", *token)?;
            show_expr(page, test.get())?;
            page.mark("?", *at)?;
            show_expr(page, then.get())?;
            show_expr(page, otherwise.get())?;
        }
        Expr::Assign {
            token,
            place,
            at,
            op,
            value,
        } => {
            page.open("set", *token)?;
            show_expr(page, place.get())?;
            page.mark(assign_word(*op), *at)?;
            show_expr(page, value.get())?;
        }
        _ => return Ok(()),
    }
    page.close()
}

#[cycle(show)]
fn show_unary(page: &mut Page, expr: &Expr) -> Result<(), AllocError> {
    match expr {
        Expr::Prefix { token, op, operand } => {
            page.open(prefix_word(*op), *token)?;
            show_expr(page, operand.get())?;
        }
        Expr::SizeofExpr { token, operand } => {
            page.open("sizeof", *token)?;
            show_expr(page, operand.get())?;
        }
        Expr::SizeofType { token, type_name } => {
            page.open("sizeof", *token)?;
            show_type_name(page, type_name.get())?;
        }
        Expr::Cast {
            token,
            type_name,
            operand,
        } => {
            page.open("cast", *token)?;
            show_type_name(page, type_name.get())?;
            show_expr(page, operand.get())?;
        }
        _ => return Ok(()),
    }
    page.close()
}

#[cycle(show)]
fn show_postfix(page: &mut Page, operator: &PostfixOp<Boxed<Expr>>) -> Result<(), AllocError> {
    match operator {
        PostfixOp::Index { at, index } => {
            page.open("index", *at)?;
            show_expr(page, index.get())?;
        }
        PostfixOp::Call { at, arguments } => {
            page.open("call", *at)?;
            for argument in arguments.as_slice() {
                show_expr(page, argument.get())?;
            }
        }
        PostfixOp::Member { at, name } => {
            page.open(".", *at)?;
            page.name(name)?;
        }
        PostfixOp::Arrow { at, name } => {
            page.open("->", *at)?;
            page.name(name)?;
        }
        PostfixOp::Increment { at } => return page.mark("++", *at),
        PostfixOp::Decrement { at } => return page.mark("--", *at),
    }
    page.close()
}

#[cycle(show)]
fn show_type_name(page: &mut Page, type_name: &TypeName) -> Result<(), AllocError> {
    page.open_bare("type")?;
    show_boxed_specs(page, &type_name.specs)?;
    show_abstract(page, &type_name.declarator)?;
    page.close()
}

#[cycle(show)]
fn show_abstract(page: &mut Page, declarator: &Abstract<Boxed<Expr>>) -> Result<(), AllocError> {
    for _pointer in 0..declarator.pointers {
        page.word("*")?;
    }
    for size in declarator.sizes.as_slice() {
        page.open_bare("array")?;
        if let Some(size) = size {
            show_expr(page, size.get())?;
        }
        page.close()?;
    }
    Ok(())
}

#[cycle(show)]
fn show_boxed_specs(page: &mut Page, specs: &Specs<Boxed<Specifier>>) -> Result<(), AllocError> {
    for specifier in specs.specifiers.as_slice() {
        show_specifier(page, specifier.get())?;
    }
    page.mark(":", specs.token)
}

/// The words of specifiers, and a `:` behind them.
pub(super) fn show_specs(page: &mut Page, specs: &Specs<Specifier>) -> Result<(), AllocError> {
    for specifier in specs.specifiers.as_slice() {
        show_specifier(page, specifier)?;
    }
    page.mark(":", specs.token)
}

#[cycle(show)]
fn show_specifier(page: &mut Page, specifier: &Specifier) -> Result<(), AllocError> {
    match specifier {
        Specifier::Storage(storage) => page.word(storage_word(*storage)),
        Specifier::Qualifier(qualifier) => page.word(qualifier_word(*qualifier)),
        Specifier::Word(word) => page.word(type_word(*word)),
        Specifier::Struct(spec) => show_struct(page, spec),
        Specifier::Enum(spec) => show_enum(page, spec),
        Specifier::TypedefName(name) => {
            page.open_bare("name")?;
            page.name(name)?;
            page.close()
        }
    }
}

#[cycle(show)]
fn show_struct(page: &mut Page, spec: &StructSpec<Boxed<Member>>) -> Result<(), AllocError> {
    match spec {
        StructSpec::Reference { token, name } => {
            page.open("struct-of", *token)?;
            page.name(name)?;
        }
        StructSpec::Body {
            token,
            name,
            members,
        } => {
            page.open("struct", *token)?;
            page.tag(name.as_ref())?;
            for member in members.as_slice() {
                show_member(page, member.get())?;
            }
        }
    }
    page.close()
}

#[cycle(show)]
fn show_member(page: &mut Page, member: &Member) -> Result<(), AllocError> {
    page.open_bare("member")?;
    show_boxed_specs(page, &member.specs)?;
    for declarator in member.declarators.as_slice() {
        show_declarator(page, declarator)?;
    }
    page.close()
}

#[cycle(show)]
fn show_enum(page: &mut Page, spec: &EnumSpec<Boxed<Expr>>) -> Result<(), AllocError> {
    match spec {
        EnumSpec::Reference { token, name } => {
            page.open("enum-of", *token)?;
            page.name(name)?;
        }
        EnumSpec::Body {
            token,
            name,
            enumerators,
        } => {
            page.open("enum", *token)?;
            page.tag(name.as_ref())?;
            for Enumerator { name, value } in enumerators.as_slice() {
                page.name(name)?;
                if let Some(value) = value {
                    page.word("=")?;
                    show_expr(page, value.get())?;
                }
            }
        }
    }
    page.close()
}

/// The stars of pointers, each with its qualifiers.
fn show_pointers(page: &mut Page, pointers: &[Items<Qualifier>]) -> Result<(), AllocError> {
    for pointer in pointers {
        page.word("*")?;
        for qualifier in pointer.as_slice() {
            page.word(qualifier_word(*qualifier))?;
        }
    }
    Ok(())
}

/// A declarator; one that is a name alone stands without a word where the numbers of tokens don't matter.
#[cycle(show)]
pub(super) fn show_declarator(page: &mut Page, declarator: &Declarator) -> Result<(), AllocError> {
    let Declarator {
        token,
        pointers,
        direct,
        suffixes,
    } = declarator;
    let is_short = pointers.is_empty() && suffixes.is_empty() && !page.has_numbers();
    if is_short {
        return show_direct(page, direct);
    }
    page.open("form", *token)?;
    show_pointers(page, pointers.as_slice())?;
    show_direct(page, direct)?;
    for suffix in suffixes.as_slice() {
        show_suffix(page, suffix)?;
    }
    page.close()
}

#[cycle(show)]
fn show_direct(page: &mut Page, direct: &Direct<Boxed<Declarator>>) -> Result<(), AllocError> {
    match direct {
        Direct::Name(name) => page.name(name),
        Direct::Nested { token, inner } => {
            page.open("paren", *token)?;
            show_declarator(page, inner.get())?;
            page.close()
        }
    }
}

#[cycle(show)]
fn show_suffix(page: &mut Page, suffix: &DirectSuffix) -> Result<(), AllocError> {
    match suffix {
        DirectSuffix::Array { at, size } => {
            page.open("array", *at)?;
            if let Some(size) = size {
                show_expr(page, size.get())?;
            }
        }
        DirectSuffix::Empty { at } => page.open("empty", *at)?,
        DirectSuffix::Void { at } => page.open("void", *at)?,
        DirectSuffix::Params { at, params } => {
            page.open("params", *at)?;
            for param in params.as_slice() {
                show_param(page, param)?;
            }
        }
    }
    page.close()
}

#[cycle(show)]
fn show_param(page: &mut Page, param: &Param) -> Result<(), AllocError> {
    match param {
        Param::Named { specs, declarator } => {
            page.open_bare("named")?;
            show_boxed_specs(page, specs)?;
            show_declarator(page, declarator.get())?;
        }
        Param::Unnamed { specs, declarator } => {
            page.open_bare("unnamed")?;
            show_boxed_specs(page, specs)?;
            show_abstract(page, declarator)?;
        }
    }
    page.close()
}
