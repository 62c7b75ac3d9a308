//! Units and statements as text: each node is a word in parentheses, with its parts behind it.

use super::expressions::{show_declarator, show_expr, show_specs};
use super::page::Page;
use c_ast::{BlockItem, Decl, Expr, External, ForStart, Init, InitDeclarator, Stmt, Unit};
use sqlite_items::Boxed;
use std::alloc::{AllocError, Global};

fn show_init(page: &mut Page, init: &Init) -> Result<(), AllocError> {
    match init {
        Init::Value(value) => show_expr(page, value),
        Init::List { token, items } => {
            page.open("list", *token)?;
            for item in items.as_slice() {
                show_init(page, item)?;
            }
            page.close()
        }
    }
}

fn show_declared(page: &mut Page, declared: &InitDeclarator) -> Result<(), AllocError> {
    let Some(init) = &declared.init else {
        return show_declarator(page, &declared.declarator);
    };
    page.open_bare("=")?;
    show_declarator(page, &declared.declarator)?;
    show_init(page, init)?;
    page.close()
}

fn show_decl(page: &mut Page, decl: &Decl) -> Result<(), AllocError> {
    page.open("decl", decl.token)?;
    show_specs(page, &decl.specs)?;
    for declared in decl.declared.as_slice() {
        show_declared(page, declared)?;
    }
    page.close()
}

/// An expression, or `_` where there is none.
fn show_optional(page: &mut Page, expr: Option<&Expr>) -> Result<(), AllocError> {
    match expr {
        Some(expr) => show_expr(page, expr),
        None => page.word("_"),
    }
}

fn show_start(page: &mut Page, start: &ForStart) -> Result<(), AllocError> {
    match start {
        ForStart::Declaration(decl) => show_decl(page, decl),
        ForStart::Expression(expr) => show_optional(page, expr.as_ref()),
    }
}

#[cycle(show)]
fn show_items(page: &mut Page, items: &[BlockItem<Boxed<Stmt>>]) -> Result<(), AllocError> {
    for item in items {
        match item {
            BlockItem::Declaration(decl) => show_decl(page, decl)?,
            BlockItem::Statement(stmt) => show_stmt(page, stmt.get())?,
        }
    }
    Ok(())
}

#[cycle(show)]
fn show_stmt(page: &mut Page, stmt: &Stmt) -> Result<(), AllocError> {
    match stmt {
        Stmt::Block { token, items } => {
            page.open("block", *token)?;
            show_items(page, items.as_slice())?;
        }
        Stmt::Express { token, expr } => {
            page.open(";", *token)?;
            if let Some(expr) = expr {
                show_expr(page, expr)?;
            }
        }
        Stmt::Break { token } => page.open("break", *token)?,
        Stmt::Continue { token } => page.open("continue", *token)?,
        Stmt::Return { token, value } => {
            page.open("return", *token)?;
            if let Some(value) = value {
                show_expr(page, value)?;
            }
        }
        Stmt::If { .. } | Stmt::Switch { .. } | Stmt::Case { .. } | Stmt::Default { .. } => {
            return show_choice(page, stmt);
        }
        Stmt::While { .. } | Stmt::Do { .. } | Stmt::For { .. } => return show_loop(page, stmt),
    }
    page.close()
}

#[cycle(show)]
fn show_choice(page: &mut Page, stmt: &Stmt) -> Result<(), AllocError> {
    match stmt {
        Stmt::If {
            token,
            test,
            then,
            otherwise,
        } => {
            page.open("if", *token)?;
            show_expr(page, test)?;
            show_stmt(page, then.get())?;
            if let Some(otherwise) = otherwise {
                show_stmt(page, otherwise.get())?;
            }
        }
        Stmt::Switch { token, value, body } => {
            page.open("switch", *token)?;
            show_expr(page, value)?;
            show_stmt(page, body.get())?;
        }
        Stmt::Case { token, value, body } => {
            page.open("case", *token)?;
            show_expr(page, value)?;
            show_stmt(page, body.get())?;
        }
        Stmt::Default { token, body } => {
            page.open("default", *token)?;
            show_stmt(page, body.get())?;
        }
        _ => return Ok(()),
    }
    page.close()
}

#[cycle(show)]
fn show_loop(page: &mut Page, stmt: &Stmt) -> Result<(), AllocError> {
    match stmt {
        Stmt::While { token, test, body } => {
            page.open("while", *token)?;
            show_expr(page, test)?;
            show_stmt(page, body.get())?;
        }
        Stmt::Do { token, body, test } => {
            page.open("do", *token)?;
            show_stmt(page, body.get())?;
            show_expr(page, test)?;
        }
        Stmt::For {
            token,
            start,
            test,
            step,
            body,
        } => {
            page.open("for", *token)?;
            show_start(page, start)?;
            show_optional(page, test.as_ref())?;
            show_optional(page, step.as_ref())?;
            show_stmt(page, body.get())?;
        }
        _ => return Ok(()),
    }
    page.close()
}

fn show_external(page: &mut Page, external: &External) -> Result<(), AllocError> {
    match external {
        External::Declaration(decl) => show_decl(page, decl),
        External::Function {
            token,
            specs,
            declarator,
            body,
        } => {
            page.open("function", *token)?;
            show_specs(page, specs)?;
            show_declarator(page, declarator)?;
            show_items(page, body.as_slice())?;
            page.close()
        }
    }
}

/// A unit as text, with or without the numbers of its tokens.
pub(crate) fn shown(alloc: Global, unit: &Unit, has_numbers: bool) -> Result<String, AllocError> {
    let mut page = Page::new(alloc, has_numbers);
    for external in unit.externals.as_slice() {
        show_external(&mut page, external)?;
    }
    Ok(page.into_text())
}
