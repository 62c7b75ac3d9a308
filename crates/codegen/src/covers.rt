//! Whether a program is covered: each call is of a function with a body.

ghost use Rattle.std.specs.Prelude.{◌≡◌, ◌&&◌, map, MatchBool};
ghost use Rattle.codegen.specs.Covered.{all_true, operand_is_covered, step_is_covered, expr_covered, covered_if, stores_covered, all_declared_covered, begins_once, stmt_covered, has_body, body_covered, function_covered, IsCovered, IsMainBody};

use c_types::{
    Body, Declared, Expr, FullExpr, Function, Main, Operand, Program, Step, Stmt, Store,
};

/// Whether both hold.
fn both(first: bool, second: bool) -> bool
    ensures { result ≡ (first && second) }
{
    first && second
}

#[cycle(covers)]
fn covers_expr(functions: &[Function], expr: &Expr) -> bool
    ensures { result ≡ expr_covered functions.now expr.now }
{
    both(
        covers_operand(functions, &expr.first),
        covers_steps(functions, expr.steps.as_slice()),
    )
}

#[cycle(covers)]
fn covers_operand(functions: &[Function], operand: &Operand) -> bool
    ensures { result ≡ operand_is_covered functions.now operand.now }
{
    match operand {
        Operand::Number(_) => true,
        Operand::Local(_) => true,
        Operand::Object(_) => true,
        Operand::Call {
            function,
            arguments,
        } => both(
            has_body(functions, *function),
            covers_all(functions, arguments.as_slice()),
        ),
        Operand::Library { arguments, .. } => covers_all(functions, arguments.as_slice()),
        Operand::Mpi { arguments, .. } => covers_all(functions, arguments.as_slice()),
    }
}

#[cycle(covers)]
fn covers_all(functions: &[Function], exprs: &[Expr]) -> bool
    ensures { result ≡ all_true (map (expr_covered functions.now) exprs.now) }
{
    let mut all = true;
    for expr in exprs {
        all = both(all, covers_expr(functions, expr));
    }
    all
}

#[cycle(covers)]
fn covers_steps(functions: &[Function], steps: &[Step]) -> bool
    ensures { result ≡ all_true (map (step_is_covered functions.now) steps.now) }
{
    let mut all = true;
    for step in steps {
        all = both(all, covers_step(functions, step));
    }
    all
}

#[cycle(covers)]
fn covers_step(functions: &[Function], step: &Step) -> bool
    ensures { result ≡ step_is_covered functions.now step.now }
{
    match step {
        Step::Load(_) => true,
        Step::Convert { .. } => true,
        Step::Unary { .. } => true,
        Step::Not => true,
        Step::Member { .. } => true,
        Step::Count { .. } => true,
        Step::Binary { right, .. } => covers_expr(functions, right.get()),
        Step::Greater { right, .. } => covers_expr(functions, right.get()),
        Step::AtLeast { right, .. } => covers_expr(functions, right.get()),
        Step::Offset { right, .. } => covers_expr(functions, right.get()),
        Step::Difference { right, .. } => covers_expr(functions, right.get()),
        Step::And { right } => covers_expr(functions, right.get()),
        Step::Or { right } => covers_expr(functions, right.get()),
        Step::Comma { right } => covers_expr(functions, right.get()),
        Step::Assign { right, .. } => covers_expr(functions, right.get()),
        Step::Copy { right, .. } => covers_expr(functions, right.get()),
        Step::Update { right, .. } => covers_expr(functions, right.get()),
        Step::Advance { right, .. } => covers_expr(functions, right.get()),
        Step::Conditional { then, otherwise } => {
            both(
                covers_expr(functions, then.get()),
                covers_expr(functions, otherwise.get()),
            )
        }
    }
}

fn covers_if(functions: &[Function], value: &Option<FullExpr>) -> bool
    ensures { result ≡ covered_if functions.now value.now }
{
    match value {
        None => true,
        Some(full) => covers_expr(functions, &full.expr),
    }
}

fn covers_stores(functions: &[Function], stores: &[Store]) -> bool
    ensures { result ≡ stores_covered functions.now stores.now }
{
    let mut all = true;
    for store in stores {
        all = both(all, covers_expr(functions, &store.value.expr));
    }
    all
}

fn covers_all_declared(functions: &[Function], all: &[Declared]) -> bool
    ensures { result ≡ all_declared_covered functions.now all.now }
{
    let mut covered = true;
    for declared in all {
        covered = both(
            covered,
            covers_stores(functions, declared.stores.as_slice()),
        );
    }
    covered
}

/// Whether a `for` has not both declarators and an expression to begin with.
fn begins_once(declared: &[Declared], start: &Option<FullExpr>) -> bool
    ensures { result ≡ begins_once declared.now start.now }
{
    declared.is_empty() || start.is_none()
}

/// Of a `for` and the value of its body.
fn covers_for(
    functions: &[Function],
    declared: &[Declared],
    start: &Option<FullExpr>,
    test: &Option<FullExpr>,
    step: &Option<FullExpr>,
    body: bool,
) -> bool
    ensures { result ≡ (begins_once declared.now start.now && (all_declared_covered functions.now declared.now && (covered_if functions.now start.now && (covered_if functions.now test.now && (covered_if functions.now step.now && body))))) }
{
    let parts = both(
        covers_if(functions, start),
        both(
            covers_if(functions, test),
            both(covers_if(functions, step), body),
        ),
    );
    both(
        begins_once(declared, start),
        both(covers_all_declared(functions, declared), parts),
    )
}

#[cycle(covers_stmt)]
fn covers_stmts(functions: &[Function], stmts: &[Stmt]) -> bool
    ensures { result ≡ all_true (map (stmt_covered functions.now) stmts.now) }
{
    let mut all = true;
    for stmt in stmts {
        all = both(all, covers_stmt(functions, stmt));
    }
    all
}

#[cycle(covers_stmt)]
fn covers_stmt(functions: &[Function], stmt: &Stmt) -> bool
    ensures { result ≡ stmt_covered functions.now stmt.now }
{
    match stmt {
        Stmt::Empty { .. } => true,
        Stmt::Express { value, .. } => covers_expr(functions, &value.expr),
        Stmt::Declare(declared) => covers_stores(functions, declared.stores.as_slice()),
        Stmt::Block(stmts) => covers_stmts(functions, stmts.as_slice()),
        Stmt::If {
            test,
            then,
            otherwise,
            ..
        } => {
            let first = covers_stmt(functions, then.get());
            match otherwise {
                None => both(covers_expr(functions, &test.expr), first),
                Some(second) => both(
                    covers_expr(functions, &test.expr),
                    both(first, covers_stmt(functions, second.get())),
                ),
            }
        }
        Stmt::While { test, body, .. } => {
            both(
                covers_expr(functions, &test.expr),
                covers_stmt(functions, body.get()),
            )
        }
        Stmt::Do { test, body, .. } => {
            both(
                covers_expr(functions, &test.expr),
                covers_stmt(functions, body.get()),
            )
        }
        Stmt::For {
            declared,
            start,
            test,
            step,
            body,
            ..
        } => covers_for(
            functions,
            declared.as_slice(),
            start,
            test,
            step,
            covers_stmt(functions, body.get()),
        ),
        Stmt::Switch { value, body, .. } => {
            both(
                covers_expr(functions, &value.expr),
                covers_stmt(functions, body.get()),
            )
        }
        Stmt::Labelled { body, .. } => covers_stmt(functions, body.get()),
        Stmt::Break { .. } => true,
        Stmt::Continue { .. } => true,
        Stmt::Return { value, .. } => covers_if(functions, value),
    }
}

/// Whether the function of that number has a body.
fn has_body(functions: &[Function], number: u32) -> bool
    ensures { result ≡ has_body functions.now number }
{
    match functions.get(number as usize) {
        None => false,
        Some(function) => function.body.is_some(),
    }
}

/// Whether a function's statements are covered, where it has a body.
fn covers_function(functions: &[Function], body: &Option<Body>) -> bool
    ensures { result ≡ body_covered functions.now body.now }
{
    match body {
        None => true,
        Some(defined) => covers_stmts(functions, defined.stmts.as_slice()),
    }
}

/// Whether those of all functions are.
fn covers_functions(functions: &[Function]) -> bool
    ensures { result ≡ all_true (map (function_covered functions.now) functions.now) }
{
    let mut all = true;
    for function in functions {
        all = both(all, covers_function(functions, &function.body));
    }
    all
}

/// Whether there is a body with at most the two parameters of `main`.
fn is_main_body(body: &Option<Body>) -> bool
    ensures { MatchBool result (IsMainBody body.now) (IsMainBody body.now → ⊥) }
{
    match body {
        None => false,
        Some(defined) => defined.parameters.len() <= 2,
    }
}

/// Whether `main` is defined, has at most the two parameters that it may have, and all functions are covered.
pub fn covers_main(program: &Program, main: Main) -> bool
    ensures { MatchBool result (IsCovered program.now main) (IsCovered program.now main → ⊥) }
{
    match program.functions.get(main.function as usize) {
        None => false,
        Some(function) => both(
            is_main_body(&function.body),
            covers_functions(program.functions.as_slice()),
        ),
    }
}
