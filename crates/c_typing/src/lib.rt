//! The types of C's expressions (C11, 6.2.5 to 6.3.2 and 6.5): what each operator gives on what its operands are, or the first of
//! the rules that it breaks.
#![tactic(auto)]

mod calling;
mod choosing;
mod classes;
mod judged;
mod laws;
mod operators;
mod pairs;
mod places;
mod rules;
mod storing;
mod trees;
mod types;
mod unary;
mod values;

pub use calling::{Arguments, call, dropped, lesser, switched, tested};
pub use choosing::{comma, conditional};
pub use classes::{Class, Target, class_of, class_of_type};
pub use judged::{Callee, Judged, Sort, Value};
pub use laws::tables_give_the_least_rule;
pub use operators::binary;
pub use places::{arrow, copied_type, index, member};
pub use rules::{Rule, TypeError};
pub use storing::{assign, count, stored, update};
pub use types::{is_compatible, is_const, measured, merged, pointer_to, with_const, without_last};
pub use unary::{address, cast, deny, deref, sign, size_of_judged, size_of_type};
pub use values::number;
