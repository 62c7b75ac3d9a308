//! A program's units checked (C11, 6.2, 6.7 to 6.9): statements, linkage, functions, and the typed program or the broken rule that
//! is told.
#![tactic(auto)]

mod declarations;
mod declaring;
mod draft;
mod functions;
mod heads;
mod labels;
mod linkage;
mod locals;
mod making;
mod objects;
mod redeclared;
mod statements;
mod statics;
mod units;
mod values;

pub use draft::{Begun, Draft, Inside, Link};
pub use labels::Labels;
pub use linkage::{Linkage, StorageWords};
pub use making::Heads;
pub use units::{CheckError, Source, check};
