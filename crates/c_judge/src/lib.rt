//! The names and types of a source (C11, 6.2, 6.7 and 6.9): which names are in scope, which types declarators make, and which rules
//! are broken.
#![tactic(auto)]

mod broken;
mod checker;
mod constants;
mod expressions;
mod gathered;
mod headers;
mod judging;
mod naming;
mod parameters;
mod shapes;
mod sight;
mod structures;
mod typing;
mod words;

pub use broken::Broken;
pub use checker::{Checker, Mode};
pub use constants::ParamType;
pub use gathered::{Gathered, Specified, copied_built};
pub use headers::{KnownHeaders, item_at, item_named};
pub use naming::{Found, copied_function, look_up_name};
pub use shapes::{Built, Extent, Made, Shape, applied};
pub use sight::{Marks, Sight};
pub use structures::alignment;
pub use typing::{Standing, declared_name, is_bare};
pub use words::TypeWords;
