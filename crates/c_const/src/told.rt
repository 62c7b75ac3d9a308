//! What typing tells of an expression's type names.

use rank_range::Kind;

/// What is known of a cast or of a `sizeof`, by its first token.
#[derive(Clone, Copy, Debug, PartialEq, Eq)]
pub enum Told {
    /// `sizeof` gives so many bytes (C11, 6.5.3.4).
    Size(u64),
    /// The cast is to a whole type (C11, 6.5.4).
    Whole(Kind),
}
