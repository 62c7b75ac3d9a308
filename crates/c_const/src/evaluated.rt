//! The values of expressions that may be constant.

use rank_range::Kind;

/// What an expression has that has the form of a constant expression: the kind of its value, and the word of the value, where
/// its evaluation doesn't trap.
#[derive(Clone, Copy, Debug, PartialEq, Eq)]
pub struct Evaluated {
    pub kind: Kind,
    pub word: Option<u64>,
}
