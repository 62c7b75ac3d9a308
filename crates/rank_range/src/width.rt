//! How many bytes a load or a store takes.

ghost use Rattle.std.specs.Prelude.{◌≡◌};
ghost use Rattle.rank_range.specs.Numbers.{bytes_in};

/// How many bytes a load or a store takes.
#[derive(Clone, Copy, Debug, PartialEq, Eq)]
pub enum Width {
    One,
    Two,
    Four,
    Eight,
}

impl Width {
    /// The width in bytes.
    pub fn bytes(self) -> usize
        ensures { result ≡ bytes_in self }
    {
        match self {
            Width::One => 1,
            Width::Two => 2,
            Width::Four => 4,
            Width::Eight => 8,
        }
    }
}
