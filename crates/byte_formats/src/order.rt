//! Whether a list ascends.

ghost use Rattle.std.specs.Prelude.{◌≡◌, Bool};
ghost use Rattle.std.specs.Fn.{ComputesOnPairs};
ghost use Rattle.byte_formats.specs.Formats.{ascends};

/// Whether each value comes before the next, by what `before` computes.
pub fn ascend<T, F: FnMut(&T, &T) -> bool>(items: &[T], before: F) -> bool
    requires { F.IsAlwaysCallable before }
    ensures { (test : T → T → Bool) → ComputesOnPairs F.FnMut test before → result ≡ ascends test items.now }
{
    items.is_sorted_by(before)
}
