//! Whether a list ascends in an order that is tested.

ghost use Rattle.std.specs.Prelude.{◌≡◌, Bool};
ghost use Rattle.byte_formats.specs.Formats.{ascends};

/// An order of values by a test. It stands for no value, so that a crate can order values of other crates.
pub trait Order {
    type Value;

    ghost test: { Self.Value → Self.Value → Bool };

    /// Whether `a` comes before `b`.
    fn is_before(a: &Self::Value, b: &Self::Value) -> bool
        ensures { result ≡ test a.now b.now };
}

/// Whether each value comes before the next.
pub fn ascend_in<O: Order>(items: &[O::Value]) -> bool
    ensures { result ≡ ascends O.test items.now }
{
    for i in 0..items.len().saturating_sub(1) {
        if !O::is_before(&items[i], &items[i + 1]) {
            return false;
        }
    }
    true
}
