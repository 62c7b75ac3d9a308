//! Parts of a list of bytes.

ghost use Rattle.std.specs.Prelude.{◌≡◌, ◌+◌, ◌≤◌, length, replicate};
ghost use Rattle.rank_range.specs.Parts.{part, with_part};

/// The `n` bytes from `at` on.
pub fn part_of(bytes: &[u8], at: usize, n: usize) -> &[u8]
    requires { at + n ≤ length bytes.now }
    ensures { result.now ≡ part bytes.now at n }
{
    &bytes[at..at + n]
}

/// Puts the bytes from `at` on.
pub fn put_part(bytes: &mut [u8], at: usize, new: &[u8])
    requires { at + length new.now ≤ length bytes.old }
    ensures { bytes.new ≡ with_part bytes.old at new.now }
{
    bytes[at..at + new.len()].copy_from_slice(new);
}

/// Puts the `n` bytes from `from` on to `to`, as if by a buffer.
pub fn copy_part(bytes: &mut [u8], to: usize, from: usize, n: usize)
    requires there { from + n ≤ length bytes.old }
    requires room { to + n ≤ length bytes.old }
    ensures { bytes.new ≡ with_part bytes.old to (part bytes.old from n) }
{
    bytes.copy_within(from..from + n, to);
}

/// Puts the byte into the `n` places from `at` on.
pub fn fill_part(bytes: &mut [u8], at: usize, n: usize, byte: u8)
    requires { at + n ≤ length bytes.old }
    ensures { bytes.new ≡ with_part bytes.old at (replicate n byte) }
{
    bytes[at..at + n].fill(byte);
}
