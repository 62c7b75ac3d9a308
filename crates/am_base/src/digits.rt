//! Decimal digits.

ghost use Rattle.std.specs.Prelude.{◌≡◌, ◌++◌, OnOk, OnErr};
ghost use Rattle.std.specs.Fmt.{decimal as decimal_text, signed_decimal as signed_decimal_text};

use crate::Bytes;
use itoa::Buffer;
use std::alloc::AllocError;

/// Appends the decimal digits of `v`, without leading zeros.
pub fn decimal(out: &mut Bytes, v: u64) -> Result<(), AllocError>
    ensures ok { OnOk result (out.new ≡ out.old ++ decimal_text v) }
    ensures err { OnErr result (out.new ≡ out.old) }
{
    let mut buffer = Buffer::new();
    let digits = buffer.format(v);
    out.append(digits.as_bytes())
}

/// Appends the decimal digits of `v`, behind a `-` where it is negative.
pub fn signed_decimal(out: &mut Bytes, v: i32) -> Result<(), AllocError>
    ensures ok { OnOk result (out.new ≡ out.old ++ signed_decimal_text v) }
    ensures err { OnErr result (out.new ≡ out.old) }
{
    let mut buffer = Buffer::new();
    out.append(buffer.format(v).as_bytes())
}
