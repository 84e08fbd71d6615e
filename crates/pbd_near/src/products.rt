//! Products and parts of numbers whose size is known, so that none wraps.
ghost use Rattle.std.specs.Prelude.{◌≡◌, ◌*◌, ◌≤◌, ◌^◌, ◌*ℤ◌, unsigned_abs};

/// The square of a number within 2^15.
#[inline(always)]
pub(crate) fn square_of(x: i32) -> u32
    requires { unsigned_abs x ≤ 32768 }
    ensures value { result ≡ unsigned_abs x * unsigned_abs x }
    ensures size { result ≤ 2 ^ 30 }
{
    (x * x) as u32
}

/// The product of a number within 2^15 and one that is less than 2^16 in size.
#[inline(always)]
pub(crate) fn product(a: i32, b: i32) -> i32
    requires a { unsigned_abs a ≤ 32768 }
    requires b { unsigned_abs b ≤ 65535 }
    ensures value { result ≡ a *ℤ b }
    ensures size { unsigned_abs result ≤ 32768 * unsigned_abs b }
{
    a * b
}

/// The upper 16 bits.
#[inline(always)]
pub(crate) fn upper(x: i32) -> i32
    ensures { unsigned_abs result ≤ 32768 }
{
    x >> 16
}

/// The upper ten bits.
#[inline(always)]
pub(crate) fn upper_ten(x: i32) -> i32
    ensures { unsigned_abs result ≤ 512 }
{
    x >> 22
}

/// The low 15 bits: the number itself where it is from 0 up, and less than 2^15.
#[inline(always)]
pub(crate) fn low15(x: i32) -> u32
    ensures { result ≤ 32767 }
{
    x.cast_unsigned() & 32_767
}
