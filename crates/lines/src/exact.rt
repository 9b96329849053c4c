// Exact arithmetic on coordinates: no result is rounded and none can overflow.
ghost use Rattle.std.specs.Prelude.{◌≡◌, ◌*◌, ◌≤◌, ◌-ℤ◌, ◌*ℤ◌};

// b - a.
pub fn difference(a: i16, b: i16) -> i32
    ensures { result ≡ b -ℤ a }
{
    b as i32 - a as i32
}

// a * b.
pub fn product(a: i32, b: i32) -> i64
    ensures { result ≡ a *ℤ b }
{
    a as i64 * b as i64
}
