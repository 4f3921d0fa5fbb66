//! Division by a power of two.
ghost use Rattle.std.specs.Prelude.{◌≡◌, ◌≤◌, ◌^◌, pos, ◌+ℤ◌, ◌*ℤ◌, ◌≤ℤ◌, ◌<ℤ◌};
ghost use Rattle.pcm_num.specs.Floor.{floor_div};

/// `x` divided by two to the power `s`, rounded down, also below zero.
pub fn floor_shift(x: i64, s: u32) -> i64
    requires { s ≤ 62 }
    ensures value { result ≡ floor_div x (2 ^ s) }
    ensures low { (result *ℤ pos (2 ^ s)) ≤ℤ x }
    ensures high { x <ℤ ((result +ℤ pos 1) *ℤ pos (2 ^ s)) }
{
    x >> s
}
