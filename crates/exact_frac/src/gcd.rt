// Euclid's algorithm.
ghost use Rattle.std.specs.Prelude.{◌<◌};
ghost use Rattle.std.specs.Int.{IsGcd};

// The greatest number that divides both. Of 0 and `b` it is `b`.
pub fn greatest_common_divisor(a: u128, b: u128) -> u128
    requires { 0 < b }
    ensures divisor { IsGcd a b result }
    ensures positive { 0 < result }
{
    let mut x = a;
    let mut y = b;
    'remainders: while y != 0 {
        let rest = x % y;
        x = y;
        y = rest;
    }
    x
}
