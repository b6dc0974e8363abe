// The two roots by which a figure is printed, each with what its words say.
ghost use Rattle.std.specs.Prelude.{◌≡◌};
ghost use Rattle.resistance.specs.Roots.{R, root_up, Largest, Smallest};

// R(q): the largest whole number r with 3·r² ≤ q².
pub fn root_third(q: u64) -> u64
    ensures value { result ≡ R q }
    ensures largest { Largest q result }
{
    let square = q as u128 * q as u128;
    (square / 3).isqrt() as u64
}

// The smallest whole number whose square is at least n.
pub fn root_up(n: u128) -> u128
    ensures value { result ≡ root_up n }
    ensures smallest { Smallest n result }
{
    let low = n.isqrt();
    if low * low == n { low } else { low + 1 }
}
