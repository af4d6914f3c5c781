// Which of two pairs is compared first, in the order that a mode names.
ghost use Rattle.std.specs.Prelude.{◌≡◌, ◌≤◌};
ghost use Rattle.pairs.specs.Pairs.{pair};
ghost use Rattle.plain.specs.Plain.{pair_of_two};
ghost use Rattle.plain.specs.Before.{earlier_of, before_in};

// Is (a, b) before (c, d) by the first numbers, and then by the second ones?
fn is_earlier(a: u32, b: u32, c: u32, d: u32) -> bool
    ensures { result ≡ earlier_of a b c d }
{
    if a == c {
        return b < d;
    }
    a < c
}

// Does (a, b) come before (c, d)?
pub fn is_before(mode: u32, a: u32, b: u32, c: u32, d: u32) -> bool
    requires { (1 ≤ a) × (1 ≤ b) }
    ensures { result ≡ before_in mode (pair a b) (pair c d) }
{
    if mode == 2 {
        return is_earlier(b, a, d, c);
    }
    is_earlier(a, b, c, d)
}

// Does the pair of u and v come before (i, j)?
pub fn comes_before(mode: u32, u: u32, v: u32, i: u32, j: u32) -> bool
    requires { (1 ≤ u) × (1 ≤ v) }
    ensures { result ≡ before_in mode (pair_of_two u v) (pair i j) }
{
    if u < v {
        return is_before(mode, u, v, i, j);
    }
    is_before(mode, v, u, i, j)
}
