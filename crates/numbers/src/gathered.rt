// Every second bit of a word, gathered in five folds.
ghost use Rattle.std.specs.Prelude.{◌≡◌, ◌≤◌};
ghost use Rattle.laws.specs.Num.{num};
ghost use Rattle.numbers.specs.Gathered.{every, fold};

// One fold: of each two groups of s bits the upper comes first, and the lower above it.
fn folded(x: u64, s: u32, m: u64) -> u64
    requires { s ≤ 16 }
    ensures { result ≡ fold s m x }
{
    ((x << s) | (x >> (2 * s))) & m
}

// The even bits of a word as a number of 32 bits, the lowest the most significant.
pub fn gathered(x: u64) -> u64
    ensures { result ≡ num (every 0 x) 0 32 }
{
    let a = folded(x & 0x5555_5555_5555_5555, 1, 0x3333_3333_3333_3333);
    let b = folded(a, 2, 0x0f0f_0f0f_0f0f_0f0f);
    let c = folded(b, 4, 0x00ff_00ff_00ff_00ff);
    let d = folded(c, 8, 0x0000_ffff_0000_ffff);
    folded(d, 16, 0x0000_0000_ffff_ffff)
}
