// The constants of FIPS 180-4: the round constants, worked out from the standard's rule, and the initial hash value.
#![tactic(auto)]

ghost use Rattle.std.specs.Prelude.{◌≡◌, ◌+◌, ◌*◌, ◌^◌, ◌≤◌, ◌<◌, leb};
ghost use Rattle.fips180.specs.Constants.{constants, initial};
ghost use Rattle.fips180.specs.Rule.{IsIntegerRoot};
ghost use Rattle.fips180.specs.Rule as Rule;

// Whether n is a prime. No number from 2 on divides a prime but itself; a number below 312 that is no prime has a smaller divisor from 2
// to 17.
fn prime(n: u64) -> bool
    requires { (2 ≤ n) × (n < 312) }
    ensures { result ≡ Rule.prime n }
{
    for d in 2..18 {
        if n % d == 0 {
            return n == d;
        }
    }
    true
}

// The cube root of m, rounded down, from a number x that isn't above it.
fn climbed(x: u64, m: u64) -> u64
    requires { (x ^ 3 ≤ m) × (m < 2 ^ 57) }
    ensures { IsIntegerRoot 3 m result }
{
    let mut r = x;
    // `while`: it ends at a test, at no number of turns known before.
    while (r + 1) * (r + 1) * (r + 1) <= m {
        r += 1;
    }
    r
}

// Whether (a s + d)^3 <= (a^3 + rest) s^3. Both sides less a^3 s^3 and divided by s^2, this is
// 3 a^2 d + (3 a d^2 + d^3 / s) / s <= rest s. Each quotient is rounded up: that changes no answer, since all else is whole numbers.
fn fits(a: u64, rest: u64, s: u64, d: u64) -> bool
    requires { (a < 2 ^ 19) × (rest < 2 ^ 40) × (1 ≤ s) × (s ≤ 2 ^ 16) × (d ≤ 2 ^ 16) }
    ensures { result ≡ leb ((a * s + d) ^ 3) ((a ^ 3 + rest) * s ^ 3) }
{
    let cube_part = (d * d * d + (s - 1)) / s;
    let square_part = (3 * a * d * d + cube_part + (s - 1)) / s;
    3 * a * a * d + square_part <= rest * s
}

// The cube root of m s^3, rounded down, from a, that of m. It is a s + d with d below s. The division gives a d that is not too high,
// since for d up to s (a s + d)^3 - (a s)^3 <= (3 a^2 + 3 a + 1) d s^2; from there d climbs.
#[tactic(auto, using(crate::specs::RootLaws::longer_sizes, crate::specs::RootLaws::digit_lt))]
fn longer(m: u64, a: u64, s: u64) -> u64
    requires { IsIntegerRoot 3 m a × (m < 2 ^ 57) × (1 ≤ s) × (s ≤ 2 ^ 16) }
    ensures { IsIntegerRoot 3 (m * s ^ 3) result }
{
    let rest = m - a * a * a;
    let mut d = rest * s / (3 * a * a + 3 * a + 1);
    // `while`, as in `climbed`.
    while fits(a, rest, s, d + 1) {
        d += 1;
    }
    a * s + d
}

// The first 32 bits of the fractional part of the cube root of p, from that root with 4 bits after the point.
fn fraction(p: u64, root4: u64) -> u32
    requires { (p < 2 ^ 9) × IsIntegerRoot 3 (p * 16 ^ 3) root4 }
    ensures { result ≡ Rule.fraction 3 p }
{
    let root8 = longer(p << 12, root4, 16);
    let root16 = longer(p << 24, root8, 256);
    let root32 = longer(p << 48, root16, 65536);
    (root32 % 4294967296) as u32
}

// The 64 round constants, section 4.2.2.
#[derive(Clone, Copy)]
pub struct RoundConstants {
    pub words: [u32; 64],

    pub ghost standard: { words ≡ constants },
}

// The round constants, worked out. From one prime to the next the root with 4 bits after the point climbs on.
pub fn round_constants() -> RoundConstants
    ensures { result.words ≡ constants }
{
    let mut words = [0u32; 64];
    let mut count = 0;
    let mut root4 = 0;
    for n in 2..312 {
        if prime(n) {
            root4 = climbed(root4, n << 12);
            words[count] = fraction(n, root4);
            count += 1;
        }
    }
    RoundConstants { words }
}

// The initial hash value, section 5.3.3.
#[tactic(auto, unfolding(fips180::specs::Constants::initial))]
pub fn initial_value() -> [u32; 8]
    ensures { result ≡ initial }
{
    [
        0x6a09e667, 0xbb67ae85, 0x3c6ef372, 0xa54ff53a, 0x510e527f, 0x9b05688c, 0x1f83d9ab,
        0x5be0cd19,
    ]
}
