// SHA-256 on 32-bit words: the functions of FIPS 180-4, section 4.1.2, and the two sums of a round.
#![tactic(auto)]

ghost use Rattle.std.specs.Prelude.{◌≡◌, ◌<◌};
ghost use Rattle.fips180.specs.Fips as Fips;

#[tactic(auto, unfolding(fips180::specs::Fips::add))]
pub fn add(x: u32, y: u32) -> u32
    ensures { result ≡ Fips.add x y }
{
    x.wrapping_add(y)
}

#[tactic(auto, unfolding(fips180::specs::Fips::rotr))]
fn rotr(x: u32, n: u32) -> u32
    requires { (0 < n) × (n < 32) }
    ensures { result ≡ Fips.rotr n x }
{
    x.rotate_right(n)
}

// `ch` and `maj`: the standard's values with fewer operations. In `maj`, `x ^ y` is the next round's `y ^ z`.
fn ch(x: u32, y: u32, z: u32) -> u32
    ensures { result ≡ Fips.ch x y z }
{
    z ^ (x & (y ^ z))
}

fn maj(x: u32, y: u32, z: u32) -> u32
    ensures { result ≡ Fips.maj x y z }
{
    y ^ ((x ^ y) & (y ^ z))
}

#[tactic(auto, unfolding(fips180::specs::Fips::big_sigma0))]
pub fn big_sigma0(x: u32) -> u32
    ensures { result ≡ Fips.big_sigma0 x }
{
    rotr(x, 2) ^ rotr(x, 13) ^ rotr(x, 22)
}

#[tactic(auto, unfolding(fips180::specs::Fips::big_sigma1))]
fn big_sigma1(x: u32) -> u32
    ensures { result ≡ Fips.big_sigma1 x }
{
    rotr(x, 6) ^ rotr(x, 11) ^ rotr(x, 25)
}

#[tactic(auto, unfolding(fips180::specs::Fips::small_sigma0, fips180::specs::Fips::shr))]
pub fn small_sigma0(x: u32) -> u32
    ensures { result ≡ Fips.small_sigma0 x }
{
    rotr(x, 7) ^ rotr(x, 18) ^ (x >> 3)
}

#[tactic(auto, unfolding(fips180::specs::Fips::small_sigma1, fips180::specs::Fips::shr))]
pub fn small_sigma1(x: u32) -> u32
    ensures { result ≡ Fips.small_sigma1 x }
{
    rotr(x, 17) ^ rotr(x, 19) ^ (x >> 10)
}

// T1 and T2 of a round, section 6.2.2.
#[tactic(auto, unfolding(fips180::specs::Fips::temp1))]
pub fn temp1(k: u32, w: u32, e: u32, f: u32, g: u32, h: u32) -> u32
    ensures { result ≡ Fips.temp1 k w e f g h }
{
    add(add(add(add(h, big_sigma1(e)), ch(e, f, g)), k), w)
}

#[tactic(auto, unfolding(fips180::specs::Fips::temp2))]
pub fn temp2(a: u32, b: u32, c: u32) -> u32
    ensures { result ≡ Fips.temp2 a b c }
{
    add(big_sigma0(a), maj(a, b, c))
}
