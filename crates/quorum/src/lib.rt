// Seats and thresholds: t0 and k of n, and sets of seats as masks.
#![tactic(auto)]

ghost use Rattle.std.specs.Prelude.{◌≡◌, ◌≤◌, ◌<◌};
ghost use Rattle.quorum.specs.Quorum.{most_seats, t0, k, has, size, one, union, with, all, shared, less, outside};

// A set of seats: seat s is the bit of worth 2 to the power s. A number and no type of its own, since C's records and answers hold it.
pub type Mask = u32;

// The most seats of a fleet: one for each bit of a mask.
pub const MOST_SEATS: u32 = 32;

// n/3 rounded up, less one.
pub fn t0(n: u32) -> u32
    requires { (1 ≤ n) × (n ≤ most_seats) }
    ensures { result ≡ t0 n }
{
    (n + 2) / 3 - 1
}

// The number of seats that it takes to confirm: all but t0.
pub fn k(n: u32) -> u32
    requires { (1 ≤ n) × (n ≤ most_seats) }
    ensures { result ≡ k n }
{
    n - t0(n)
}

// The number of seats in a set.
pub fn size(m: Mask) -> u32
    ensures { result ≡ size m }
{
    u32::count_ones(m)
}

// The set of one seat.
fn one(s: u32) -> Mask
    requires { s < most_seats }
    ensures { result ≡ one s }
{
    1 << s
}

// Whether a seat is in a set.
pub fn has(m: Mask, s: u32) -> bool
    requires { s < most_seats }
    ensures { result ≡ has s m }
{
    (m >> s) & 1 == 1
}

// A set with a seat added.
pub fn with(m: Mask, s: u32) -> Mask
    requires { s < most_seats }
    ensures { result ≡ with s m }
{
    m | one(s)
}

// The set of all n seats. A shift must stay below the mask's width, so the largest fleet is a case of its own.
pub fn all(n: u32) -> Mask
    requires { n ≤ most_seats }
    ensures { result ≡ all n }
{
    if n < MOST_SEATS { one(n) - 1 } else { !0 }
}

// The seats that two sets share.
pub fn shared(a: Mask, b: Mask) -> Mask
    ensures { result ≡ shared a b }
{
    a & b
}

// The seats of either set.
pub fn union(a: Mask, b: Mask) -> Mask
    ensures { result ≡ union a b }
{
    a | b
}

// The seats of the first set that the second doesn't have.
pub fn less(a: Mask, b: Mask) -> Mask
    ensures { result ≡ less a b }
{
    a ^ shared(a, b)
}

// The number of seats that two sets share.
pub fn shared_count(a: Mask, b: Mask) -> u32
    ensures { result ≡ size (shared a b) }
{
    size(shared(a, b))
}

// Whether a set names a seat at or above n.
pub fn names_outside(n: u32, m: Mask) -> bool
    requires { n ≤ most_seats }
    ensures { result ≡ outside n m }
{
    all(n) < m
}
