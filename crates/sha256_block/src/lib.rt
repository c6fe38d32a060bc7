// The compression of one block (FIPS 180-4, section 6.2.2).
#![tactic(auto)]

ghost use Rattle.std.specs.Prelude.{◌≡◌, ◌<◌, ◌≤◌, take};
ghost use Rattle.fips180.specs.Fips as Fips;

use sha256_constants::RoundConstants;
use sha256_words::{add, small_sigma0, small_sigma1, temp1, temp2};

// W[t] from the words before it.
#[tactic(auto, unfolding(fips180::specs::Fips::scheduled))]
fn scheduled(w: &[u32; 64], t: usize) -> u32
    requires { (16 ≤ t) × (t < 64) }
    ensures { result ≡ Fips.scheduled w.now t }
{
    add(
        add(
            add(small_sigma1(w[t - 2]), w[t - 7]),
            small_sigma0(w[t - 15]),
        ),
        w[t - 16],
    )
}

// The words of a block at the start of a schedule. Scratch: the words after them. One by one: with `copy_from_slice` a step of a chain
// takes 6 % longer (two calls of memcpy).
fn first_words(m: [u32; 16]) -> [u32; 64]
    ensures { take 16 result ≡ m }
{
    let mut w = [0u32; 64];
    for i in 0..16 {
        w[i] = m[i];
    }
    w
}

// The schedule of a block with the words m.
fn schedule(m: [u32; 16]) -> [u32; 64]
    ensures { result ≡ Fips.schedule m 48 }
{
    let mut w = first_words(m);
    for t in 16..64 {
        w[t] = scheduled(&w, t);
    }
    w
}

#[tactic(auto, unfolding(fips180::specs::Fips::round))]
fn round(k: u32, w: u32, s: [u32; 8]) -> [u32; 8]
    ensures { result ≡ Fips.round k w s }
{
    let t1 = temp1(k, w, s[4], s[5], s[6], s[7]);
    let t2 = temp2(s[0], s[1], s[2]);
    [
        add(t1, t2),
        s[0],
        s[1],
        s[2],
        add(s[3], t1),
        s[4],
        s[5],
        s[6],
    ]
}

#[tactic(auto, unfolding(fips180::specs::Fips::sums))]
fn sums(h: [u32; 8], s: [u32; 8]) -> [u32; 8]
    ensures { result ≡ Fips.sums h s }
{
    [
        add(h[0], s[0]),
        add(h[1], s[1]),
        add(h[2], s[2]),
        add(h[3], s[3]),
        add(h[4], s[4]),
        add(h[5], s[5]),
        add(h[6], s[6]),
        add(h[7], s[7]),
    ]
}

// The working variables after the 64 rounds. The inner loop is short enough for LLVM to write its eight rounds in a row, after which each
// working variable is in its first place again; a single loop over all is slower by a quarter.
fn rounds(k: &RoundConstants, w: &[u32; 64], h: [u32; 8]) -> [u32; 8]
    ensures { result ≡ Fips.rounds w.now h 64 }
{
    let mut s = h;
    for i in 0..8 {
        for j in 0..8 {
            let t = 8 * i + j;
            // By way of a name: the check covers no call's result laid in an array that the call reads.
            let next = round(k.words[t], w[t], s);
            s = next;
        }
    }
    s
}

// The hash value h after one more block, with the words m.
#[tactic(auto, unfolding(fips180::specs::Fips::compress))]
pub fn compress(k: &RoundConstants, h: [u32; 8], m: [u32; 16]) -> [u32; 8]
    ensures { result ≡ Fips.compress h m }
{
    let w = schedule(m);
    let s = rounds(k, &w, h);
    sums(h, s)
}
