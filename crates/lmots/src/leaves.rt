// The keys of sixteen leaves side by side (RFC 8554, section 4.3): each column has a leaf of its own, and all go through the same
// chain together. The hash inputs of the keys stand in sixteen strings of 1,110 bytes, one after the other in z.
ghost use Rattle.std.specs.Prelude.{◌≡◌, ℕ, ◌+◌, ◌*◌, ◌<◌, ◌≤◌, get_or};
ghost use Rattle.octets.specs.Octets.{part, bytes};
ghost use Rattle.octets.specs.Strings.{joined};
ghost use Rattle.fips180.specs.Fips as Fips;
ghost use Rattle.sha256_lanes.specs.Rows.{column};
ghost use Rattle.rfc8554.specs.Ots.{d_pblc};
ghost use Rattle.rfc8554.specs.Ots as Ots;
ghost use Rattle.lmots_digits.specs.Pieces as Pieces;
ghost use Rattle.lmots.specs.Leaves.{Put, string};

use lmots_batches::{column, put_column};
use lmots_chains::sixteen::steps;
use lmots_digits::digits::front;
use sha256_constants::RoundConstants;

// The bytes of sixteen strings.
const STRINGS: usize = 17760;

// One value in every column.
fn put_all(y: [u32; 8], v: &mut [u32; 128])
    ensures { (l : ℕ) → l < 16 → column l 8 v.new ≡ y }
{
    for l in 0..16 {
        put_column(v, l, y);
    }
}

// The end of chain i in every column. The chain's start is a step too, from the seed and at place 255.
fn chain_ends(
    k: &RoundConstants,
    id: [u32; 4],
    leaves: [u32; 16],
    i: u32,
    seed: [u32; 8],
    v: &mut [u32; 128],
)
    requires { i < 34 }
    ensures { (l : ℕ) → l < 16 → bytes (column l 8 v.new) ≡ Ots.chain_end (bytes id) (get_or leaves l 0) 8 (bytes seed) i }
{
    put_all(seed, v);
    steps(k, id, leaves, &[i * 65536 + 65280; 16], 1, v);
    steps(k, id, leaves, &[i * 65536; 16], 255, v);
}

// Writes the ends of chain i to the strings of the leaves. Scratch: the rest of each string.
fn put_ends(v: &[u32; 128], i: usize, z: &mut [u8; STRINGS])
    requires { i < 34 }
    ensures { Put 16 i v.now z.old z.new }
{
    for l in 0..16 {
        let y = column(v, l);
        octets::put_words(z, 1110 * l + 32 * i + 22, &y);
    }
}

// Writes the fronts of the strings. Scratch: the rest of each string.
fn put_fronts(id: [u32; 4], leaves: [u32; 16], z: &mut [u8; STRINGS])
    ensures { (l : ℕ) → l < 16 → part (1110 * l) 22 z.new ≡ Pieces.front (bytes id) (get_or leaves l 0) d_pblc }
{
    for (l, &q) in leaves.iter().enumerate() {
        let start = front(id, q, 0x8080);
        octets::copy(z, 1110 * l, &start);
    }
}

// Writes the strings of the leaves, of width 8.
fn put_strings(
    k: &RoundConstants,
    id: [u32; 4],
    leaves: [u32; 16],
    seed: [u32; 8],
    z: &mut [u8; STRINGS],
)
    ensures { (l : ℕ) → l < 16 → part (1110 * l) 1110 z.new ≡ string (bytes id) (get_or leaves l 0) (bytes seed) 34 }
{
    let mut v = [0u32; 128];
    put_fronts(id, leaves, z);
    for i in 0..34 {
        chain_ends(k, id, leaves, i as u32, seed, &mut v);
        put_ends(&v, i, z);
    }
}

// The hash of string l.
fn hashed(k: &RoundConstants, z: &[u8; STRINGS], l: usize) -> [u8; 32]
    requires { l < 16 }
    ensures { result ≡ Fips.sha256 (part (1110 * l) 1110 z.now) }
{
    let at = 1110 * l;
    let end = at + 1110;
    sha256::hash::sha256(k, &z[at..end])
}

// The numbers of sixteen leaves, from q on.
fn numbers(q: u32) -> [u32; 16]
    requires { q + 16 ≤ 4294967296 }
    ensures { (l : ℕ) → l < 16 → get_or result l 0 ≡ q + l }
{
    let mut out = [q; 16];
    for l in 0..16 {
        out[l] = q + l as u32;
    }
    out
}

// The public keys of sixteen leaves from q on, of width 8, one after the other.
pub fn ots_keys(k: &RoundConstants, id: [u32; 4], q: u32, seed: [u32; 8]) -> [u8; 512]
    requires { q + 16 ≤ 4294967296 }
    ensures { result ≡ joined (λ l. Ots.ots_key (bytes id) (q + l) 8 (bytes seed)) 16 }
{
    let leaves = numbers(q);
    let mut z = [0u8; STRINGS];
    put_strings(k, id, leaves, seed, &mut z);
    let mut out = [0u8; 512];
    for l in 0..16 {
        let key = hashed(k, &z, l);
        octets::copy(&mut out, 32 * l, &key);
    }
    out
}
