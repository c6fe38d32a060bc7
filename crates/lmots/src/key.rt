// Signature and candidate key (RFC 8554, sections 4.5 and 4.6).
ghost use Rattle.std.specs.Prelude.{◌≡◌, ℕ, ◌+◌, ◌-◌, ◌*◌, ◌^◌, ◌<◌, ◌≤◌, length, take, get_or};
ghost use Rattle.octets.specs.Octets.{patch, bytes};
ghost use Rattle.octets.specs.Strings.{joined};
ghost use Rattle.rfc8554.specs.Ots as Ots;
ghost use Rattle.lmots_digits.specs.Width.{bits_of};

use lmots_batches::{Chains, VALUES, run};
use lmots_chains::chain::start;
use lmots_digits::digits::{coef, front, message_digits};
use lmots_digits::width::Width;
use sha256_constants::RoundConstants;

// The digits of width w, as places of chains. Scratch: the places after them.
fn digit_places(w: Width, digits: &[u8; 34]) -> [u32; 67]
    ensures { ((i : ℕ) → i < Ots.chains (bits_of w) → get_or result i 0 ≡ Ots.coef (bits_of w) digits.now i) × ((i : ℕ) → i < 67 → get_or result i 0 ≤ 2 ^ bits_of w - 1) }
{
    let mut out = [0u32; 67];
    for i in 0..w.chains() {
        out[i] = coef(w, digits, i);
    }
    out
}

// Writes the starts of the chains of width 8.
fn write_starts(k: &RoundConstants, id: [u32; 4], q: u32, seed: [u32; 8], z: &mut [u8; VALUES])
    ensures { z.new ≡ patch 0 (joined (Ots.start (bytes id) q (bytes seed)) 34) z.old }
{
    for i in 0..34 {
        let x = start(k, id, q, i as u32, seed);
        octets::put_words(z, 32 * i, &x);
    }
}

// The values of a signature of width 8: each chain from its start as many steps as its digit says. Scratch: the bytes from 1,088 on.
fn signed(
    k: &RoundConstants,
    id: [u32; 4],
    q: u32,
    seed: [u32; 8],
    digits: &[u8; 34],
) -> [u8; VALUES]
    ensures { take 1088 result ≡ joined (Ots.signed (bytes id) q 8 (bytes seed) digits.now) 34 }
{
    let chains = Chains {
        n: 34,
        places: [0; 67],
        ends: digit_places(Width::Eight, digits),
    };
    let mut z = [0u8; VALUES];
    write_starts(k, id, q, seed, &mut z);
    run(k, id, q, chains, &mut z);
    z
}

// Writes the values of a signature of width 8 for the digits, from index `at`.
pub fn write_signed(
    k: &RoundConstants,
    id: [u32; 4],
    q: u32,
    seed: [u32; 8],
    digits: &[u8; 34],
    out: &mut [u8],
    at: usize,
)
    requires { at + 1088 ≤ length out.old }
    ensures { out.new ≡ patch at (joined (Ots.signed (bytes id) q 8 (bytes seed) digits.now) 34) out.old }
{
    let z = signed(k, id, q, seed, digits);
    octets::copy(out, at, &z[..1088]);
}

// The ends of all chains, from the values of a signature, at the places that the digits say. Scratch: the bytes after them.
fn completed(
    k: &RoundConstants,
    id: [u32; 4],
    q: u32,
    w: Width,
    digits: &[u8; 34],
    sig: &[u8],
) -> [u8; VALUES]
    requires { length sig.now ≡ Ots.ots_length (bits_of w) }
    ensures { take (32 * Ots.chains (bits_of w)) result ≡ joined (Ots.completed (bytes id) q (bits_of w) digits.now sig.now) (Ots.chains (bits_of w)) }
{
    let chains = Chains {
        n: w.chains(),
        places: digit_places(w, digits),
        ends: [w.most(); 67],
    };
    let mut z = [0u8; VALUES];
    octets::copy(&mut z, 0, &sig[36..]);
    run(k, id, q, chains, &mut z);
    z
}

// The candidate key of a signature of width w.
pub fn candidate(
    k: &RoundConstants,
    id: [u32; 4],
    q: u32,
    w: Width,
    message: &[u8],
    sig: &[u8],
) -> [u8; 32]
    requires { length sig.now ≡ Ots.ots_length (bits_of w) }
    ensures { result ≡ Ots.candidate (bytes id) q (bits_of w) message.now sig.now }
{
    let digits = message_digits(k, id, q, w, &sig[4..36], message);
    let z = completed(k, id, q, w, &digits, sig);
    let start = front(id, q, 0x8080);
    let ends = 32 * w.chains();
    sha256::hash::sha256_two(k, &start, &z[..ends])
}
