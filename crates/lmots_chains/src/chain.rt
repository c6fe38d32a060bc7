// Chains: a step is one compression (RFC 8554, section 4.3 and Appendix A). Identifier and leaf stay two parameters, as in the RFC's
// definitions: a struct of both would be made at each call and taken apart in each contract.
ghost use Rattle.std.specs.Prelude.{◌≡◌, ◌+◌, ◌<◌, ◌≤◌};
ghost use Rattle.octets.specs.Octets.{bytes};
ghost use Rattle.fips180.specs.Fips.{pad};
ghost use Rattle.rfc8554.specs.Ots.{chain_input};
ghost use Rattle.rfc8554.specs.Ots as Ots;
ghost use Rattle.lmots_chains.specs.Pieces as Pieces;

use sha256_block::compress;
use sha256_constants::{RoundConstants, initial_value};

// The last three bytes of a word and the first of the next.
#[tactic(auto, unfolding(crate::specs::Pieces::across))]
pub(crate) fn across(a: u32, b: u32) -> u32
    ensures { result ≡ Pieces.across a b }
{
    a % 16777216 * 256 + b / 16777216 % 256
}

// The hash input at place j of chain i, as a padded block.
fn block(id: [u32; 4], q: u32, i: u32, j: u32, tmp: [u32; 8]) -> [u32; 16]
    requires { (i < 65536) × (j < 256) }
    ensures { bytes result ≡ pad (chain_input (bytes id) q i j (bytes tmp)) }
{
    let [a, b, c, d, e, f, g, h] = tmp;
    [
        id[0],
        id[1],
        id[2],
        id[3],
        q,
        i * 65536 + j * 256 + a / 16777216 % 256,
        across(a, b),
        across(b, c),
        across(c, d),
        across(d, e),
        across(e, f),
        across(f, g),
        across(g, h),
        h % 16777216 * 256 + 128,
        0,
        440,
    ]
}

// The step at place j of chain i.
fn step(k: &RoundConstants, id: [u32; 4], q: u32, i: u32, j: u32, tmp: [u32; 8]) -> [u32; 8]
    requires { (i < 65536) × (j < 256) }
    ensures { bytes result ≡ Ots.H (chain_input (bytes id) q i j (bytes tmp)) }
{
    let m = block(id, q, i, j, tmp);
    let h = initial_value();
    compress(k, h, m)
}

// The value of chain i after `count` steps from place `from`, where it was tmp.
pub fn chain(
    k: &RoundConstants,
    id: [u32; 4],
    q: u32,
    i: u32,
    from: u32,
    count: u32,
    tmp: [u32; 8],
) -> [u32; 8]
    requires { (i < 65536) × (from + count ≤ 255) }
    ensures { bytes result ≡ Ots.chain (bytes id) q i from count (bytes tmp) }
{
    let mut h = tmp;
    for t in 0..count {
        let next = step(k, id, q, i, from + t, h);
        h = next;
    }
    h
}

// The start of chain i, from the seed.
#[tactic(auto, unfolding(rfc8554::specs::Ots::start))]
pub fn start(k: &RoundConstants, id: [u32; 4], q: u32, i: u32, seed: [u32; 8]) -> [u32; 8]
    requires { i < 65536 }
    ensures { bytes result ≡ Ots.start (bytes id) q (bytes seed) i }
{
    step(k, id, q, i, 255, seed)
}
