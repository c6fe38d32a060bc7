// Hashing of whole messages (FIPS 180-4, sections 5 and 6.2).
ghost use Rattle.std.specs.Prelude.{◌≡◌, ◌++◌, ◌+◌, ◌%◌, ◌<◌, ◌≤◌, length, take};
ghost use Rattle.octets.specs.Octets.{part, words, bytes};
ghost use Rattle.fips180.specs.Fips.{padding, absorbed};
ghost use Rattle.fips180.specs.Fips as Fips;
ghost use Rattle.fips180.specs.Pieces.{ended, one_block};

use sha256_block::compress;
use sha256_constants::{RoundConstants, initial_value};

// The sixteen words of the block at index `at`.
pub fn block_words(m: &[u8], at: usize) -> [u32; 16]
    requires { at + 64 ≤ length m.now }
    ensures { result ≡ words 16 (part at 64 m.now) }
{
    octets::words_at(m, at)
}

// The hash value h after all whole blocks of m.
fn absorb(k: &RoundConstants, h: [u32; 8], m: &[u8]) -> [u32; 8]
    ensures { result ≡ absorbed h m.now }
{
    let mut s = h;
    for t in 0..m.len() / 64 {
        let next = compress(k, s, block_words(m, 64 * t));
        s = next;
    }
    s
}

// The bytes of the eight words of a hash value.
pub fn digest(h: [u32; 8]) -> [u8; 32]
    ensures { result ≡ bytes h }
{
    let mut out = [0u8; 32];
    octets::put_words(&mut out, 0, &h);
    out
}

// The end of the padding after a tail of n bytes: one block, or two from 56 bytes on.
#[tactic(auto, unfolding(fips180::specs::Pieces::ended))]
fn padded_end(n: usize) -> usize
    ensures { (result ≡ ended n) × (64 ≤ result) × (result ≤ 128) }
{
    if n < 56 { 64 } else { 128 }
}

// The tail of a message of `total` bytes with its padding, in one or two blocks. Scratch: the bytes after them.
fn padded_tail(tail: &[u8], total: usize) -> [u8; 128]
    requires { length tail.now ≡ total % 64 }
    ensures { take (ended (length tail.now)) result ≡ tail.now ++ padding total }
{
    let n = tail.len();
    let end = padded_end(n);
    let bits = (total as u64).wrapping_mul(8);
    let mut block = [0u8; 128];
    octets::copy(&mut block, 0, tail);
    block[n] = 128;
    octets::copy(&mut block, end - 8, &bits.to_be_bytes());
    block
}

// The digest of a message of `total` bytes, from the hash value h before its tail.
fn finish(k: &RoundConstants, h: [u32; 8], tail: &[u8], total: usize) -> [u8; 32]
    requires { length tail.now ≡ total % 64 }
    ensures { result ≡ bytes (absorbed h (tail.now ++ padding total)) }
{
    let block = padded_tail(tail, total);
    let end = padded_end(tail.len());
    let s = absorb(k, h, &block[..end]);
    digest(s)
}

// The digest of m.
pub fn sha256(k: &RoundConstants, m: &[u8]) -> [u8; 32]
    ensures { result ≡ Fips.sha256 m.now }
{
    let h = initial_value();
    let s = absorb(k, h, m);
    let at = m.len() / 64 * 64;
    finish(k, s, &m[at..], m.len())
}

// A block that starts with a and then b. Scratch: the bytes after them.
fn joint(a: &[u8], b: &[u8]) -> [u8; 64]
    requires { length a.now + length b.now ≤ 64 }
    ensures { take (length a.now + length b.now) result ≡ a.now ++ b.now }
{
    let mut block = [0u8; 64];
    octets::copy(&mut block, 0, a);
    octets::copy(&mut block, a.len(), b);
    block
}

// The digest of a message of `total` bytes, from the hash value h before its last bytes: the tail and then m, less than a block.
fn finish_short(k: &RoundConstants, h: [u32; 8], tail: &[u8], m: &[u8], total: usize) -> [u8; 32]
    requires { (length tail.now + length m.now < 64) × ((length tail.now + length m.now) % 64 ≡ total % 64) }
    ensures { result ≡ bytes (absorbed h (tail.now ++ (m.now ++ padding total))) }
{
    let block = joint(tail, m);
    let n = tail.len() + m.len();
    finish(k, h, &block[..n], total)
}

// The same where tail and m are a block or more: that block, then the rest of m.
fn finish_long(k: &RoundConstants, h: [u32; 8], tail: &[u8], m: &[u8], total: usize) -> [u8; 32]
    requires { (length tail.now < 64) × (64 ≤ length tail.now + length m.now) × ((length tail.now + length m.now) % 64 ≡ total % 64) }
    ensures { result ≡ bytes (absorbed h (tail.now ++ (m.now ++ padding total))) }
{
    let from = 64 - tail.len();
    let block = joint(tail, &m[..from]);
    let s = absorb(k, h, &block);
    let rest = &m[from..];
    let t = absorb(k, s, rest);
    let end = rest.len() / 64 * 64;
    finish(k, t, &rest[end..], total)
}

// The digest of a followed by b, which need not stand in one slice.
pub fn sha256_two(k: &RoundConstants, a: &[u8], b: &[u8]) -> [u8; 32]
    ensures { result ≡ Fips.sha256 (a.now ++ b.now) }
{
    let h = initial_value();
    let s = absorb(k, h, a);
    let at = a.len() / 64 * 64;
    let total = a.len() + b.len();
    if a.len() - at + b.len() < 64 {
        finish_short(k, s, &a[at..], b, total)
    } else {
        finish_long(k, s, &a[at..], b, total)
    }
}

// The digest of a message of at most 55 bytes, given as its one padded block: one compression.
pub fn one_block(k: &RoundConstants, block: &[u8]) -> [u8; 32]
    requires { length block.now ≡ 64 }
    ensures { result ≡ one_block block.now }
{
    let w = block_words(block, 0);
    let h = initial_value();
    let s = compress(k, h, w);
    digest(s)
}
