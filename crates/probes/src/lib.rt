// The layers below the library's calls, and a copy of the lower certificate, exported for measurement and comparison. No part of what
// ships.
#![tactic(auto)]

ghost use Rattle.std.specs.Prelude.{◌≡◌, ℕ, ◌≤◌, length};
ghost use Rattle.octets.specs.Octets.{patch, words};
ghost use Rattle.quorum.specs.Quorum as Quorum;
ghost use Rattle.quorum.specs.Quorum.{most_seats};
ghost use Rattle.protocol.specs.Signatures.{checks};
ghost use Rattle.protocol.specs.Calls.{lower_certificate};
ghost use Rattle.probes.specs.Probes.{of_fleet, constants_refusal, constants_written, digest_refusal, digest_written, compress_refusal, compress_written, repeated, signed_refusal, signed_written, copy_refusal, copy_written};

use refusal::Refusal;
use sha256_constants::RoundConstants;

// A number of seats, as t0 or k, of a fleet of n; 0 where no fleet has n.
fn of_fleet<F: Fn(u32) -> u32>(n: u32, count: F) -> u32
    requires { 1 ≤ n → n ≤ most_seats → F.pre count n }
    ensures { (f : ℕ → ℕ) → ((r : ℕ) → F.post count n r → r ≡ f n) → result ≡ of_fleet f n }
{
    if n < 1 || quorum::MOST_SEATS < n {
        return 0;
    }
    count(n)
}

// t0 of a fleet of n seats; 0 where no fleet has n.
#[unsafe(no_mangle)]
pub extern "C" fn probe_t0(n: u32) -> u32
    ensures { result ≡ of_fleet Quorum.t0 n }
{
    of_fleet(n, quorum::t0)
}

// k of a fleet of n seats; 0 where no fleet has n.
#[unsafe(no_mangle)]
pub extern "C" fn probe_k(n: u32) -> u32
    ensures { result ≡ of_fleet Quorum.k n }
{
    of_fleet(n, quorum::k)
}

// The bytes of the round constants.
#[unsafe(no_mangle)]
pub extern "C" fn probe_round_constants(out: &mut [u8]) -> u32
    ensures value { result ≡ constants_refusal out.old }
    ensures out_after { out.new ≡ patch 0 (constants_written out.old) out.old }
{
    if out.len() < 256 {
        return Refusal::Out.number();
    }
    let k = sha256_constants::round_constants();
    octets::put_words(out, 0, &k.words);
    0
}

// The digest of a message.
#[unsafe(no_mangle)]
pub extern "C" fn probe_sha256(message: &[u8], out: &mut [u8]) -> u32
    ensures value { result ≡ digest_refusal out.old }
    ensures out_after { out.new ≡ patch 0 (digest_written message.now out.old) out.old }
{
    if out.len() < 32 {
        return Refusal::Out.number();
    }
    let k = sha256_constants::round_constants();
    let d = sha256::hash::sha256(&k, message);
    octets::copy(out, 0, &d);
    0
}

// The hash value after the same block, count times.
fn compress_times(k: &RoundConstants, h: [u32; 8], m: [u32; 16], count: u32) -> [u32; 8]
    ensures { result ≡ repeated h m count }
{
    let mut s = h;
    for _t in 0..count {
        let next = sha256_block::compress(k, s, m);
        s = next;
    }
    s
}

// The compression of one block, count times in a row, from and to the bytes of a hash value.
#[unsafe(no_mangle)]
pub extern "C" fn probe_compress_many(count: u32, state: &[u8], block: &[u8], out: &mut [u8]) -> u32
    ensures value { result ≡ compress_refusal state.now block.now out.old }
    ensures out_after { out.new ≡ patch 0 (compress_written count state.now block.now out.old) out.old }
{
    if out.len() < 32 {
        return Refusal::Out.number();
    }
    if state.len() != 32 {
        return Refusal::Garbled.number();
    }
    if block.len() != 64 {
        return Refusal::Garbled.number();
    }
    let k = sha256_constants::round_constants();
    let h = octets::words_at(state, 0);
    let m = sha256::hash::block_words(block, 0);
    let s = compress_times(&k, h, m, count);
    let d = sha256::hash::digest(s);
    octets::copy(out, 0, &d);
    0
}

// The values of an LM-OTS signature of width 8 for given digits.
#[unsafe(no_mangle)]
pub extern "C" fn probe_signed(q: u32, id: &[u8], seed: &[u8], digits: &[u8], out: &mut [u8]) -> u32
    ensures value { result ≡ signed_refusal id.now seed.now digits.now out.old }
    ensures out_after { out.new ≡ patch 0 (signed_written q id.now seed.now digits.now out.old) out.old }
{
    if out.len() < 1088 {
        return Refusal::Out.number();
    }
    if id.len() != 16 {
        return Refusal::Garbled.number();
    }
    if seed.len() != 32 {
        return Refusal::Garbled.number();
    }
    if digits.len() != 34 {
        return Refusal::Garbled.number();
    }
    let k = sha256_constants::round_constants();
    let i = lmots_digits::words::words_at(id, 0);
    let s = lmots_digits::words::words_at(seed, 0);
    let mut d = [0u8; 34];
    d.copy_from_slice(digits);
    lmots::key::write_signed(&k, i, q, s, &d, out, 0);
    0
}

// Copies m to the start of `out`, byte by byte: as one block, by `octets::copy`, it would be C's `memmove`, which nothing else in this
// archive asks for.
fn copy_bytes(out: &mut [u8], m: &[u8])
    requires { length m.now ≤ length out.old }
    ensures { out.new ≡ patch 0 m.now out.old }
{
    for (i, &byte) in m.iter().enumerate() {
        out[i] = byte;
    }
}

// A copy of the lower of two certificates.
#[unsafe(no_mangle)]
pub extern "C" fn probe_lower_certificate<'a>(
    n: u32,
    round: u32,
    keys: &[u8],
    first: &'a [u8],
    second: &'a [u8],
    out: &mut [u8],
) -> u32
    ensures { let lower = lower_certificate (checks keys.now round) n round keys.now first.now second.now in
        (result ≡ copy_refusal lower out.old)
        × (out.new ≡ patch 0 (copy_written lower out.old) out.old) }
{
    let lower = evidence::lower_certificate(n, round, keys, first, second);
    if out.len() < lower.len() {
        return Refusal::Out.number();
    }
    copy_bytes(out, lower);
    0
}
