// Digests of messages of each length from 0 to 259, over the edges of the padding, and of some long ones, to compare
// with an independent implementation's: the file `stdout` has OpenSSL's.
#![tactic(auto)]

ghost use Rattle.std.specs.Prelude.{◌≡◌, ◌≤◌, length};

use sha256::hash;
use sha256_constants::RoundConstants;
use std::io;

// The message of n bytes: byte i is 31 i + n modulo 256.
fn fill(m: &mut [u8], n: usize) {
    for (i, byte) in m.iter_mut().enumerate() {
        *byte = ((i % 256 * 31 + n % 256) % 256) as u8;
    }
}

// A line: the message's length, a word on how it was hashed, and the digest.
fn line(rt: &impl Print, n: usize, how: &[u8], digest: [u8; 32]) -> io::Result<()> {
    print!(rt; "{n}")?;
    rt.write_all(how)?;
    for byte in &digest {
        print!(rt; "{byte:02x}")?;
    }
    println!(rt; "")
}

// The message of n bytes, hashed as one slice, and as two.
fn whole_and_two(rt: &impl Print, k: &RoundConstants, space: &mut [u8], n: usize) -> io::Result<()>
    requires { n ≤ length space.old }
{
    fill(space, n);
    let m = &space[..n];
    line(rt, n, b" whole ", hash::sha256(k, m))?;
    let at = n / 3;
    line(rt, n, b" two   ", hash::sha256_two(k, &m[..at], &m[at..]))
}

// The message of n bytes with its padding in one block, for n up to 55.
fn padded(n: usize) -> [u8; 64]
    requires { n ≤ 55 }
{
    let mut b = [0u8; 64];
    fill(&mut b[..n], n);
    b[n] = 128;
    b[62..].copy_from_slice(&(8 * n as u16).to_be_bytes());
    b
}

fn block(rt: &impl Print, k: &RoundConstants, n: usize) -> io::Result<()>
    requires { n ≤ 55 }
{
    let b = padded(n);
    line(rt, n, b" block ", hash::one_block(k, &b))
}

fn main(rt: HostRuntime) -> io::Result<()> {
    println!(rt;
        "# SHA-256 by OpenSSL (python3's hashlib); byte i of the message of n bytes is (31 i + n) mod 256"
    )?;
    let k = sha256_constants::round_constants();
    let mut space = [0u8; 65536];
    for n in 0..260 {
        whole_and_two(&rt, &k, &mut space, n)?;
    }
    whole_and_two(&rt, &k, &mut space, 1000)?;
    whole_and_two(&rt, &k, &mut space, 4096)?;
    whole_and_two(&rt, &k, &mut space, 65535)?;
    block(&rt, &k, 54)?;
    block(&rt, &k, 55)
}
