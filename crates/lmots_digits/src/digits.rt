// The digits of a message: its hash and the checksum (RFC 8554, sections 3.1.3, 4.4 and 4.5).
ghost use Rattle.std.specs.Prelude.{◌≡◌, ◌++◌, ◌-◌, ◌*◌, ◌/◌, ◌^◌, ◌<◌, ◌≤◌, length};
ghost use Rattle.octets.specs.Octets.{bytes};
ghost use Rattle.rfc8554.specs.Ots.{d_mesg};
ghost use Rattle.rfc8554.specs.Ots as Ots;
ghost use Rattle.lmots_digits.specs.Pieces as Pieces;
ghost use Rattle.lmots_digits.specs.Width.{bits_of};

use crate::width::Width;
use sha256_constants::RoundConstants;

// The i-th digit of w bits of s.
pub fn coef(w: Width, s: &[u8], i: usize) -> u32
    requires { i * bits_of w / 8 < length s.now }
    ensures { (result ≡ Ots.coef (bits_of w) s.now i) × (result ≤ 2 ^ bits_of w - 1) }
{
    match w {
        Width::Eight => u32::from(s[i]),
        Width::Four => {
            let b = u32::from(s[i / 2]);
            if i % 2 == 0 { b / 16 } else { b % 16 }
        }
    }
}

// The checksum of a digest.
fn checksum(w: Width, digest: &[u8; 32]) -> u32
    ensures { result ≡ Ots.checksum (bits_of w) digest.now }
{
    let top = w.most();
    let mut sum: u32 = 0;
    for i in 0..w.digits() {
        sum += top - coef(w, digest, i);
    }
    sum << w.left_shift()
}

// A digest with its checksum.
fn with_checksum(w: Width, digest: [u8; 32]) -> [u8; 34]
    ensures { result ≡ Ots.with_checksum (bits_of w) digest }
{
    let sum = checksum(w, &digest);
    let mut out = [0u8; 34];
    out[..32].copy_from_slice(&digest);
    out[32..].copy_from_slice(&sum.to_be_bytes()[2..]);
    out
}

// The front of the hash input of a message, key or node: identifier, leaf or node number, and the separator d.
pub fn front(id: [u32; 4], q: u32, d: u32) -> [u8; 22]
    ensures { result ≡ Pieces.front (bytes id) q d }
{
    let mut out = [0u8; 22];
    octets::put_words(&mut out, 0, &id);
    octets::put_word(&mut out, 16, q);
    out[20..].copy_from_slice(&d.to_be_bytes()[2..]);
    out
}

// The hash input before the message: identifier, leaf number, separator and randomizer.
fn prefix(id: [u32; 4], q: u32, c: &[u8]) -> [u8; 54]
    requires { length c.now ≡ 32 }
    ensures { result ≡ Pieces.front (bytes id) q d_mesg ++ c.now }
{
    let start = front(id, q, 0x8181);
    let mut out = [0u8; 54];
    out[..22].copy_from_slice(&start);
    out[22..].copy_from_slice(c);
    out
}

// The digits of a message, as bytes: its hash, then the checksum.
pub fn message_digits(
    k: &RoundConstants,
    id: [u32; 4],
    q: u32,
    w: Width,
    c: &[u8],
    message: &[u8],
) -> [u8; 34]
    requires { length c.now ≡ 32 }
    ensures { result ≡ Ots.digested (bytes id) q (bits_of w) c.now message.now }
{
    let start = prefix(id, q, c);
    let digest = sha256::hash::sha256_two(k, &start, message);
    with_checksum(w, digest)
}
