// Bytes in lent buffers: big-endian words, copies and comparison.
#![tactic(auto)]

ghost use Rattle.std.specs.Prelude.{◌≡◌, ◌+◌, ◌*◌, ◌<◌, ◌≤◌, length};
ghost use Rattle.octets.specs.Octets.{be, bytes, part, patch, word_at, words};
ghost use Rattle.octets.specs.Strings as Strings;

// The big-endian word at index `at`.
pub fn word_at(m: &[u8], at: usize) -> u32
    requires { at + 4 ≤ length m.now }
    ensures { result ≡ word_at m.now at }
{
    u32::from_be_bytes([m[at], m[at + 1], m[at + 2], m[at + 3]])
}

// Writes the word x, big-endian, from index `at`.
pub fn put_word(out: &mut [u8], at: usize, x: u32)
    requires { at + 4 ≤ length out.old }
    ensures { out.new ≡ patch at (be 4 x) out.old }
{
    out[at..at + 4].copy_from_slice(&x.to_be_bytes());
}

// The N big-endian words from index `at`.
pub fn words_at<const N: usize>(m: &[u8], at: usize) -> [u32; N]
    requires { at + 4 * N ≤ length m.now }
    ensures { result ≡ words N (part at (4 * N) m.now) }
{
    let mut w = [0u32; N];
    for t in 0..N {
        w[t] = word_at(m, at + 4 * t);
    }
    w
}

// Writes words, big-endian, from index `at`.
pub fn put_words(out: &mut [u8], at: usize, words: &[u32])
    requires { at + 4 * length words.now ≤ length out.old }
    ensures { out.new ≡ patch at (bytes words.now) out.old }
{
    for (i, &word) in words.iter().enumerate() {
        put_word(out, at + 4 * i, word);
    }
}

// Copies all of src into out from index `at`.
pub fn copy(out: &mut [u8], at: usize, src: &[u8])
    requires { at + length src.now ≤ length out.old }
    ensures { out.new ≡ patch at src.now out.old }
{
    out[at..at + src.len()].copy_from_slice(src);
}

// Whether a and b hold the same bytes.
pub fn same(a: &[u8], b: &[u8]) -> bool
    ensures { result ≡ Strings.same a.now b.now }
{
    a == b
}
