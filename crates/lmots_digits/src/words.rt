// Words from bytes.
ghost use Rattle.std.specs.Prelude.{◌≡◌, ◌+◌, ◌*◌, ◌≤◌, length};
ghost use Rattle.octets.specs.Octets.{part, bytes};

// The N words of the 4 N bytes from index `at`: `octets::words_at`, with the contract by bytes that identifiers and values are told by.
pub fn words_at<const N: usize>(s: &[u8], at: usize) -> [u32; N]
    requires { at + 4 * N ≤ length s.now }
    ensures { bytes result ≡ part at (4 * N) s.now }
{
    octets::words_at(s, at)
}
