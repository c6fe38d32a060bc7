// The nodes of the tree (RFC 8554, section 5.3).
ghost use Rattle.std.specs.Prelude.{◌≡◌, ◌++◌, ◌+◌, ◌≤◌, length};
ghost use Rattle.octets.specs.Octets.{bytes, part};
ghost use Rattle.fips180.specs.Fips as Fips;
ghost use Rattle.rfc8554.specs.Tree.{leaf_input, inner_input};
ghost use Rattle.lms.specs.Pieces.{over_children};

use sha256_constants::RoundConstants;

// The domain separators D_LEAF and D_INTR.
const LEAF: u32 = 0x8282;

const INNER: u32 = 0x8383;

// The n bytes of s from index `at`.
#[tactic(auto, unfolding(octets::specs::Octets::part))]
pub(crate) fn bytes_at(s: &[u8], at: usize, n: usize) -> &[u8]
    requires { at + n ≤ length s.now }
    ensures { result.now ≡ part at n s.now }
{
    let end = at + n;
    &s[at..end]
}

// The leaf r, over its LM-OTS key.
pub(crate) fn leaf(k: &RoundConstants, id: [u32; 4], r: u32, key: &[u8]) -> [u8; 32]
    ensures { result ≡ Fips.sha256 (leaf_input (bytes id) r key.now) }
{
    let p = lmots_digits::digits::front(id, r, LEAF);
    sha256::hash::sha256_two(k, &p, key)
}

// The inner node r, over its children, which stand one after the other.
pub(crate) fn inner(k: &RoundConstants, id: [u32; 4], r: u32, children: &[u8]) -> [u8; 32]
    ensures { result ≡ Fips.sha256 (over_children (bytes id) r children.now) }
{
    let p = lmots_digits::digits::front(id, r, INNER);
    sha256::hash::sha256_two(k, &p, children)
}

// Two children, one after the other.
fn pair(left: &[u8], right: &[u8]) -> [u8; 64]
    requires { (length left.now ≡ 32) × (length right.now ≡ 32) }
    ensures { result ≡ left.now ++ right.now }
{
    let mut c = [0u8; 64];
    octets::copy(&mut c, 0, left);
    octets::copy(&mut c, 32, right);
    c
}

// The inner node r, over its left and its right child.
pub(crate) fn parent(
    k: &RoundConstants,
    id: [u32; 4],
    r: u32,
    left: &[u8],
    right: &[u8],
) -> [u8; 32]
    requires { (length left.now ≡ 32) × (length right.now ≡ 32) }
    ensures { result ≡ Fips.sha256 (inner_input (bytes id) r left.now right.now) }
{
    let c = pair(left, right);
    inner(k, id, r, &c)
}
