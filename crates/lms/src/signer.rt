// The parts of a public key and of a signature, written to the caller's buffer. Their types are 6 and 4: ten levels, and digits of
// eight bits.
ghost use Rattle.std.specs.Prelude.{◌≡◌, ◌++◌, ◌+◌, ◌≤◌, ◌<◌, length};
ghost use Rattle.octets.specs.Octets.{be, bytes, patch};
ghost use Rattle.octets.specs.Strings.{joined};
ghost use Rattle.rfc8554.specs.Ots.{digested, signed};
ghost use Rattle.rfc8554.specs.Tree as Tree;
ghost use Rattle.rfc8554.specs.Tree.{path, lms_signature};
ghost use Rattle.protocol.specs.Layout.{signature_length, tree_length};

use crate::node;
use crate::types::{TreeType, ots_type};
use lmots_digits::width::Width;
use sha256_constants::RoundConstants;

// The public key: both types, the identifier and the root.
pub(crate) fn write_key(id: &[u8], root: &[u8], out: &mut [u8])
    requires { (length id.now ≡ 16) × (length root.now ≡ 32) × (56 ≤ length out.old) }
    ensures { out.new ≡ patch 0 (be 4 6 ++ be 4 4 ++ id.now ++ root.now) out.old }
{
    octets::put_word(out, 0, TreeType::Ten.number());
    octets::put_word(out, 4, ots_type(Width::Eight));
    octets::copy(out, 8, id);
    octets::copy(out, 24, root);
}

// The head of a signature: the leaf, the LM-OTS type and the randomizer.
fn write_head(leaf: u32, randomizer: &[u8], out: &mut [u8])
    requires { (length randomizer.now ≡ 32) × (40 ≤ length out.old) }
    ensures { out.new ≡ patch 0 (be 4 leaf ++ be 4 4 ++ randomizer.now) out.old }
{
    octets::put_word(out, 0, leaf);
    octets::put_word(out, 4, ots_type(Width::Eight));
    octets::copy(out, 8, randomizer);
}

// The node beside the node r.
#[tactic(auto, unfolding(rfc8554::specs::Tree::sibling))]
fn sibling(r: u32) -> u32
    requires { (1 < r) × (r < 2048) }
    ensures { (result ≡ Tree.sibling r) × (result < 2048) }
{
    if r % 2 == 0 { r + 1 } else { r - 1 }
}

// The path of the leaf r: the nodes beside the way up, from the tree's buffer.
fn write_path(tree: &[u8], r: u32, out: &mut [u8], at: usize)
    requires { (length tree.now ≡ tree_length) × (1024 ≤ r) × (r < 2048) × (at + 320 ≤ length out.old) }
    ensures { out.new ≡ patch at (joined (path tree.now r) 10) out.old }
{
    let mut x = r;
    for i in 0..10 {
        let from = 32 * sibling(x) as usize;
        let beside = node::bytes_at(tree, from, 32);
        octets::copy(out, at + 32 * i, beside);
        x = x / 2;
    }
}

// The tail of a signature: the LMS type and the path of the leaf.
#[tactic(auto, unfolding(protocol::specs::Layout::signature_length))]
fn write_tail(tree: &[u8], leaf: u32, out: &mut [u8])
    requires { (length tree.now ≡ tree_length) × (leaf < 1024) × (signature_length ≤ length out.old) }
    ensures { out.new ≡ patch 1128 (be 4 6 ++ joined (path tree.now (1024 + leaf)) 10) out.old }
{
    octets::put_word(out, 1128, TreeType::Ten.number());
    write_path(tree, 1024 + leaf, out, 1132);
}

// The values of a signature, one from each chain.
fn write_values(
    k: &RoundConstants,
    id: [u32; 4],
    seed: [u32; 8],
    leaf: u32,
    randomizer: &[u8],
    message: &[u8],
    out: &mut [u8],
)
    requires { (length randomizer.now ≡ 32) × (1128 ≤ length out.old) }
    ensures { out.new ≡ patch 40 (joined (signed (bytes id) leaf 8 (bytes seed) (digested (bytes id) leaf 8 randomizer.now message.now)) 34) out.old }
{
    let digits = lmots_digits::digits::message_digits(
        k,
        id,
        leaf,
        Width::Eight,
        randomizer,
        message,
    );
    lmots::key::write_signed(k, id, leaf, seed, &digits, out, 40);
}

// A whole signature.
pub(crate) fn write_signature(
    leaf: u32,
    seed: &[u8],
    id: &[u8],
    randomizer: &[u8],
    tree: &[u8],
    message: &[u8],
    out: &mut [u8],
)
    requires { (leaf < 1024) × (length seed.now ≡ 32) × (length id.now ≡ 16) × (length randomizer.now ≡ 32) × (length tree.now ≡ tree_length) × (signature_length ≤ length out.old) }
    ensures { out.new ≡ patch 0 (lms_signature 6 4 id.now leaf seed.now randomizer.now message.now tree.now) out.old }
{
    let k = sha256_constants::round_constants();
    let id_words = lmots_digits::words::words_at(id, 0);
    let seed_words = lmots_digits::words::words_at(seed, 0);
    write_head(leaf, randomizer, out);
    write_values(&k, id_words, seed_words, leaf, randomizer, message, out);
    write_tail(tree, leaf, out);
}
