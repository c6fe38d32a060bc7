// The check of a signature (RFC 8554, section 5.4.2).
ghost use Rattle.std.specs.Prelude.{◌≡◌, false, ◌+◌, ◌*◌, ◌^◌, ◌≤◌, ◌<◌, length};
ghost use Rattle.octets.specs.Octets.{bytes};
ghost use Rattle.fips180.specs.Fips as Fips;
ghost use Rattle.rfc8554.specs.Ots.{ots_length, candidate};
ghost use Rattle.rfc8554.specs.Tree as Tree;
ghost use Rattle.rfc8554.specs.Tree.{leaf_input};
ghost use Rattle.rfc8554.specs.Verify.{leaf_of, ots_part, level_up, climbed, root_candidate, signature_length, signature_invalid, valid};
ghost use Rattle.refusal.specs.Answers.{number_in};
ghost use Rattle.lmots_digits.specs.Width.{bits_of};
ghost use Rattle.lms.specs.Types.{tree_type, ots_type};
ghost use Rattle.protocol.specs.Refusals.{wrong_key};
ghost use Rattle.protocol.specs.Signatures.{signature_number};

use crate::types::{TreeType, width_of};
use crate::{node, types};
use lmots_digits::width::Width;
use refusal::Refusal;
use sha256_constants::RoundConstants;

// The length of an LM-OTS signature of width w: its type, the randomizer and a value from each chain.
#[tactic(auto, unfolding(rfc8554::specs::Ots::ots_length))]
fn ots_length(w: Width) -> usize
    ensures { (result ≡ ots_length (bits_of w)) × (result ≤ 2180) }
{
    36 + 32 * w.chains()
}

// ---- refusals before any hashing

// Whether a key isn't 56 bytes, or has a type that isn't known.
pub(crate) fn key_refused(key: &[u8]) -> bool
    ensures { result ≡ wrong_key key.now }
{
    if key.len() != layout::key_length() {
        return true;
    }
    let tree = TreeType::of(octets::word_at(key, 0));
    let width = width_of(octets::word_at(key, 4));
    tree.is_none() || width.is_none()
}

// Whether Algorithm 6a rejects the signature for its length, its types or its leaf.
fn signature_refused(tree: TreeType, w: Width, signature: &[u8]) -> bool
    ensures { result ≡ signature_invalid (tree_type tree) (ots_type w) signature.now }
{
    let at = 4 + ots_length(w);
    if signature.len() != at + 4 + 32 * tree.height() {
        return true;
    }
    if octets::word_at(signature, 4) != types::ots_type(w) {
        return true;
    }
    if octets::word_at(signature, at) != tree.number() {
        return true;
    }
    tree.leaves() <= octets::word_at(signature, 0)
}

// ---- the climb

// The parent of the node r, from its value tmp and the node beside it.
fn level_up(k: &RoundConstants, id: [u32; 4], r: u32, beside: &[u8], tmp: &[u8]) -> [u8; 32]
    requires { (length beside.now ≡ 32) × (length tmp.now ≡ 32) }
    ensures { result ≡ level_up (bytes id) r beside.now tmp.now }
{
    if r % 2 == 1 {
        return node::parent(k, id, r / 2, beside, tmp);
    }
    node::parent(k, id, r / 2, tmp, beside)
}

// The node h levels above the leaf r, from the leaf's value `start` and the path in the signature.
fn climb(
    k: &RoundConstants,
    id: [u32; 4],
    h: usize,
    w: Width,
    r: u32,
    signature: &[u8],
    start: [u8; 32],
) -> [u8; 32]
    requires { length signature.now ≡ signature_length h (bits_of w) }
    ensures { result ≡ climbed (bytes id) (bits_of w) r signature.now start h }
{
    let at = 8 + ots_length(w);
    let mut tmp = start;
    let mut x = r;
    for i in 0..h {
        let beside = node::bytes_at(signature, at + 32 * i, 32);
        tmp = level_up(k, id, x, beside, &tmp);
        x = x / 2;
    }
    tmp
}

// ---- the root

// The leaf r, over the candidate key of the signature of leaf q.
fn leaf_candidate(
    k: &RoundConstants,
    id: [u32; 4],
    w: Width,
    q: u32,
    r: u32,
    message: &[u8],
    signature: &[u8],
) -> [u8; 32]
    requires { 4 + ots_length (bits_of w) ≤ length signature.now }
    ensures { result ≡ Fips.sha256 (leaf_input (bytes id) r (candidate (bytes id) q (bits_of w) message.now (ots_part (bits_of w) signature.now))) }
{
    let sig = node::bytes_at(signature, 4, ots_length(w));
    let key = lmots::key::candidate(k, id, q, w, message, sig);
    node::leaf(k, id, r, &key)
}

// The candidate root of a signature, for a key of these types.
fn root_candidate(
    k: &RoundConstants,
    id: [u32; 4],
    tree: TreeType,
    w: Width,
    message: &[u8],
    signature: &[u8],
) -> [u8; 32]
    requires { (length signature.now ≡ signature_length (Tree.height (tree_type tree)) (bits_of w)) × (leaf_of signature.now < 2 ^ Tree.height (tree_type tree)) }
    ensures { result ≡ root_candidate (Tree.height (tree_type tree)) (bits_of w) (bytes id) message.now signature.now }
{
    let q = octets::word_at(signature, 0);
    let r = tree.leaves() + q;
    let start = leaf_candidate(k, id, w, q, r, message, signature);
    climb(k, id, tree.height(), w, r, signature, start)
}

// Whether RFC 8554 accepts the signature of a message under a key of known types.
pub fn verified(
    k: &RoundConstants,
    key: &[u8],
    message: &[u8],
    signature: &[u8],
) -> Result<(), Refusal>
    requires { (length key.now ≡ 56) × (wrong_key key.now ≡ false) }
    ensures { number_in result ≡ signature_number (valid key.now message.now signature.now) }
{
    let Some(tree) = TreeType::of(octets::word_at(key, 0)) else {
        unreachable!();
    };
    let Some(w) = width_of(octets::word_at(key, 4)) else {
        unreachable!();
    };
    if signature_refused(tree, w, signature) {
        return Err(Refusal::Signature);
    }
    let id = lmots_digits::words::words_at(key, 8);
    let root = root_candidate(k, id, tree, w, message, signature);
    let accepted = octets::same(&root, node::bytes_at(key, 24, 32));
    protocol::signature_verdict(accepted)
}
