// The tree's buffer, as the key maker fills it: node r at byte 32 × r.
ghost use Rattle.std.specs.Prelude.{◌≡◌, ◌+◌, ◌*◌, ◌≤◌, ◌<◌, length};
ghost use Rattle.octets.specs.Octets.{bytes, patch};
ghost use Rattle.rfc8554.specs.Tree.{nodes, public_key, tree_filled};
ghost use Rattle.protocol.specs.Layout.{tree_length};
ghost use Rattle.lms.specs.Pieces.{leaf_over, inner_put, inners_put};

use crate::node;
use crate::signer::write_key;
use sha256_constants::RoundConstants;

// Writes the leaf of number q, over its LM-OTS key.
fn put_leaf(k: &RoundConstants, id: [u32; 4], q: u32, key: &[u8], tree: &mut [u8])
    requires { (q < 1024) × (length tree.old ≡ tree_length) }
    ensures { tree.new ≡ patch (32 * (1024 + q)) (leaf_over (bytes id) q key.now) tree.old }
{
    let r = 1024 + q;
    let place = r as usize;
    let n = node::leaf(k, id, r, key);
    octets::copy(tree, 32 * place, &n);
}

// Writes sixteen leaves, from number q on.
fn put_sixteen(k: &RoundConstants, id: [u32; 4], seed: [u32; 8], q: u32, tree: &mut [u8])
    requires { (q + 16 ≤ 1024) × (length tree.old ≡ tree_length) }
    ensures { tree.new ≡ patch (32 * (1024 + q)) (nodes 10 8 (bytes id) (bytes seed) (1024 + q) 16) tree.old }
{
    let keys = lmots::leaves::ots_keys(k, id, q, seed);
    for l in 0..16 {
        let n = l as u32;
        put_leaf(k, id, q + n, node::bytes_at(&keys, 32 * l, 32), tree);
    }
}

// Writes all leaves.
fn put_leaves(k: &RoundConstants, id: [u32; 4], seed: [u32; 8], tree: &mut [u8])
    requires { length tree.old ≡ tree_length }
    ensures { tree.new ≡ patch (32 * 1024) (nodes 10 8 (bytes id) (bytes seed) 1024 1024) tree.old }
{
    for n in 0..64 {
        put_sixteen(k, id, seed, 16 * n, tree);
    }
}

// Writes the inner node r, over its children in the buffer.
fn put_inner(k: &RoundConstants, id: [u32; 4], r: u32, tree: &mut [u8])
    requires { (r < 1024) × (length tree.old ≡ tree_length) }
    ensures { tree.new ≡ inner_put (bytes id) r tree.old }
{
    let place = r as usize;
    let n = node::inner(k, id, r, node::bytes_at(tree, 64 * place, 64));
    octets::copy(tree, 32 * place, &n);
}

// Writes the inner nodes, from the last one up to the root, over the leaves in the buffer.
fn put_inners(k: &RoundConstants, id: [u32; 4], tree: &mut [u8])
    requires { length tree.old ≡ tree_length }
    ensures { tree.new ≡ inners_put (bytes id) 1023 tree.old }
{
    for t in 0..1023 {
        put_inner(k, id, 1023 - t, tree);
    }
}

// Writes all nodes: the leaves, then the inner nodes.
fn fill(k: &RoundConstants, id: [u32; 4], seed: [u32; 8], tree: &mut [u8])
    requires { length tree.old ≡ tree_length }
    ensures { tree.new ≡ tree_filled (bytes id) (bytes seed) tree.old }
{
    put_leaves(k, id, seed, tree);
    put_inners(k, id, tree);
}

// Makes a key: all nodes, and the public key.
pub(crate) fn make(seed: &[u8], id: &[u8], tree: &mut [u8], out: &mut [u8])
    requires { (length seed.now ≡ 32) × (length id.now ≡ 16) × (length tree.old ≡ tree_length) × (56 ≤ length out.old) }
    ensures { (tree.new ≡ tree_filled id.now seed.now tree.old) × (out.new ≡ patch 0 (public_key 6 4 id.now seed.now) out.old) }
{
    let k = sha256_constants::round_constants();
    let id_words = lmots_digits::words::words_at(id, 0);
    let seed_words = lmots_digits::words::words_at(seed, 0);
    fill(&k, id_words, seed_words, tree);
    write_key(id, node::bytes_at(tree, 32, 32), out);
}
