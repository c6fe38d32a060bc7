// The calls of document 01 on keys and signatures.
ghost use Rattle.std.specs.Prelude.{◌≡◌, length};
ghost use Rattle.octets.specs.Octets.{patch};
ghost use Rattle.refusal.specs.Answers.{number_in};
ghost use Rattle.protocol.specs.Answers.{written_in};
ghost use Rattle.protocol.specs.Refusals.{too_long, wrong_maker_material, wrong_signer_material};
ghost use Rattle.protocol.specs.Signatures as signatures;
ghost use Rattle.protocol.specs.Signatures.{make_key_refusal, make_key, sign_refusal, check_signature};

use crate::tree::make;
use crate::{signer, verify};
use refusal::Refusal;

// Whether the seed is not 32 bytes, the identifier not 16 or the tree not 65,536.
fn wrong_maker_material(seed: &[u8], identifier: &[u8], tree: &[u8]) -> bool
    ensures { result ≡ wrong_maker_material seed.now identifier.now tree.now }
{
    let length = layout::tree_length();
    seed.len() != 32 || identifier.len() != 16 || tree.len() != length
}

// Whether the seed is not 32 bytes, the identifier not 16, the randomizer not 32 or the tree not 65,536.
fn wrong_signer_material(seed: &[u8], identifier: &[u8], randomizer: &[u8], tree: &[u8]) -> bool
    ensures { result ≡ wrong_signer_material seed.now identifier.now randomizer.now tree.now }
{
    let length = layout::tree_length();
    seed.len() != 32 || identifier.len() != 16 || randomizer.len() != 32 || tree.len() != length
}

// Whether a message is too long to check or sign.
fn is_too_long(message: &[u8]) -> bool
    ensures { result ≡ too_long message.now }
{
    layout::message_limit() < message.len()
}

// Refusal of the key maker.
fn make_key_refusal(seed: &[u8], identifier: &[u8], tree: &[u8], out: &[u8]) -> Result<(), Refusal>
    ensures { number_in result ≡ make_key_refusal seed.now identifier.now tree.now out.now }
{
    if out.len() < layout::key_length() {
        return Err(Refusal::Out);
    }
    if wrong_maker_material(seed, identifier, tree) {
        return Err(Refusal::KeyMaterial);
    }
    Ok(())
}

// Makes a key of types 6 and 4: fills the tree, and writes the public key.
pub fn make_key(
    seed: &[u8],
    identifier: &[u8],
    tree: &mut [u8],
    out: &mut [u8],
) -> Result<u32, Refusal>
    ensures { let outcome = make_key seed.now identifier.now tree.old out.old in
        ((written_in result).number ≡ outcome.refusal)
        × ((written_in result).written ≡ length outcome.written)
        × (tree.new ≡ outcome.tree)
        × (out.new ≡ patch 0 outcome.written out.old) }
{
    make_key_refusal(seed, identifier, tree, out)?;
    make(seed, identifier, tree, out);
    Ok(layout::key_length() as u32)
}

// Refusal of the signer.
fn sign_refusal(
    leaf: u32,
    seed: &[u8],
    identifier: &[u8],
    randomizer: &[u8],
    tree: &[u8],
    message: &[u8],
    out: &[u8],
) -> Result<(), Refusal>
    ensures { number_in result ≡ sign_refusal leaf message.now seed.now identifier.now randomizer.now tree.now out.now }
{
    if layout::last_round() < leaf {
        return Err(Refusal::Round);
    }
    if out.len() < layout::signature_length() {
        return Err(Refusal::Out);
    }
    if is_too_long(message) {
        return Err(Refusal::Garbled);
    }
    if wrong_signer_material(seed, identifier, randomizer, tree) {
        return Err(Refusal::KeyMaterial);
    }
    Ok(())
}

// Signs a message with a leaf of a key of types 6 and 4.
pub fn sign(
    leaf: u32,
    seed: &[u8],
    identifier: &[u8],
    randomizer: &[u8],
    tree: &[u8],
    message: &[u8],
    out: &mut [u8],
) -> Result<u32, Refusal>
    ensures { let outcome = signatures.sign leaf message.now
        seed.now identifier.now randomizer.now tree.now out.old in
        ((written_in result).number ≡ outcome.refusal)
        × ((written_in result).written ≡ length outcome.written)
        × (out.new ≡ patch 0 outcome.written out.old) }
{
    sign_refusal(leaf, seed, identifier, randomizer, tree, message, out)?;
    signer::write_signature(leaf, seed, identifier, randomizer, tree, message, out);
    Ok(layout::signature_length() as u32)
}

// Check of a signature of a message.
pub fn check_signature(key: &[u8], message: &[u8], signature: &[u8]) -> Result<(), Refusal>
    ensures { number_in result ≡ check_signature key.now message.now signature.now }
{
    if verify::key_refused(key) {
        return Err(Refusal::Keys);
    }
    if is_too_long(message) {
        return Err(Refusal::Garbled);
    }
    let k = sha256_constants::round_constants();
    verify::verified(&k, key, message, signature)
}
