// Test of the key table: 5.
ghost use Rattle.std.specs.Prelude.{◌≡◌, ◌+◌, ◌≤◌, length};
ghost use Rattle.protocol.specs.Layout.{key_at};
ghost use Rattle.protocol.specs.Refusals.{key_allowed, wrong_keys};

// Whether the types of a seat's key are 6 and 4.
fn key_allowed(seat: u32, keys: &[u8]) -> bool
    requires { key_at seat + 8 ≤ length keys.now }
    ensures { result ≡ key_allowed seat keys.now }
{
    let at = layout::key_at(seat);
    octets::word_at(keys, at) == 6 && octets::word_at(keys, at + 4) == 4
}

// Whether the key table isn't 56 × n bytes, or a key's types aren't allowed.
pub fn wrong_keys(n: u32, keys: &[u8]) -> bool
    ensures { result ≡ wrong_keys n keys.now }
{
    if keys.len() != layout::key_at(n) {
        return true;
    }
    for seat in 0..n {
        if !key_allowed(seat, keys) {
            return true;
        }
    }
    false
}
