// Refusals where two packs are joined: one pack after the other.
ghost use Rattle.std.specs.Prelude.{◌≡◌, ◌++◌};
ghost use Rattle.refusal.specs.Answers.{number_in};
ghost use Rattle.refusal.specs.Refusal.{first_of};
ghost use Rattle.protocol.specs.Signatures.{checks};
ghost use Rattle.protocol.specs.Message.{read};
ghost use Rattle.protocol.specs.Refusals.{joined_conditions};

use refusal::Refusal;
use sha256_constants::RoundConstants;
use signatures::fleet::Fleet;
use validate::calls::pack_refusal;

// Refusal of one of the packs: 9 to 15. A 0x05 pack is garbled here.
fn joined_refusal(k: &RoundConstants, fleet: Fleet, m: &[u8]) -> Result<(), Refusal>
    ensures { number_in result ≡ first_of (joined_conditions (checks fleet.entry.keys.now fleet.entry.round) fleet.entry.n fleet.entry.round (read fleet.entry.n m.now)) }
{
    let kind = wire::read::classify(fleet.n, m);
    pack_refusal(k, fleet, forms::is_new_evidence(kind), kind, m)
}

// Refusal of two packs: the first's 9 to 15, then the second's.
pub(crate) fn packs_refusal(fleet: Fleet, first: &[u8], second: &[u8]) -> Result<(), Refusal>
    ensures { let check = checks fleet.entry.keys.now fleet.entry.round in
        let n = fleet.entry.n in
        number_in result ≡ first_of (joined_conditions check n fleet.entry.round (read n first.now) ++ joined_conditions check n fleet.entry.round (read n second.now)) }
{
    let k = sha256_constants::round_constants();
    joined_refusal(&k, fleet, first)?;
    joined_refusal(&k, fleet, second)
}
