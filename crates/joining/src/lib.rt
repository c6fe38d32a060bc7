// Two packs of evidence joined to one, for the harbour office (document 02, item 5).
#![tactic(auto)]

ghost use Rattle.std.specs.Prelude.{◌≡◌};
ghost use Rattle.protocol.specs.Answers.{written_in};
ghost use Rattle.protocol.specs.Signatures.{checks};
ghost use Rattle.protocol.specs.Calls.{out_after, made, joining};

use crate::entries::write_joined;
use crate::refusals::packs_refusal;
use refusal::Refusal;
use validate::calls::{fleet, out_refusal};

mod entries;
mod refusals;

// Two packs become one: the refusal, or the number of bytes written to `out`.
pub fn join_evidence(
    n: u32,
    round: u32,
    keys: &[u8],
    first: &[u8],
    second: &[u8],
    out: &mut [u8],
) -> Result<u32, Refusal>
    ensures { let outcome = joining (checks keys.now round) n round keys.now
        first.now second.now out.old in
        (written_in result ≡ made outcome)
        × (out.new ≡ out_after outcome.written out.old) }
{
    let fleet = fleet(n, round, keys)?;
    out_refusal(layout::joined_out_length(n), out)?;
    packs_refusal(fleet, first, second)?;
    Ok(write_joined(n, round, first, second, out))
}
