// Refusal of a message: its form (9 to 12), then its signatures (14).
ghost use Rattle.std.specs.Prelude.{◌≡◌};
ghost use Rattle.refusal.specs.Answers.{number_in};
ghost use Rattle.refusal.specs.Refusal.{first_of};
ghost use Rattle.protocol.specs.Signatures.{checks};
ghost use Rattle.protocol.specs.Message.{read};
ghost use Rattle.protocol.specs.Refusals.{message_conditions};
ghost use Rattle.wire.specs.Reading.{kind_of};

use forms::form_refusal;
use refusal::Refusal;
use sha256_constants::RoundConstants;
use signatures::fleet::Fleet;
use signatures::verdicts::message_verdict;
use wire::read::Kind;

// Refusal of a message, for every call: 9 to 14. `taken`: whether the call takes its command. Signatures, which cost most, are
// checked last.
pub(crate) fn message_refusal(
    k: &RoundConstants,
    fleet: Fleet,
    taken: bool,
    kind: Kind,
    m: &[u8],
) -> Result<(), Refusal>
    requires { kind ≡ kind_of (read fleet.n m.now) }
    ensures { let f = fleet.entry in
        number_in result ≡ first_of (message_conditions (checks f.keys.now f.round) f.n f.round taken (read f.n m.now)) }
{
    form_refusal(fleet.n, fleet.round, taken, kind, m)?;
    message_verdict(k, fleet, kind, m)
}
