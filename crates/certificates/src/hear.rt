// Notices heard.
ghost use Rattle.std.specs.Prelude.{◌≡◌};
ghost use Rattle.protocol.specs.Record.{with_notices};
ghost use Rattle.protocol.specs.Step.{notices_with};

use protocol::{Notices, Record};

// The notices heard after one more value; the first is kept.
#[tactic(auto, using(octets::specs::StringsLaws::equal_same), unfolding(protocol::specs::Step::notices_with, protocol::specs::Record::none_heard, protocol::specs::Record::one_heard))]
fn notices_with(r: Record, value: [u8; 32]) -> Notices
    ensures { result ≡ notices_with value r }
{
    match r.notices.heard {
        0 => Notices { heard: 1, value },
        1 if value != r.notices.value => Notices {
            heard: 2,
            ..r.notices
        },
        _ => r.notices,
    }
}

// The record after a notice for a value.
pub fn hear(r: Record, value: [u8; 32]) -> Record
    ensures { result ≡ with_notices r (notices_with value r) }
{
    let notices = notices_with(r, value);
    Record { notices, ..r }
}
