// The length of the first message in a buffer.
#![tactic(auto)]

ghost use Rattle.std.specs.Prelude.{◌≡◌, ◌≤◌, ◌<◌, ◌^◌};
ghost use Rattle.quorum.specs.Quorum.{most_seats};
ghost use Rattle.reading.specs.Reading.{frame_length};
ghost use Rattle.framing.specs.Framing.{message_length, no_message};

use wire::read::Kind;

// The length by the command and, for EVIDENCE, the count. Bytes with no command go by the count of 0x07, and are garbled.
fn frame_length(n: u32, bytes: &[u8]) -> usize
    requires { (1 ≤ n) × (n ≤ most_seats) }
    ensures { (result ≡ frame_length n bytes.now) × (result < 2 ^ 32) }
{
    match wire::read::byte_or_zero(bytes, 0) {
        1 => layout::submit_length(),
        2 => layout::notice_length(),
        3 => layout::full_length(n),
        _ => {
            let found = wire::read::evidence_entries(bytes);
            layout::entry_at(found, found.count)
        }
    }
}

// Whether bytes of a kind are no message.
fn is_garbled(kind: Kind) -> bool
    ensures { result ≡ no_message kind }
{
    matches!(kind, Kind::Garbled)
}

// The length of the first message in a buffer; 0 where no message of a fleet of n seats stands there whole. It is a number and no
// `Option`, as C gets it and the law `first_length` says it.
pub fn message_length(n: u32, bytes: &[u8]) -> u32
    ensures { result ≡ message_length n bytes.now }
{
    if n == 0 || quorum::MOST_SEATS < n {
        return 0;
    }
    let end = frame_length(n, bytes);
    if bytes.len() < end {
        return 0;
    }
    let kind = wire::read::classify(n, &bytes[..end]);
    if is_garbled(kind) {
        return 0;
    }
    end as u32
}
