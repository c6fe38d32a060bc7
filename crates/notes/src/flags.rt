// The flags of a note: "flags 1 (1 submitted, 2 confirmed, 4 FULL sent, 8 one value heard, 16 two)".
ghost use Rattle.std.specs.Prelude.{◌≡◌, ◌||◌, ◌≤◌, ◌<◌};
ghost use Rattle.protocol.specs.Note.{flag_if, flags_of, is_set, heard_by, both_heard, unknown_flag};

use protocol::Record;

pub(crate) const SUBMITTED: u32 = 1;

pub(crate) const CONFIRMED: u32 = 2;

pub(crate) const SENT: u32 = 4;

const ONE: u32 = 8;

const TWO: u32 = 16;

// A flag where it is set, else 0.
#[tactic(auto, unfolding(protocol::specs::Note::flag_if))]
fn flag_if(flag: u32, set: bool) -> u32
    ensures { (result ≡ flag_if flag set) × (result ≤ flag) }
{
    if set {
        return flag;
    }
    0
}

// The flags of a record.
#[tactic(auto, unfolding(protocol::specs::Note::flags_of, protocol::specs::Note::two_heard, protocol::specs::Record::one_heard))]
pub(crate) fn flags_of(r: Record) -> u32
    ensures { (result ≡ flags_of r) × (result < 256) }
{
    let submitted = flag_if(SUBMITTED, r.own.submitted);
    let confirmed = flag_if(CONFIRMED, r.confirmed);
    let sent = flag_if(SENT, r.sent);
    let one = flag_if(ONE, r.notices.heard == 1);
    let two = flag_if(TWO, r.notices.heard == 2);
    submitted + confirmed + sent + one + two
}

// Whether a flag is set.
#[tactic(auto, unfolding(protocol::specs::Note::is_set))]
pub(crate) fn is_set(flag: u32, flags: u32) -> bool
    requires { 1 ≤ flag }
    ensures { result ≡ is_set flag flags }
{
    flags / flag % 2 == 1
}

// The number of values heard.
#[tactic(auto, unfolding(protocol::specs::Note::heard_by))]
pub(crate) fn heard_by(flags: u32) -> u32
    ensures { result ≡ heard_by flags }
{
    if is_set(TWO, flags) {
        return 2;
    }
    if is_set(ONE, flags) {
        return 1;
    }
    0
}

// "both heard flags or an unknown flag are set"
#[tactic(auto, unfolding(protocol::specs::Note::both_heard, protocol::specs::Note::unknown_flag))]
pub(crate) fn wrong_flags(flags: u32) -> bool
    ensures { result ≡ (both_heard flags || unknown_flag flags) }
{
    let one = is_set(ONE, flags);
    let two = is_set(TWO, flags);
    one && two || 32 <= flags
}
