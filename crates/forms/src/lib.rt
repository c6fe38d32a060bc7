// The form of a message (document 01, "What is turned back"): its command, round, seats and their order, 9 to 12.
#![tactic(auto)]

ghost use Rattle.std.specs.Prelude.{◌≡◌, not, ℕ, ◌≤◌, ltb};
ghost use Rattle.quorum.specs.Quorum.{most_seats};
ghost use Rattle.refusal.specs.Refusal.{first_of};
ghost use Rattle.refusal.specs.Answers.{number_in};
ghost use Rattle.protocol.specs.Message.{Message, read};
ghost use Rattle.protocol.specs.Refusals.{every, is_for_step, is_full, is_evidence, is_new_evidence, other_round, stranger, disorder};
ghost use Rattle.wire.specs.Reading.{kind_of};
ghost use Rattle.forms.specs.Messages.{form_conditions};
ghost use Rattle.forms.specs.Senders.{senders_of};

use refusal::Refusal;
use wire::entries::{seats_below, seats_rise};
use wire::read::{Kind, entries_of, number_at, round_of};

// Whether a step takes messages of a kind: SUBMIT, NOTICE and FULL.
pub fn is_for_step(kind: Kind) -> bool
    ensures { (said : Message) → kind ≡ kind_of said → result ≡ is_for_step said }
{
    matches!(kind, Kind::Submit | Kind::Notice | Kind::Full)
}

// Whether a message of a kind is a certificate: FULL.
pub fn is_certificate(kind: Kind) -> bool
    ensures { (said : Message) → kind ≡ kind_of said → result ≡ is_full said }
{
    matches!(kind, Kind::Full)
}

// Whether the evidence check takes messages of a kind: EVIDENCE, the old one too.
pub fn is_evidence(kind: Kind) -> bool
    ensures { (said : Message) → kind ≡ kind_of said → result ≡ is_evidence said }
{
    matches!(kind, Kind::OldEvidence | Kind::Evidence)
}

// Whether messages of a kind can be joined: EVIDENCE, and not the old one.
pub fn is_new_evidence(kind: Kind) -> bool
    ensures { (said : Message) → kind ≡ kind_of said → result ≡ is_new_evidence said }
{
    matches!(kind, Kind::Evidence)
}

// Whether the round of a message is not the caller's.
fn other_round(n: u32, kind: Kind, m: &[u8], round: u32) -> bool
    requires { kind ≡ kind_of (read n m.now) }
    ensures { result ≡ other_round round (read n m.now) }
{
    if let Kind::Garbled = kind {
        return round != 0;
    }
    round_of(m) != round
}

// Whether a message names a sender at or above n.
fn sender_outside(n: u32, kind: Kind, m: &[u8]) -> bool
    requires { kind ≡ kind_of (read n m.now) }
    ensures { result ≡ not (every (λ (s : ℕ). ltb s n) (senders_of (read n m.now))) }
{
    match kind {
        Kind::Submit | Kind::Notice | Kind::Full => n <= number_at(m, layout::seat_at()),
        Kind::OldEvidence | Kind::Evidence | Kind::Garbled => false,
    }
}

// Whether a seat in a message is at or above n.
fn is_stranger(n: u32, kind: Kind, m: &[u8]) -> bool
    requires { (1 ≤ n) × (n ≤ most_seats) × (kind ≡ kind_of (read n m.now)) }
    ensures { result ≡ stranger n (read n m.now) }
{
    if sender_outside(n, kind, m) {
        return true;
    }
    let found = entries_of(n, kind, m);
    !seats_below(m, found, n)
}

// Whether the seats of a message's entries don't rise.
fn is_disordered(n: u32, kind: Kind, m: &[u8]) -> bool
    requires { (1 ≤ n) × (n ≤ most_seats) × (kind ≡ kind_of (read n m.now)) }
    ensures { result ≡ disorder (read n m.now) }
{
    let found = entries_of(n, kind, m);
    !seats_rise(m, found)
}

// Refusal for the form of a message, before any signature is checked: 9 to 12. `taken`, whether the call takes its kind, is a test of its
// own beside the kind: it is the row of 9, which differs from call to call.
pub fn form_refusal(n: u32, round: u32, taken: bool, kind: Kind, m: &[u8]) -> Result<(), Refusal>
    requires { (1 ≤ n) × (n ≤ most_seats) × (kind ≡ kind_of (read n m.now)) }
    ensures { number_in result ≡ first_of (form_conditions n round taken (read n m.now)) }
{
    if !taken {
        return Err(Refusal::Garbled);
    }
    if other_round(n, kind, m, round) {
        return Err(Refusal::OtherRound);
    }
    if is_stranger(n, kind, m) {
        return Err(Refusal::Stranger);
    }
    if is_disordered(n, kind, m) {
        return Err(Refusal::Disorder);
    }
    Ok(())
}
