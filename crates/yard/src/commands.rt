// The commands of the yard's program.
ghost use Rattle.std.specs.Prelude.{◌≡◌, ◌<◌, ◌≤◌};
ghost use Rattle.refusal.specs.Answers.{number_of};
ghost use Rattle.protocol.specs.Signatures.{checks};
ghost use Rattle.protocol.specs.Calls.{out_after};
ghost use Rattle.yard.specs.Line.{in_space, Fits};
ghost use Rattle.yard.specs.Commands.{line_for, told, two_at, keys_of, opening_length, longest_opening, misframed_opening, refused_opening, opened, begun, call_of, call_length, longest_call, whole_call, told_call, called};

use crate::line::{Line, line_of, no_line};
use crate::space;
use protocol::{Opened, Record, Stepped};
use refusal::Refusal;
use wire::read::byte_or_zero;

// Answer of a command: whether the program ends with it, the record after it, and the line to print.
#[derive(Clone, Copy)]
pub struct Answer {
    pub ends: bool,
    pub unit: Record,
    pub line: Line,
}

// The number of two bytes at index i.
fn two_at(bytes: &[u8], i: usize) -> u32
    requires { i < 65535 }
    ensures { (result ≡ two_at bytes.now i) × (result < 65536) }
{
    byte_or_zero(bytes, i) * 256 + byte_or_zero(bytes, i + 1)
}

// The line for a command; none for no bytes, at the end of the input.
fn line_for(bytes: &[u8], number: u32, written: u32) -> Line
    ensures { (result ≡ in_space (line_for bytes.now number written)) × Fits result }
{
    if bytes.is_empty() {
        return no_line();
    }
    line_of(number, written)
}

// The length of the first command, as far as the bytes at its start tell it: two tell it whole.
#[tactic(auto, unfolding(crate::specs::Commands::opening_length))]
pub fn opening_length(bytes: &[u8]) -> usize
    ensures { (result ≡ opening_length bytes.now) × (result ≤ longest_opening) }
{
    if byte_or_zero(bytes, 0) != 0x10 {
        return 1;
    }
    let n = byte_or_zero(bytes, 1) as usize;
    if space::MOST_SEATS < n {
        return space::OPENING_HEAD;
    }
    space::OPENING_HEAD + layout::KEY * n
}

// A later command: a message heard, or the own value with its signature.
#[derive(Clone, Copy)]
enum Call {
    Message,
    Submit,
}

// The later command that the first byte says.
fn call_of(bytes: &[u8]) -> Option<Call>
    ensures { result ≡ call_of bytes.now }
{
    match byte_or_zero(bytes, 0) {
        0x11 => Some(Call::Message),
        0x12 => Some(Call::Submit),
        _ => None,
    }
}

// The length of a later command, as far as the bytes at its start tell it: three tell it whole.
pub fn call_length(bytes: &[u8]) -> usize
    ensures { (result ≡ call_length bytes.now) × (result ≤ longest_call) }
{
    match call_of(bytes) {
        Some(Call::Message) => space::MESSAGE_HEAD + two_at(bytes, 1) as usize,
        Some(Call::Submit) => space::SUBMIT,
        None => 1,
    }
}

// The key table of an opening.
pub fn keys_of(bytes: &[u8]) -> &[u8]
    ensures { result.now ≡ keys_of bytes.now }
{
    if bytes.len() < space::OPENING_HEAD {
        return &bytes[..0];
    }
    &bytes[space::OPENING_HEAD..]
}

// Whether the first command is short, or no opening.
fn is_misframed_opening(bytes: &[u8]) -> bool
    ensures { result ≡ misframed_opening bytes.now }
{
    bytes.len() < opening_length(bytes) || byte_or_zero(bytes, 0) != 0x10
}

// A refused opening with its record of zeros, taken from an opening of no seats.
fn refused_opening(refusal: Refusal) -> Opened
    ensures { result ≡ refused_opening (number_of refusal) }
{
    Opened {
        number: refusal.number(),
        ..confirmer::opening::open(0, 0, 0, &[])
    }
}

// The opening from its bytes, as far as the input has them.
fn open(bytes: &[u8]) -> Opened
    ensures { result ≡ opened bytes.now }
{
    if is_misframed_opening(bytes) {
        return refused_opening(Refusal::Garbled);
    }
    let n = byte_or_zero(bytes, 1);
    if space::MOST_SEATS < n as usize {
        return refused_opening(Refusal::Size);
    }
    let seat = byte_or_zero(bytes, 2);
    let round = two_at(bytes, 3);
    confirmer::opening::open(n, seat, round, keys_of(bytes))
}

// Answer of the first command.
pub fn begin(bytes: &[u8]) -> Answer
    ensures { (result ≡ told (begun bytes.now)) × Fits result.line }
{
    let o = open(bytes);
    Answer {
        ends: o.number != 0,
        unit: o.unit,
        line: line_for(bytes, o.number, 0),
    }
}

// The later command that stands whole in its bytes; none where they are short, or no call.
fn whole_call(bytes: &[u8]) -> Option<Call>
    ensures { result ≡ whole_call bytes.now }
{
    if bytes.len() < call_length(bytes) {
        return None;
    }
    call_of(bytes)
}

// Answer of a call of the confirmer, refused or not.
fn call_answer(answer: Stepped) -> Answer
    ensures { (result ≡ told_call answer) × Fits result.line }
{
    let line = line_of(answer.number, answer.written);
    Answer {
        ends: false,
        unit: answer.unit,
        line,
    }
}

// Answer of a later command from its bytes, as far as the input has them.
pub fn take_command(
    r: Record,
    keys: &[u8],
    store: &mut [u8],
    out: &mut [u8],
    bytes: &[u8],
) -> Answer
    ensures { let o = called checks keys.now r store.old out.old bytes.now in
        ((result ≡ told o) × Fits result.line)
        × (store.new ≡ o.store)
        × (out.new ≡ out_after o.written out.old) }
{
    match whole_call(bytes) {
        None => Answer {
            ends: true,
            unit: r,
            line: line_for(bytes, Refusal::Garbled.number(), 0),
        },
        Some(Call::Message) => {
            let message = &bytes[space::MESSAGE_HEAD..];
            call_answer(confirmer::calls::step(r, keys, store, message, out))
        }
        Some(Call::Submit) => {
            let value = &bytes[1..space::SUBMIT_HEAD];
            let signature = &bytes[space::SUBMIT_HEAD..];
            call_answer(confirmer::calls::submit(r, keys, store, value, signature, out))
        }
    }
}
