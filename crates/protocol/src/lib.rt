// A unit's record, and the answers of the calls (document 01, "A unit's record and store"; document 02, items 1 and 2). The
// definitions of every call over these types are in specs/.
#![tactic(auto)]

ghost use Rattle.std.specs.Prelude.{◌≡◌};
ghost use Rattle.refusal.specs.Answers.{number_in};
ghost use Rattle.protocol.specs.Signatures.{signature_number};

use quorum::Mask;
use refusal::Refusal;

mod answers;

// The own submission: whether there is one, its value, and the seats whose signatures over it are collected.
#[repr(C)]
#[derive(Clone, Copy)]
pub struct Own {
    pub submitted: bool,
    pub value: [u8; 32],
    pub collected: Mask,
}

// The notices heard: 0 for none, 1 for one value, 2 for two different ones, of which the first is kept. A number and no
// enum, since an exported function takes no struct with an enum in it; a record with another number is impossible.
#[repr(C)]
#[derive(Clone, Copy)]
pub struct Notices {
    pub heard: u32,
    pub value: [u8; 32],
}

// The first certificate held: its value and its seats; no seats where none is held.
#[repr(C)]
#[derive(Clone, Copy)]
pub struct First {
    pub value: [u8; 32],
    pub seats: Mask,
}

// A unit's record. A value not set is 32 zero bytes. `kept`: the seats whose SUBMIT came before the own submit.
#[repr(C)]
#[derive(Clone, Copy)]
pub struct Record {
    pub n: u32,
    pub seat: u32,
    pub round: u32,
    pub own: Own,
    pub confirmed: bool,
    pub notices: Notices,
    pub first: First,
    pub sent: bool,
    pub guilty: Mask,
    pub kept: Mask,
}

// Answer of opening and of reading a note: the refusal number or 0, and the record (`unit`, since `record` is a word of antt).
#[repr(C)]
#[derive(Clone, Copy)]
pub struct Opened {
    pub number: u32,
    pub unit: Record,
}

// Answer of a submit or a step: the refusal number or 0, the number of bytes written, and the record.
#[repr(C)]
#[derive(Clone, Copy)]
pub struct Stepped {
    pub number: u32,
    pub written: u32,
    pub unit: Record,
}

// Answer of the key maker, the signer, evidence from two certificates, writing a note and the thin entry: the refusal number or
// 0, and the number of bytes written.
#[repr(C)]
#[derive(Clone, Copy)]
pub struct Written {
    pub number: u32,
    pub written: u32,
}

// Answer of the evidence check: the refusal number or 0, and the seats named.
#[repr(C)]
#[derive(Clone, Copy)]
pub struct Checked {
    pub number: u32,
    pub mask: Mask,
}

// The answer on signatures that are accepted or not.
pub fn signature_verdict(accepted: bool) -> Result<(), Refusal>
    ensures { number_in result ≡ signature_number accepted }
{
    if accepted {
        Ok(())
    } else {
        Err(Refusal::Signature)
    }
}
