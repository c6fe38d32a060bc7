// The phases that collect signatures: the own submit, a SUBMIT heard, and the SUBMITs that were kept until the own submit.
#![tactic(auto)]

ghost use Rattle.std.specs.Prelude.{◌≡◌, length};
ghost use Rattle.protocol.specs.Layout.{signature_length};

pub mod collect;
pub mod kept;

// A SUBMIT heard: its seat, its value, and the signature over it.
#[derive(Clone, Copy)]
pub struct Submit<'a> {
    pub seat: u32,
    pub value: [u8; 32],
    pub signature: &'a [u8],
    pub ghost whole: { length signature.now ≡ signature_length },
}
