// The line that the yard's program prints for a call.
ghost use Rattle.std.specs.Prelude.{◌≡◌, [], ◌∷◌, ◌+◌, ◌<◌, ◌≤◌, length};
ghost use Rattle.octets.specs.Octets.{patch};
ghost use Rattle.yard.specs.Line.{decimal, line, in_space, Fits};

// A line: the first `length` bytes of `text`, with zeros after them. It is no string of fixed capacity, since the contracts of
// `begin` and `take_command` and the law `line-whole` tell all 22 bytes, and such a string tells its text alone.
#[derive(Clone, Copy)]
pub struct Line {
    pub text: [u8; 22],
    pub length: usize,
}

// Writes one byte at index `at`, and answers the index after it.
#[tactic(auto, using(crate::specs::LineLaws::put_one))]
fn put_byte(out: &mut [u8], at: usize, b: u8) -> usize
    requires { at < length out.old }
    ensures { (out.new ≡ patch at (b ∷ []) out.old) × (result ≡ at + 1) }
{
    out[at] = b;
    at + 1
}

// Writes x in decimal from index `at`, and answers the index after it.
fn put_decimal(out: &mut [u8], at: usize, x: u32) -> usize
    requires { at + length (decimal x) ≤ length out.old }
    ensures { (out.new ≡ patch at (decimal x) out.old) × (result ≡ at + length (decimal x)) }
{
    let mut buffer = itoa::Buffer::new();
    let digits = buffer.format(x).as_bytes();
    octets::copy(out, at, digits);
    at + digits.len()
}

// The refusal number or 0, a space, the bytes written, and a newline.
pub(crate) fn line_of(number: u32, written: u32) -> Line
    ensures { (result ≡ in_space (line number written)) × Fits result }
{
    let mut text = [0u8; 22];
    let number_end = put_decimal(&mut text, 0, number);
    let start = put_byte(&mut text, number_end, b' ');
    let end = put_decimal(&mut text, start, written);
    let length = put_byte(&mut text, end, b'\n');
    Line { text, length }
}

// Nothing to print.
#[tactic(auto, unfolding(crate::specs::Line::in_space, octets::specs::Octets::patch))]
pub(crate) fn no_line() -> Line
    ensures { (result ≡ in_space []) × Fits result }
{
    let text = [0u8; 22];
    Line { text, length: 0 }
}
