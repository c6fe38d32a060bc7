// The signature vectors: the RFC's test cases level by level, and Bouncy Castle's, sound and damaged; then the key maker and the
// signer with the seeds of keys of types 6 and 4. Standard input has the records that scripts/make_vectors.py writes from the
// files of vectors/, and the file `stdout` the answers in those files. What ends the program ahead of its last record, be it the
// input's end or an operand too long for its space, is an error of the kind `UnexpectedEof`.
#![tactic(auto)]

use layout::SIGNATURE;
use std::io;
use std::io::{ErrorKind, Read};

// Reads an operand, after its length in two bytes, to the start of `space`.
fn operand<'a>(input: &mut impl Read, space: &'a mut [u8]) -> io::Result<&'a [u8]> {
    let mut length = [0u8; 2];
    input.read_exact(&mut length)?;
    let n = usize::from(u16::from_be_bytes(length));
    if space.len() < n {
        return Err(ErrorKind::UnexpectedEof.into());
    }
    let bytes = &mut space[..n];
    input.read_exact(bytes)?;
    Ok(bytes)
}

// Reads a byte.
fn byte(input: &mut impl Read) -> io::Result<u8> {
    let mut one = [0u8; 1];
    input.read_exact(&mut one)?;
    Ok(one[0])
}

fn print_bytes(rt: &impl Print, bytes: &[u8]) -> io::Result<()> {
    for byte in bytes {
        print!(rt; "{byte:02x}")?;
    }
    rt.println("")
}

// A record to check: key, message, signature.
fn check(rt: &impl Print, input: &mut impl Read) -> io::Result<()> {
    let mut key = [0u8; 256];
    let mut message = [0u8; 1024];
    let mut signature = [0u8; 4096];
    let key = operand(input, &mut key)?;
    let message = operand(input, &mut message)?;
    let signature = operand(input, &mut signature)?;
    if lms::calls::check_signature(key, message, signature).is_ok() {
        rt.println(" accept")
    } else {
        rt.println(" reject")
    }
}

// A record to sign, under the seed and identifier given: leaf, randomizer, message.
fn sign(
    rt: &impl Print,
    input: &mut impl Read,
    seed: &[u8],
    identifier: &[u8],
    tree: &[u8],
) -> io::Result<()> {
    let mut leaf = [0u8; 4];
    let mut randomizer = [0u8; 32];
    let mut message = [0u8; 1024];
    let l = operand(input, &mut leaf)?.len();
    let randomizer = operand(input, &mut randomizer)?;
    let message = operand(input, &mut message)?;
    let mut out = [0u8; SIGNATURE];
    let _ = lms::calls::sign(
        u32::from_be_bytes(leaf),
        seed,
        identifier,
        randomizer,
        tree,
        message,
        &mut out,
    );
    rt.print(" ")?;
    print_bytes(rt, &out)?;
    if l == 0 {
        return Err(ErrorKind::UnexpectedEof.into());
    }
    Ok(())
}

// A key to make, and then records to sign with it, as many as a byte says.
fn make_and_sign(rt: &impl Print, input: &mut impl Read) -> io::Result<()> {
    let mut seed = [0u8; 32];
    let mut identifier = [0u8; 16];
    let seed = operand(input, &mut seed)?;
    let identifier = operand(input, &mut identifier)?;
    let mut tree = [0u8; 65536];
    let mut key = [0u8; 56];
    let _ = lms::calls::make_key(seed, identifier, &mut tree, &mut key);
    rt.print(" ")?;
    print_bytes(rt, &key)?;
    for _ in 0..byte(input)? {
        name(rt, input)?;
        sign(rt, input, seed, identifier, &tree)?;
    }
    Ok(())
}

// Prints the name at the start of a record.
fn name(rt: &impl Print, input: &mut impl Read) -> io::Result<()> {
    let mut name = [0u8; 256];
    rt.write_all(operand(input, &mut name)?)
}

fn record(rt: &impl Print, input: &mut impl Read) -> io::Result<()> {
    let kind = byte(input)?;
    name(rt, input)?;
    if kind == b'C' {
        return check(rt, input);
    }
    make_and_sign(rt, input)
}

fn main(rt: HostRuntime) -> io::Result<()> {
    let mut input = rt.reader();
    for _ in 0..1000 {
        match record(&rt, &mut input) {
            Ok(()) => {}
            Err(e) if e.kind() == ErrorKind::UnexpectedEof => return Ok(()),
            Err(e) => return Err(e),
        }
    }
    Ok(())
}
