// The yard's program (document 01, "The yard's program"): its reading and printing. The commands and their lines are in the crate
// `yard`. The contracts speak of the input as it stands in a buffer once it is read. An `Err` is that of the reader or of the writer, passed
// on at once: what was lent keeps its length, and no caller reads it.
#![tactic(auto)]

ghost use Rattle.std.specs.Prelude.{◌≡◌, ◌≤◌, length, IfOk, OnErr};
ghost use Rattle.yard.specs.Line.{Fits};
ghost use Rattle.yard.specs.Commands.{longest_opening, longest_call};
ghost use Rattle.yard_io.specs.Reading.{room, size_of, ReadOn, Command};
ghost use Rattle.yard_io.specs.Run.{First, Later, AfterCalls, AfterRun};

use protocol::Record;
use std::io;
use std::io::Read;
use yard::commands;
use yard::line::Line;

// Reads until `buf` is full or the input ends, and answers the number of bytes at its start that were read.
fn read_full(reader: &mut impl Read, buf: &mut [u8]) -> io::Result<usize>
    ensures ok { IfOk result (λ n. n ≤ length buf.new) }
    ensures err { OnErr result (length buf.new ≡ length buf.old) }
{
    let mut done = 0;

    // No `for` counts these: each read gives as many bytes as it likes, and std has no loop that tells their number.
    while done < buf.len() {
        let n = reader.read(&mut buf[done..])?;
        if n == 0 {
            break;
        }
        done += n;
    }
    Ok(done)
}

// Reads on from index `have` until there are `to` bytes or the input ends, and answers their number. Scratch: the bytes after
// them.
fn read_on(reader: &mut impl Read, space: &mut [u8], have: usize, to: usize) -> io::Result<usize>
    requires { (have ≤ length space.old) × (to ≤ length space.old) }
    ensures ok { IfOk result (λ r. ReadOn have to r space.old space.new) }
    ensures err { OnErr result (length space.new ≡ length space.old) }
{
    if to <= have {
        return Ok(have);
    }
    let more = read_full(reader, &mut space[have..to])?;
    Ok(have + more)
}

// The length of a command, as far as the bytes at its start tell it. Whether it is the first one or a later one is a `bool`, as in
// the definitions `size_of` and `Command`, which stay.
fn told_length(first: bool, bytes: &[u8]) -> usize
    ensures { (result ≡ size_of first bytes.now) × (result ≤ room first) }
{
    if first {
        return commands::opening_length(bytes);
    }
    commands::call_length(bytes)
}

// Reads a command, as far as the input has it, and answers the number of its bytes: one byte first, then those that tell its
// length, then the rest. Scratch: the bytes after them.
fn read_command(reader: &mut impl Read, first: bool, space: &mut [u8]) -> io::Result<usize>
    requires { room first ≤ length space.old }
    ensures ok { IfOk result (λ have. Command first have space.new) }
    ensures err { OnErr result (length space.new ≡ length space.old) }
{
    let one = read_on(reader, space, 0, 1)?;
    if one == 0 {
        return Ok(0);
    }
    let start = told_length(first, &space[..one]);
    let have = read_on(reader, space, one, start)?;
    if have < start {
        return Ok(have);
    }
    let whole = told_length(first, &space[..have]);
    read_on(reader, space, have, whole)
}

// Prints a line.
fn print(rt: &impl Print, line: Line) -> io::Result<()>
    requires { Fits line }
{
    rt.write_all(&line.text[..line.length])
}

// A command that was read: its number of bytes, whether the program ends with it, and the record after it.
#[derive(Clone, Copy)]
struct Taken {
    have: usize,
    ends: bool,
    unit: Record,
}

// Reads the first command, does it, and prints its line. Scratch: the bytes of `input` after the command.
fn first_command(rt: &impl Print, reader: &mut impl Read, input: &mut [u8]) -> io::Result<Taken>
    requires { longest_opening ≤ length input.old }
    ensures ok { IfOk result (λ t. First t input.new) }
    ensures err { OnErr result (length input.new ≡ length input.old) }
{
    let have = read_command(reader, true, input)?;
    let begun = commands::begin(&input[..have]);
    print(rt, begun.line)?;
    Ok(Taken {
        have,
        ends: begun.ends,
        unit: begun.unit,
    })
}

// Reads a later command, does it, and prints its line. Scratch as in `first_command`.
fn next_command(
    rt: &impl Print,
    reader: &mut impl Read,
    unit: Record,
    keys: &[u8],
    store: &mut [u8],
    out: &mut [u8],
    input: &mut [u8],
) -> io::Result<Taken>
    requires { longest_call ≤ length input.old }
    ensures ok { IfOk result (λ t. Later keys.now unit store.old out.old t input.new store.new out.new) }
    ensures err { OnErr result ((length store.new ≡ length store.old) × (length out.new ≡ length out.old) × (length input.new ≡ length input.old)) }
{
    let have = read_command(reader, false, input)?;
    let answer = commands::take_command(unit, keys, store, out, &input[..have]);
    print(rt, answer.line)?;
    Ok(Taken {
        have,
        ends: answer.ends,
        unit: answer.unit,
    })
}

// The later commands, and the record at the end. A proved loop has to end, but the input may not. So the loop goes up to a number
// of commands that no input has: each takes at least one byte.
fn run_calls(
    rt: &impl Print,
    reader: &mut impl Read,
    unit: Record,
    keys: &[u8],
    store: &mut [u8],
    out: &mut [u8],
) -> io::Result<Record>
    ensures ok { IfOk result (λ last. AfterCalls keys.now unit store.old out.old last store.new out.new) }
    ensures err { OnErr result ((length store.new ≡ length store.old) × (length out.new ≡ length out.old)) }
{
    let mut input = yard::space::new_call();
    let mut r = unit;
    for _ in 0..u64::MAX {
        let next = next_command(rt, reader, r, keys, store, out, &mut input)?;
        r = next.unit;
        if next.ends {
            return Ok(r);
        }
    }
    Ok(r)
}

// The whole program, and the record at its end.
pub fn run(rt: &(impl Input + Print)) -> io::Result<Record>
    ensures { IfOk result (λ last. AfterRun last) }
{
    let mut reader = rt.reader();
    let mut opening = yard::space::new_opening();
    let first = first_command(rt, &mut reader, &mut opening)?;
    if first.ends {
        return Ok(first.unit);
    }
    let mut store = yard::space::new_store();
    let mut out = yard::space::new_out();
    run_calls(
        rt,
        &mut reader,
        first.unit,
        commands::keys_of(&opening[..first.have]),
        &mut store,
        &mut out,
    )
}
