// The steps of a script: a letter, three numbers of 8 bytes, and some bytes.
// Calls: b begin (allowance, edition; form), m make (parent; name), p put (node, type, allowance; data), c close (allowance).
// Changes: = the lengths passed (buffer, text area, tree area), a a field of the record (field, value), f the buffer filled (byte), R S T one byte of
// buffer, text area, tree area (place, byte).
// Prints: # some text, s sums of what is passed, x the buffer, l the buffer as `listall` prints it, o the buffer opened and read.
ghost use Rattle.std.specs.Prelude.{◌≤◌, length};

use crate::record;
use aff_format::{Refusal, number};
use aff_listing::Choice;
use aff_write::Writer;
use std::io;
use std::io::Write;
use test_dump::show;

// The record that the next call gets, and how much of buffer and areas is passed to it.
#[derive(Clone, Copy, Debug, PartialEq, Eq)]
pub struct State {
    pub writer: Writer,
    pub buffer: usize,
    pub text: usize,
    pub tree: usize,
}

// What a step does, by its letter. An enum, so that an unknown letter is passed over before anything is cut.
#[derive(Clone, Copy, Debug, PartialEq, Eq)]
enum Command {
    Begin,
    Make,
    Put,
    Close,
    Lengths,
    Alter,
    Fill,
    PokeBuffer,
    PokeText,
    PokeTree,
    Say,
    Sums,
    Hex,
    List,
    Dump,
}

// A letter that no command has.
#[derive(Clone, Copy, Debug, PartialEq, Eq)]
struct UnknownLetter(u8);

impl TryFrom<u8> for Command {
    type Error = UnknownLetter;

    fn try_from(letter: u8) -> Result<Command, UnknownLetter> {
        match letter {
            b'b' => Ok(Command::Begin),
            b'm' => Ok(Command::Make),
            b'p' => Ok(Command::Put),
            b'c' => Ok(Command::Close),
            b'=' => Ok(Command::Lengths),
            b'a' => Ok(Command::Alter),
            b'f' => Ok(Command::Fill),
            b'R' => Ok(Command::PokeBuffer),
            b'S' => Ok(Command::PokeText),
            b'T' => Ok(Command::PokeTree),
            b'#' => Ok(Command::Say),
            b's' => Ok(Command::Sums),
            b'x' => Ok(Command::Hex),
            b'l' => Ok(Command::List),
            b'o' => Ok(Command::Dump),
            _ => Err(UnknownLetter(letter)),
        }
    }
}

// What a step says: its three numbers and its bytes.
#[derive(Clone, Copy, Debug, PartialEq, Eq)]
struct Step<'a> {
    first: u64,
    second: u64,
    third: u64,
    bytes: &'a [u8],
}

fn step_of(block: &[u8]) -> Step<'_>
    requires { 25 ≤ length block.now }
{
    Step {
        first: number::be::<8>(block, 1),
        second: number::be::<8>(block, 9),
        third: number::be::<8>(block, 17),
        bytes: &block[25..],
    }
}

// The answer of a call, by the call's name, and the record after it.
fn report(
    out: &mut impl Write,
    name: &str,
    answer: Result<usize, Refusal>,
    writer: &Writer,
) -> io::Result<()> {
    write!(out, "{name} ")?;
    show::answer(out, answer)?;
    record::print(out, writer)
}

// The edition of a number; 0, which is no edition, where it has more than 32 bits.
fn edition_of(value: u64) -> u32 {
    u32::try_from(value).unwrap_or(0)
}

// Alters one field of the record: length 0, edition 1, strings 2, text 3, nodes 4, end 5, open 6. The script's own numbers (tests/make_writes.py).
fn alter(writer: &mut Writer, field: u64, value: u64) {
    match field {
        0 => writer.length = value as usize,
        1 => writer.edition = edition_of(value),
        2 => writer.strings = value as usize,
        3 => writer.text = value as usize,
        4 => writer.nodes = value as usize,
        5 => writer.end = value as usize,
        6 => writer.live = value == 1,
        _ => {}
    }
}

// The last byte of a number.
fn low(n: u64) -> u8 {
    (n % 256) as u8
}

fn poke(area: &mut [u8], at: u64, byte: u64) {
    if let Some(place) = area.get_mut(at as usize) {
        *place = low(byte);
    }
}

// The sums of what is passed.
fn sums(out: &mut impl Write, buffer: &[u8], text: &[u8], tree: &[u8]) -> io::Result<()> {
    write!(out, "sums")?;
    record::sum(out, buffer)?;
    record::sum(out, text)?;
    record::sum(out, tree)?;
    writeln!(out)
}

// One step, with as much passed as the state says. Buffer, text and tree stay three parameters, as they are in the library's calls.
fn act(
    out: &mut impl Write,
    state: &mut State,
    command: Command,
    step: Step<'_>,
    buffer: &mut [u8],
    text: &mut [u8],
    tree: &mut [u8],
) -> io::Result<()> {
    let Step {
        first,
        second,
        third,
        bytes,
    } = step;
    let writer = &mut state.writer;
    match command {
        Command::Begin => {
            let edition = edition_of(second);
            let answer = aff_write::begin(
                edition,
                buffer,
                bytes,
                text,
                tree,
                first as usize,
                writer,
            );
            report(out, "begin", answer, writer)?;
        }
        Command::Make => {
            let answer = aff_make::make(buffer, writer, text, tree, first as usize, bytes);
            report(out, "make", answer, writer)?;
        }
        Command::Put => {
            let allowance = third as usize;
            let answer = aff_write::put(
                buffer,
                writer,
                text,
                tree,
                first as usize,
                second,
                bytes,
                allowance,
            );
            report(out, "put", answer, writer)?;
        }
        Command::Close => {
            let answer = aff_write::close(buffer, writer, text, tree, first as usize);
            report(out, "close", answer, writer)?;
        }
        Command::Lengths => {
            state.buffer = first as usize;
            state.text = second as usize;
            state.tree = third as usize;
        }
        Command::Alter => alter(writer, first, second),
        Command::Fill => buffer.fill(low(first)),
        Command::PokeBuffer => poke(buffer, first, second),
        Command::PokeText => poke(text, first, second),
        Command::PokeTree => poke(tree, first, second),
        Command::Say => {
            console::text(out, bytes)?;
            writeln!(out)?;
        }
        Command::Sums => sums(out, buffer, text, tree)?,
        Command::Hex => {
            show::hex(out, buffer)?;
            writeln!(out)?;
        }
        Command::List => test_list_brief::print(out, buffer, Choice::AllNodes)?,
        Command::Dump => test_dump::print(out, buffer)?,
    }
    Ok(())
}

// Runs the step that a block holds. A block that is too short for one is passed over, and so is one with another letter.
pub fn run(
    out: &mut impl Write,
    state: &mut State,
    block: &[u8],
    buffer: &mut [u8],
    text: &mut [u8],
    tree: &mut [u8],
) -> io::Result<()> {
    if block.len() < 25 {
        return Ok(());
    }
    let Ok(command) = Command::try_from(block[0]) else {
        return Ok(());
    };
    let a = state.buffer.min(buffer.len());
    let b = state.text.min(text.len());
    let c = state.tree.min(tree.len());
    let step = step_of(block);
    act(
        out,
        state,
        command,
        step,
        &mut buffer[..a],
        &mut text[..b],
        &mut tree[..c],
    )
}
