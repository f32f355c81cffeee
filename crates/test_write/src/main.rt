// Runs the writer by the script on standard input, and prints each call's answer with the record after it. tests/make_writes.py makes the
// script and what must be printed; it shares no code with the library.
#![tactic(auto)]

mod record; // sums and the record, printed
mod steps; // the steps of a script

use aff_write::Writer;
use std::io;
use std::io::{Read, Write};
use steps::State;

// The steps of the input, one after another.
fn script(
    input: &mut impl Read,
    out: &mut impl Write,
    buffer: &mut [u8],
    text: &mut [u8],
    tree: &mut [u8],
) -> io::Result<()> {
    let mut state = State {
        writer: Writer::none(),
        buffer: 0,
        text: 0,
        tree: 0,
    };
    let mut block = [0u8; 65536];
    // Five lines; as one function it would need a contract over the closure and the reader's rest.
    for _ in 0..100000 {
        let Some(size) = console::next_image(input, &mut block)? else {
            break;
        };
        steps::run(out, &mut state, &block[..size], buffer, text, tree)?;
    }
    Ok(())
}

// The buffer, and the two areas with one byte more than they have to have.
fn main(rt: HostRuntime) -> io::Result<()> {
    let mut buffer = [0u8; 65536];
    let mut text = [0u8; 32769];
    let mut tree = [0u8; 51201];
    script(
        &mut rt.reader(),
        &mut io::writer(&rt),
        &mut buffer,
        &mut text,
        &mut tree,
    )
}
