// Opens images of standard input and looks up paths in each. An image, its paths, each after a letter `p`, and an empty part, which ends them, come one
// after the other, each after its length in 4 bytes. Prints what opening answers, and of each path what lookup answers: the node, or the refusal's number
// and place. tests/make_lookups.py makes images, paths and answers; it shares no code with the library.
#![tactic(auto)]

use aff_format::Refusal;
use aff_read::paths;
use aff_reader::Opened;
use std::io;
use std::io::{Read, Write};

fn show(out: &mut impl Write, answer: Result<usize, Refusal>) -> io::Result<()> {
    match answer {
        Ok(node) => writeln!(out, "node {node}"),
        Err(refusal) => writeln!(out, "{refusal}"),
    }
}

// The paths of an image. A path that the input cuts off is looked up with zeros after it.
fn lookups(input: &mut impl Read, out: &mut impl Write, opened: &Opened<'_, '_>) -> io::Result<()> {
    for _ in 0..2000 {
        let mut part = [0u8; 65537];
        let Some(size) = console::next_size(input, part.len())? else {
            break;
        };
        if size == 0 {
            break;
        }
        console::read_full(input, &mut part[..size])?;
        show(out, paths::lookup(opened, &part[1..size]))?;
    }
    Ok(())
}

fn open_and_look(input: &mut impl Read, out: &mut impl Write, image: &[u8]) -> io::Result<()> {
    test_dump::with_opened(image, |answer| match answer {
        Ok(opened) => {
            writeln!(out, "opened")?;
            lookups(input, out, &opened)
        }
        Err(refusal) => writeln!(out, "{refusal}"),
    })
}

fn images(input: &mut impl Read, out: &mut impl Write) -> io::Result<()> {
    let mut image = [0u8; 1024];
    // Five lines; as one function it would need a contract over the closure and the reader's rest.
    for _ in 0..100 {
        let Some(size) = console::next_image(input, &mut image)? else {
            break;
        };
        open_and_look(input, out, &image[..size])?;
    }
    Ok(())
}

fn main(rt: HostRuntime) -> io::Result<()> {
    images(&mut rt.reader(), &mut io::writer(&rt))
}
