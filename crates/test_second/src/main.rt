// Prints of each image of standard input what the second reader says of it as well: the refusal with its place and its second number, or each node in
// listing order, its line, its first elements, bit for bit, and where a malformed path breaks. tests/second_reader makes images and answers; it shares no
// code with the library.
#![tactic(auto)]

use aff::{Choice, Opened};
use aff_list::line;
use std::io;
use std::io::{Read, Write};

// The elements of a node, at most eight. Not the loop of test_dump, which goes past the count and ends its line.
fn print_elements(out: &mut impl Write, opened: &Opened<'_, '_>, node: usize) -> io::Result<()> {
    let count = aff::count(opened, node).unwrap_or(0);
    for k in 0..count.min(8) {
        console::element(out, aff::element(opened, node, k))?;
    }
    Ok(())
}

// A node: its line, its first elements, and what a lookup answers that takes the line and a zero for a path: 14, with the place of the blank after the path,
// in edition 3 that of the zero.
fn print_node(out: &mut impl Write, opened: &Opened<'_, '_>, node: usize) -> io::Result<()> {
    let mut line = [0u8; 262164];
    match line::line(opened, node, &mut line) {
        Ok(size) => console::front(out, &line, size)?,
        Err(refusal) => write!(out, "{refusal}")?,
    }
    print_elements(out, opened, node)?;
    match aff::lookup(opened, &line) {
        Ok(found) => writeln!(out, " {found}"),
        Err(refusal) => writeln!(out, " {refusal}"),
    }
}

fn print_nodes(out: &mut impl Write, opened: &Opened<'_, '_>) -> io::Result<()> {
    let mut order = [0u32; 2049];
    let listed = aff::listing(opened, Choice::AllNodes, &mut order).unwrap_or(0);
    for &node in order.iter().take(listed) {
        print_node(out, opened, node as usize)?;
    }
    Ok(())
}

fn open_and_print(out: &mut impl Write, image: &[u8]) -> io::Result<()> {
    test_dump::with_opened(image, |answer| match answer {
        Ok(opened) => print_nodes(out, &opened),
        Err(refusal) => {
            console::refusal_in_full(out, refusal)?;
            writeln!(out)
        }
    })
}

fn images(input: &mut impl Read, out: &mut impl Write) -> io::Result<()> {
    let mut image = [0u8; 262144];
    // Five lines; as one function it would need a contract over the closure and the reader's rest.
    for k in 0..100000 {
        let Some(size) = console::next_image(input, &mut image)? else {
            break;
        };
        writeln!(out, "{k}")?;
        open_and_print(out, &image[..size])?;
    }
    Ok(())
}

fn main(rt: HostRuntime) -> io::Result<()> {
    images(&mut rt.reader(), &mut io::writer(&rt))
}
