// Prints each image of standard input as `list` does, then as `listall` does, briefly, each after a line with its number. After an accepted opening follow
// the answers of the listing call, for an output exactly as long as the number listed, and for one place fewer. tests/make_listings.py makes images and
// answers; it shares no code with the library.
#![tactic(auto)]

use aff_listing::{Choice, listing};
use aff_reader::Opened;
use std::io;
use std::io::{Read, Write};

// The answer of the listing call for an output of some places.
fn print_answer(
    out: &mut impl Write,
    opened: &Opened<'_, '_>,
    choice: Choice,
    order: &mut [u32],
) -> io::Result<()> {
    write!(out, "{} places: ", order.len())?;
    match listing::listing(opened, choice, order) {
        Ok(n) => writeln!(out, "{n}"),
        Err(refusal) => writeln!(out, "{refusal}"),
    }
}

// Both answers: as many places as nodes listed, and one fewer.
fn print_answers(out: &mut impl Write, opened: &Opened<'_, '_>, choice: Choice) -> io::Result<()> {
    let mut order = [0u32; 2049];
    let n = listing::listing(opened, choice, &mut order).unwrap_or(0);
    if order.len() < n {
        return Ok(());
    }
    print_answer(out, opened, choice, &mut order[..n])?;
    if 0 < n {
        print_answer(out, opened, choice, &mut order[..n - 1])?;
    }
    Ok(())
}

// The answers for an image that opens, and that the programs list.
fn open_and_print(out: &mut impl Write, image: &[u8], choice: Choice) -> io::Result<()> {
    if 65536 < image.len() {
        return Ok(());
    }
    test_dump::with_opened(image, |answer| match answer {
        Ok(opened) => print_answers(out, &opened, choice),
        Err(_) => Ok(()),
    })
}

fn both(out: &mut impl Write, k: usize, image: &[u8]) -> io::Result<()> {
    writeln!(out, "{k} list")?;
    test_list_brief::print(out, image, Choice::NotVoid)?;
    open_and_print(out, image, Choice::NotVoid)?;
    writeln!(out, "{k} listall")?;
    test_list_brief::print(out, image, Choice::AllNodes)?;
    open_and_print(out, image, Choice::AllNodes)
}

fn images(input: &mut impl Read, out: &mut impl Write) -> io::Result<()> {
    let mut image = [0u8; 65537];
    // Five lines; as one function it would need a contract over the closure and the reader's rest.
    for k in 0..1000 {
        let Some(size) = console::next_image(input, &mut image)? else {
            break;
        };
        both(out, k, &image[..size])?;
    }
    Ok(())
}

fn main(rt: HostRuntime) -> io::Result<()> {
    images(&mut rt.reader(), &mut io::writer(&rt))
}
