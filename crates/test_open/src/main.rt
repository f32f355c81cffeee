// Opens each image of standard input, each after its length in 4 bytes, and prints what opening answers: the record's edition, strings,
// nodes and data record count, or the refusal's number, place and second number; then the sums of the two areas. tests/make_images.py makes images and
// answers; it shares no code with the library. Last, areas and forms of wrong lengths are passed: nothing changes.
#![tactic(auto)]

ghost use Rattle.std.specs.Prelude.{◌≤◌};

use aff_format::Refusal;
use aff_reader::Reader;
use std::io;
use std::io::{Read, Write};

// The sum of an area.
fn total(area: &[u32]) -> u64 {
    area.iter()
        .fold(0, |sum: u64, &x| sum.wrapping_add(u64::from(x)))
}

fn show(out: &mut impl Write, opened: Result<Reader, Refusal>) -> io::Result<()> {
    match opened {
        Ok(reader) => write!(
            out,
            "opened {} {} {} {}",
            reader.edition, reader.strings, reader.nodes, reader.records
        ),
        Err(refusal) => console::refusal_in_full(out, refusal),
    }
}

// One image, in areas that hold something before.
fn one(out: &mut impl Write, k: usize, image: &[u8]) -> io::Result<()> {
    let mut strings = [7u32; 2048];
    let mut entries = [9u32; 2048];
    let form = aff_open::form_for(image);
    let opened = aff_open::open(image, &form, &mut strings, &mut entries);
    write!(out, "{k} ")?;
    show(out, opened)?;
    writeln!(out, " areas {} {}", total(&strings), total(&entries))
}

fn images(input: &mut impl Read, out: &mut impl Write) -> io::Result<()> {
    let mut image = [0u8; 65537];
    // Five lines; as one function it would need a contract over the closure and the reader's rest.
    for k in 0..1000 {
        let Some(size) = console::next_image(input, &mut image)? else {
            break;
        };
        one(out, k, &image[..size])?;
    }
    Ok(())
}

// Areas and a form that are passed, and whether the areas stay as they are.
fn pass_areas(
    out: &mut impl Write,
    form: &[u8],
    strings: &mut [u32],
    entries: &mut [u32],
) -> io::Result<()> {
    let first = total(strings);
    let second = total(entries);
    let opened = aff_open::open(b"", form, strings, entries);
    write!(out, "passed ")?;
    show(out, opened)?;
    if total(strings) == first && total(entries) == second {
        write!(out, " unchanged")?;
    }
    writeln!(out)
}

// Areas and a form of some lengths.
fn lengths(out: &mut impl Write, strings: usize, entries: usize, form: usize) -> io::Result<()>
    requires strings_fit { strings ≤ 2049 }
    requires entries_fit { entries ≤ 2049 }
    requires form_fits { form ≤ 13 }
{
    let mut places = [7u32; 2049];
    let mut nodes = [9u32; 2049];
    let bytes = [0u8; 13];
    pass_areas(
        out,
        &bytes[..form],
        &mut places[..strings],
        &mut nodes[..entries],
    )
}

fn main(rt: HostRuntime) -> io::Result<()> {
    let mut out = io::writer(&rt);
    images(&mut rt.reader(), &mut out)?;
    lengths(&mut out, 2047, 2048, 12)?;
    lengths(&mut out, 2049, 2048, 12)?;
    lengths(&mut out, 2048, 2047, 12)?;
    lengths(&mut out, 2048, 2049, 12)?;
    lengths(&mut out, 2048, 2048, 11)?;
    lengths(&mut out, 2048, 2048, 13)
}
