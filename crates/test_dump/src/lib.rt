// An image opened and read back to a writer, for tests: every node's answers, and those of the number after the last.
#![tactic(auto)]

pub mod show; // bytes and answers

ghost use Rattle.std.specs.Prelude.{◌≡◌};
ghost use Rattle.test_dump.specs.Opening.{IsOpening};

use aff_format::{Kind, Refusal};
use aff_nodes::node;
use aff_read::paths;
use aff_reader::Opened;
use std::io;
use std::io::Write;

// The elements of a node, and the index after them: 16.
fn print_elements(
    out: &mut impl Write,
    opened: &Opened<'_, '_>,
    node: usize,
    count: usize,
) -> io::Result<()> {
    write!(out, "  elements")?;
    for k in 0..=count {
        console::element(out, node::element(opened, node, k))?;
    }
    writeln!(out)
}

fn print_path(out: &mut impl Write, opened: &Opened<'_, '_>, node: usize) -> io::Result<()> {
    let mut bytes = [0u8; 1024];
    match paths::path(opened, node, &mut bytes) {
        Ok(n) => console::front(out, &bytes, n),
        Err(refusal) => write!(out, "{refusal}"),
    }
}

fn print_kind(out: &mut impl Write, answer: Result<Kind, Refusal>) -> io::Result<()> {
    match answer {
        Ok(kind) => write!(out, "{}", kind.code()),
        Err(refusal) => write!(out, "{refusal}"),
    }
}

// Number, path, name, type, count, bytes and elements of a node.
fn print_node(out: &mut impl Write, opened: &Opened<'_, '_>, node: usize) -> io::Result<()> {
    write!(out, "{node} path ")?;
    print_path(out, opened, node)?;
    write!(out, " name ")?;
    console::text(out, node::name(opened, node))?;
    write!(out, " type ")?;
    print_kind(out, node::kind(opened, node))?;
    write!(out, " count ")?;
    let count = node::count(opened, node);
    show::answer(out, count)?;
    write!(out, " bytes ")?;
    show::hex(out, node::view(opened, node))?;
    writeln!(out)?;
    if let Ok(n) = count {
        print_elements(out, opened, node, n)?;
    }
    Ok(())
}

fn print_nodes(out: &mut impl Write, opened: &Opened<'_, '_>) -> io::Result<()> {
    let reader = opened.reader;
    writeln!(
        out,
        "opened {} {} {} {}",
        reader.edition, reader.strings, reader.nodes, reader.records
    )?;
    let last = reader.nodes.min(2048);
    for node in 0..=last {
        print_node(out, opened, node)?;
    }
    print_node(out, opened, last + 1)
}

// Opens an image with the form of our programs, in areas of its own, and hands the answer to a closure.
pub fn with_opened<T, F: FnOnce(Result<Opened<'_, '_>, Refusal>) -> T>(image: &[u8], act: F) -> T
    requires { F.IsAlwaysCallable act }
    ensures { (opened : _) × IsOpening image.now opened × F.post act opened result }
{
    let mut strings = [0u32; 2048];
    let mut entries = [0u32; 2048];
    let form = aff_open::form_for(image);
    match aff_open::open(image, &form, &mut strings, &mut entries) {
        Ok(reader) => act(Ok(Opened {
            image,
            reader,
            strings: &strings,
            entries: &entries,
        })),
        Err(refusal) => act(Err(refusal)),
    }
}

// Edition, strings, nodes and data record count of an image that opens, and every node; or the refusal.
pub fn print(out: &mut impl Write, image: &[u8]) -> io::Result<()> {
    with_opened(image, |answer| match answer {
        Ok(opened) => print_nodes(out, &opened),
        Err(refusal) => writeln!(out, "{refusal}"),
    })
}
