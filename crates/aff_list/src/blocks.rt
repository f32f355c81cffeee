// What is printed of an input, block by block. The image is opened and the path of each node listed is measured before the first line; then one block
// is filled after another. The first is `first_block`'s, the others are `fill`'s.
ghost use Rattle.std.specs.Prelude.{◌≡◌, cond, ◌≤◌, length, take};
ghost use Rattle.aff_format.specs.Answer.{accepted, first_wrong};
ghost use Rattle.aff_format.specs.Verdict.{answer_of};
ghost use Rattle.aff_reader.specs.Opened.{of};
ghost use Rattle.aff_read.specs.passes.Held.{holds};
ghost use Rattle.aff_reader.specs.Reader.{no_reader};
ghost use Rattle.aff_open.specs.Opening.{reader_after, strings_after, entries_after};
ghost use Rattle.aff_open.specs.Sections.{form_for};
ghost use Rattle.aff_list.specs.Lister.{path_checks, row, Exist, Ready, Fills, Starts, input_limit, is_long, with_paths, judged, lines_by, lines_after, with_order, order_after, answer_of_prepared, lines_of, printed};
ghost use Rattle.aff_list.specs.passes.Block.{end_after, put_after};

use crate::{line, refusal_line};
use aff_format::{Refusal, bytes};
use aff_listing::{Choice, listing};
use aff_read::paths;
use aff_reader::{Belonging, Opened, Reader};
use aff_spelling::Spelling;

// 21 where one of some nodes has a path above 65,536 bytes. One climb a node.
fn measure(belonging: &Belonging<'_, '_>, order: &[u32]) -> Result<(), Refusal>
    requires { Exist belonging.now.opened.reader order.now }
    ensures { answer_of result ≡ first_wrong (of belonging.now.opened path_checks order.now) tt }
{
    for &node in order {
        if paths::path_length(Spelling::Raw, belonging, node as usize, 65536).is_none() {
            return Err(Refusal::BufferTooSmall);
        }
    }
    Ok(())
}

// What is decided before the first line, where nothing is refused: the record, and how many lines there are.
#[derive(Clone, Copy, Debug, PartialEq, Eq)]
pub struct Prepared {
    pub reader: Reader,
    pub lines: usize,
}

// After an accepted opening: writes listing order, and measures the paths of the nodes listed.
fn prepare(
    belonging: &Belonging<'_, '_>,
    choice: Choice,
    order: &mut [u32; 2049],
) -> Result<Prepared, Refusal>
    ensures answer { answer_of_prepared result ≡ with_paths belonging.now.opened.image.now belonging.now.opened.strings.now belonging.now.opened.entries.now choice (accepted belonging.now.opened.reader) }
    ensures lines { lines_of result ≡ lines_by belonging.now.opened.image.now belonging.now.opened.strings.now belonging.now.opened.entries.now choice (answer_of_prepared result) }
    ensures order { order.new ≡ with_order belonging.now.opened.image.now belonging.now.opened.strings.now belonging.now.opened.entries.now choice order.old (accepted belonging.now.opened.reader) }
{
    let lines = listing::listing_of(belonging, choice, order);
    measure(belonging, &order[..lines])?;
    Ok(Prepared {
        reader: belonging.opened.reader,
        lines,
    })
}

// Opens an image with the form of our programs; where that is accepted, writes the nodes that a choice lists in listing order, and measures their paths:
// opening's refusal, or 21, which is all that is printed of the image. Both work areas are left as opening leaves them, also by 21. What it leaves where it
// accepts is what `fill` asks (`judged_ready`).
pub fn begin(
    image: &[u8],
    choice: Choice,
    strings: &mut [u32],
    entries: &mut [u32],
    order: &mut [u32; 2049],
) -> Result<Prepared, Refusal>
    ensures answer { answer_of_prepared result ≡ judged image.now choice strings.old entries.old }
    ensures lines { lines_of result ≡ lines_after image.now choice strings.old entries.old }
    ensures strings { strings.new ≡ strings_after image.now (form_for image.now) strings.old entries.old }
    ensures entries { entries.new ≡ entries_after image.now (form_for image.now) strings.old entries.old }
    ensures order { order.new ≡ order_after image.now choice strings.old entries.old order.old }
{
    let form = aff_open::form_for(image);
    let reader = aff_open::open(image, &form, strings, entries)?;
    let opened = Opened {
        image,
        reader,
        strings,
        entries,
    };
    prepare(&Belonging { opened }, choice, order)
}

// Puts a node's line and a line feed after the first `used` bytes of a block, and returns where they end. Where they do not fit, the
// block stays, and `used` is returned. The old end and no Option: `end_after` says both.
fn put_row(belonging: &Belonging<'_, '_>, node: usize, used: usize, block: &mut [u8]) -> usize
    requires exists { node ≤ belonging.now.opened.reader.nodes }
    requires inside { used ≤ length block.old }
    ensures value { result ≡ end_after used (of belonging.now.opened row node) block.old }
    ensures block_after { block.new ≡ put_after used (of belonging.now.opened row node) block.old }
{
    let size = block.len();
    if size == used {
        return used;
    }
    match line::line_of(belonging, node, &mut block[used..size - 1]) {
        Ok(length) => {
            let end = used + length;
            block[end] = b'\n';
            end + 1
        }
        Err(_) => used,
    }
}

// Where a filled block ends: the place in the order of the line that comes next, and the bytes filled.
#[derive(Clone, Copy, Debug, PartialEq, Eq)]
pub struct Filled {
    pub next: usize,
    pub used: usize,
}

// Fills a block from its front with the lines of the nodes of an order, from a place on: as many as it has space for, and one at least where one is left;
// the rest of it stays.
pub fn fill(opened: &Opened<'_, '_>, order: &[u32], from: usize, block: &mut [u8; 262164]) -> Filled
    requires ready { holds opened.now Ready order.now }
    requires place { from ≤ length order.now }
    ensures { holds opened.now Fills order.now from result.next result.used block.old block.new }
{
    let belonging = Belonging { opened: *opened };
    let mut used = 0;
    for next in from..order.len() {
        let end = put_row(&belonging, order[next] as usize, used, block);
        if end == used {
            return Filled { next, used };
        }
        used = end;
    }
    Filled {
        next: order.len(),
        used,
    }
}

// Where the first block ends: the record of the opening, how many lines there are in all, the place in listing order of the line that comes next, and the
// bytes filled. Where the next place is the number of lines there is no further block. Too long an input, or a refusal, leaves an all-zero record, and
// no lines. Zeros and no Option: what is printed is one text in each case, and `Starts` says it of all.
#[derive(Clone, Copy, Debug, PartialEq, Eq)]
pub struct First {
    pub reader: Reader,
    pub lines: usize,
    pub next: usize,
    pub used: usize,
}

// The first block of an input that is not too long.
fn first_lines(
    image: &[u8],
    choice: Choice,
    strings: &mut [u32; 2048],
    entries: &mut [u32; 2048],
    order: &mut [u32; 2049],
    block: &mut [u8; 262164],
) -> First
    requires { length image.now ≤ input_limit }
    ensures block { Starts image.now result.reader strings.new entries.new (printed choice image.now) order.new result.lines result.next result.used block.old block.new }
    ensures record { result.reader ≡ reader_after (judged image.now choice strings.old entries.old) }
    ensures lines { result.lines ≡ lines_after image.now choice strings.old entries.old }
    ensures strings { strings.new ≡ strings_after image.now (form_for image.now) strings.old entries.old }
    ensures entries { entries.new ≡ entries_after image.now (form_for image.now) strings.old entries.old }
    ensures order { order.new ≡ order_after image.now choice strings.old entries.old order.old }
{
    match begin(image, choice, strings, entries, order) {
        Ok(prepared) => {
            let opened = Opened {
                image,
                reader: prepared.reader,
                strings,
                entries,
            };
            let filled = fill(&opened, &order[..prepared.lines], 0, block);
            First {
                reader: prepared.reader,
                lines: prepared.lines,
                next: filled.next,
                used: filled.used,
            }
        }
        Err(refusal) => First {
            reader: Reader::none(),
            lines: 0,
            next: 0,
            used: refusal_line::put_refusal(refusal, block),
        },
    }
}

// Starts printing an input: fills a block from its front with `too long`, with the line `refused N P`, or with as many lines as fit. `fill` makes
// the further blocks, where there are any. An input that is too long is not opened; of any other, areas and record are left as `begin` says.
pub fn first_block(
    image: &[u8],
    choice: Choice,
    strings: &mut [u32; 2048],
    entries: &mut [u32; 2048],
    order: &mut [u32; 2049],
    block: &mut [u8; 262164],
) -> First
    ensures block { Starts image.now result.reader strings.new entries.new (printed choice image.now) order.new result.lines result.next result.used block.old block.new }
    ensures record { result.reader ≡ cond (is_long image.now) no_reader (reader_after (judged image.now choice strings.old entries.old)) }
    ensures lines { result.lines ≡ cond (is_long image.now) 0 (lines_after image.now choice strings.old entries.old) }
    ensures strings { strings.new ≡ cond (is_long image.now) strings.old (strings_after image.now (form_for image.now) strings.old entries.old) }
    ensures entries { entries.new ≡ cond (is_long image.now) entries.old (entries_after image.now (form_for image.now) strings.old entries.old) }
    ensures order { order.new ≡ cond (is_long image.now) order.old (order_after image.now choice strings.old entries.old order.old) }
{
    if 65536 < image.len() {
        return First {
            reader: Reader::none(),
            lines: 0,
            next: 0,
            used: bytes::put_run(b"too long\n", 0, block),
        };
    }
    first_lines(image, choice, strings, entries, order, block)
}
