// Opening an image.
ghost use Rattle.std.specs.Prelude.{◌≡◌, length};
ghost use Rattle.aff_format.specs.Answer.{first_wrong};
ghost use Rattle.aff_format.specs.Verdict.{answer_of};
ghost use Rattle.aff_open.specs.Opening.{nodes_checked, open_answer, reader_with, reader_for, reader_after, strings_after, entries_after};
ghost use Rattle.aff_open.specs.passes.Opening.{StringsLaid, EntriesLaid};

use crate::sections::{Header, Readable};
use crate::tables;
use crate::tables::TableSizes;
use aff_format::data::Bounds;
use aff_format::{Refusal, Section};
use aff_reader::Reader;
use aff_tables::nodes;
use aff_tables::placed::Strings;

// The record of an accepted opening, with the numbers of strings and nodes found.
fn record(readable: &Readable<'_>, sizes: TableSizes) -> Reader
    ensures { result ≡ reader_with readable.now.header.edition readable.now.header.image.now sizes.strings sizes.nodes }
{
    let header = readable.header;
    Reader {
        length: header.image.len(),
        edition: header.edition.number(),
        symbols: readable.span(Section::Symbol),
        tree: readable.span(Section::Tree),
        data: readable.span(Section::Data),
        strings: sizes.strings,
        nodes: sizes.nodes,
        records: header.records(Section::Data),
    }
}

// After the two tables: 10 to 13.
#[tactic(auto, using(crate::proofs::OpeningLaws::checked_by, crate::proofs::TablesLaws::span_inside_lem))]
fn with_tables(
    readable: &Readable<'_>,
    sizes: TableSizes,
    strings: &[u32],
    entries: &[u32],
) -> Result<Reader, Refusal>
    requires strings { StringsLaid readable.now.header.edition readable.now.header.image.now strings.now sizes.strings }
    requires entries { EntriesLaid readable.now.header.edition readable.now.header.image.now entries.now sizes.nodes }
    ensures { answer_of result ≡ first_wrong (nodes_checked readable.now.header.edition readable.now.header.image.now) (reader_for readable.now.header.edition readable.now.header.image.now) }
{
    let header = readable.header;
    let symbols = readable.span(Section::Symbol);
    let data = readable.span(Section::Data);
    let strings = Strings {
        image: header.image,
        end: symbols.offset + symbols.size,
        places: strings,
        count: sizes.strings,
    };
    let bounds = Bounds {
        from: data.offset,
        size: data.size,
    };
    nodes::node_checks(&strings, header.edition, entries, sizes.nodes, bounds)?;
    Ok(record(readable, sizes))
}

// Validates a complete file image in memory and fills the two work areas. `form` has the 12 bytes expected after the signature text (`form_for` has
// those of our programs); `strings` and `entries` are two areas of 2,048 numbers, which an accepted opening fills with the places of the strings and
// of the entries. A refusal's numbers are, in this order, 1 to 7, 25 to 27 (what is wrong with the strings of the symbol table) and 9 to 13; 1 changes
// nothing, another leaves both areas all zero. `record_left` is the record that goes with either answer.
pub fn open(
    image: &[u8],
    form: &[u8],
    strings: &mut [u32],
    entries: &mut [u32],
) -> Result<Reader, Refusal>
    ensures answer { answer_of result ≡ open_answer image.now form.now (length strings.old) (length entries.old) }
    ensures strings { strings.new ≡ strings_after image.now form.now strings.old entries.old }
    ensures entries { entries.new ≡ entries_after image.now form.now strings.old entries.old }
{
    let sizes = tables::open_tables(image, form, strings, entries)?;
    let header = Header {
        image,
        edition: sizes.edition,
    };
    let readable = Readable { header };
    let opened = with_tables(&readable, sizes, strings, entries);
    if opened.is_err() {
        strings.fill(0);
        entries.fill(0);
    }
    opened
}

// The record that an opening leaves: all zero after a refusal.
pub fn record_left(opened: Result<Reader, Refusal>) -> Reader
    ensures { result ≡ reader_after (answer_of opened) }
{
    opened.unwrap_or_default()
}
