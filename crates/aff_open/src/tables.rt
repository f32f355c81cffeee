// Opening up to the tables: 1 to 7, 25 to 27, 9.
ghost use Rattle.std.specs.Prelude.{◌≡◌, ◌++◌, ℕ, ◌≤◌, ◌<◌, length, replicate};
ghost use Rattle.aff_format.specs.Answer.{accepted, first_wrong};
ghost use Rattle.aff_format.specs.Bytes.{laid_over};
ghost use Rattle.aff_format.specs.Verdict.{answer_of};
ghost use Rattle.aff_open.specs.Opening.{lengths_wrong, header_checks, tree_checked, body_checks, string_places, node_places, sizes_in, tables_answer, strings_filled, entries_filled, area_filled};
ghost use Rattle.aff_open.specs.passes.Opening.{Filled, symbols_in};
ghost use Rattle.aff_open.specs.Sections.{edition_in, nodes_in};
ghost use Rattle.aff_open.specs.declared.tables.TableSizes.{TableSizes as SizesOf};

use crate::header;
use crate::sections::{Header, Readable};
use aff_format::{Edition, Refusal, Section, limits};
use aff_tables::{symbols, tree};

// What opening knows of an image whose tables are sound: its edition, and how many strings and nodes they have.
#[derive(Clone, Copy, Debug, PartialEq, Eq)]
pub struct TableSizes {
    pub edition: Edition,
    pub strings: usize,
    pub nodes: usize,
}

// 1.
#[tactic(auto, unfolding(crate::specs::Opening::lengths_wrong))]
fn lengths_wrong(image: &[u8], form: &[u8], strings: &[u32], entries: &[u32]) -> bool
    ensures { result ≡ lengths_wrong image.now form.now (length strings.now) (length entries.now) }
{
    form.len() != 12
        || strings.len() != limits::STRING_LIMIT
        || entries.len() != limits::NODE_LIMIT
        || limits::IMAGE_LIMIT < image.len()
}

// The lengths of the two areas are clauses below: the areas are lent slices, 1 judges them, and arrays would come by a conversion that can fail.

// 25 to 27, of the image's symbol section.
#[tactic(auto, using(crate::proofs::TablesLaws::span_inside_lem), unfolding(crate::specs::Sections::section_bytes))]
fn symbol_table(readable: &Readable<'_>, strings: &mut [u32]) -> Result<usize, Refusal>
    requires { length strings.old ≡ 2048 }
    ensures value { result ≡ symbols_in readable.now.header.edition readable.now.header.image.now }
    ensures stored { (n : ℕ) → answer_of result ≡ accepted n → strings.new ≡ laid_over strings.old (string_places readable.now.header.edition readable.now.header.image.now) }
{
    let header = readable.header;
    let span = readable.span(Section::Symbol);
    let records = header.records(Section::Symbol);
    symbols::symbol_table(
        header.image,
        header.edition,
        span.offset,
        span.size,
        records,
        strings,
    )
}

// 9, of the image's tree section.
#[tactic(auto, using(crate::proofs::TablesLaws::span_inside_lem), unfolding(crate::specs::Sections::section_bytes))]
fn tree_table(readable: &Readable<'_>, entries: &mut [u32]) -> Result<usize, Refusal>
    requires { length entries.old ≡ 2048 }
    ensures answer { answer_of result ≡ first_wrong (tree_checked readable.now.header.edition readable.now.header.image.now) (length (nodes_in readable.now.header.edition readable.now.header.image.now)) }
    ensures stored { (n : ℕ) → answer_of result ≡ accepted n → entries.new ≡ laid_over entries.old (node_places readable.now.header.edition readable.now.header.image.now) }
{
    let header = readable.header;
    let span = readable.span(Section::Tree);
    let records = header.records(Section::Tree);
    tree::tree_table(
        header.image,
        header.edition,
        span.offset,
        span.size,
        records,
        entries,
    )
}

// All but 1, in areas of the right length.
fn read_tables(
    image: &[u8],
    form: &[u8],
    strings: &mut [u32],
    entries: &mut [u32],
) -> Result<TableSizes, Refusal>
    requires short { length image.now < 2147483648 }
    requires strings { length strings.old ≡ 2048 }
    requires entries { length entries.old ≡ 2048 }
    ensures answer { answer_of result ≡ first_wrong (header_checks image.now form.now ++ body_checks (edition_in image.now) image.now) (sizes_in (edition_in image.now) image.now) }
    ensures filled { (s : SizesOf) → answer_of result ≡ accepted s → Filled (edition_in image.now) image.now strings.old strings.new entries.old entries.new }
{
    let edition = header::header(image, form)?;
    let header = Header { image, edition };
    header.sections()?;
    let readable = Readable { header };
    let count = symbol_table(&readable, strings)?;
    let nodes = tree_table(&readable, entries)?;
    Ok(TableSizes {
        edition,
        strings: count,
        nodes,
    })
}

// All but 1, in cleared areas; a refusal clears them again.
fn in_cleared(
    image: &[u8],
    form: &[u8],
    strings: &mut [u32],
    entries: &mut [u32],
) -> Result<TableSizes, Refusal>
    requires short { length image.now < 2147483648 }
    requires strings { length strings.old ≡ 2048 }
    requires entries { length entries.old ≡ 2048 }
    requires strings_clear { strings.old ≡ replicate (length strings.old) 0 }
    requires entries_clear { entries.old ≡ replicate (length entries.old) 0 }
    ensures answer { answer_of result ≡ first_wrong (header_checks image.now form.now ++ body_checks (edition_in image.now) image.now) (sizes_in (edition_in image.now) image.now) }
    ensures strings { strings.new ≡ area_filled (answer_of result) strings.old (string_places (edition_in image.now) image.now) }
    ensures entries { entries.new ≡ area_filled (answer_of result) entries.old (node_places (edition_in image.now) image.now) }
{
    let tables = read_tables(image, form, strings, entries);
    if tables.is_err() {
        strings.fill(0);
        entries.fill(0);
    }
    tables
}

// Reads the tables of an image and fills the two areas with the places of its strings and of its entries. A refusal's numbers are 1 to 7, 25 to 27 and 9.
// Nothing is asked of the nodes, so their parents and strings may not exist. 1 changes nothing; another refusal leaves both areas all zero.
#[tactic(auto, using(crate::proofs::TablesLaws::lengths_right))]
pub fn open_tables(
    image: &[u8],
    form: &[u8],
    strings: &mut [u32],
    entries: &mut [u32],
) -> Result<TableSizes, Refusal>
    ensures answer { answer_of result ≡ tables_answer image.now form.now (length strings.old) (length entries.old) }
    ensures strings { strings.new ≡ strings_filled image.now form.now strings.old entries.old }
    ensures entries { entries.new ≡ entries_filled image.now form.now strings.old entries.old }
{
    if lengths_wrong(image, form, strings, entries) {
        return Err(Refusal::WrongLength);
    }
    strings.fill(0);
    entries.fill(0);
    in_cleared(image, form, strings, entries)
}
