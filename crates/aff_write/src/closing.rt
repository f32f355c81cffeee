// Close.
ghost use Rattle.std.specs.Prelude.{◌≡◌, ◌++◌, map, ◌+◌, ◌≤◌, length, take, drop};
ghost use Rattle.aff_format.specs.Answer.{first_wrong};
ghost use Rattle.aff_format.specs.Bytes.{spliced, joined};
ghost use Rattle.aff_format.specs.Edition.{header_order, signature_size, section_at, section_header_size, most_header};
ghost use Rattle.aff_format.specs.Limits.{image_limit, text_area};
ghost use Rattle.aff_format.specs.Verdict.{answer_of};
ghost use Rattle.aff_areas.specs.Areas.{used_text, entries_out};
ghost use Rattle.aff_areas.specs.Stores.{apply_stores, stores_from, buffer_after};
ghost use Rattle.aff_areas.specs.Writer.{writer_edition, data_place, stopped, writer_after};
ghost use Rattle.aff_write.specs.Close.{section_of, close_header, close_stores, store_checks, close_answer};

use aff_areas::{Given, Held, Writer, areas, store};
use aff_format::{Edition, Refusal, Section, limits};
use aff_header::header;

// What the section headers are made from: the record, how many nodes are not Void, and the bytes of the three sections.
#[derive(Clone, Copy, Debug, PartialEq, Eq)]
struct Sections<'a> {
    writer: Writer,
    full: usize,
    symbols: &'a [u8],
    entries: &'a [u8],
    stored: &'a [u8],
    ghost end_allowed: { writer.end ≤ image_limit },
    ghost text_inside: { writer.text ≤ text_area },
}

impl Sections<'_> {
    ghost use Rattle.std.specs.Prelude.{◌≡◌, map, ◌+◌, ◌≤◌, length};
    ghost use Rattle.aff_format.specs.Bytes.{spliced, joined};
    ghost use Rattle.aff_format.specs.Edition.{header_order, signature_size, section_at, section_header_size, most_header};
    ghost use Rattle.aff_areas.specs.Writer.{writer_edition};
    ghost use Rattle.aff_write.specs.Close.{section_of};

    // Puts the header of the section at a rank, 0 to 2, into an area at a place.
    fn put_ranked(&self, out: &mut [u8], at: usize, rank: usize)
        requires { at + section_header_size (writer_edition self.now.writer) ≤ length out.old }
        ensures { out.new ≡ spliced at (section_of self.now.writer self.now.full self.now.symbols.now self.now.entries.now self.now.stored.now (section_at (writer_edition self.now.writer) rank)) out.old }
    {
        let writer = self.writer;
        let edition = Edition::by_number(writer.edition);
        let (place, count, bytes) = match edition.section_at(rank) {
            Section::Symbol => (writer.end, writer.strings, self.symbols),
            Section::Tree => (writer.end + writer.text, writer.nodes, self.entries),
            Section::Data => (writer.data_place(), self.full, self.stored),
        };
        header::put_section(out, edition, at, place, count, bytes);
    }

    // The three section headers after the signature, in the order of the edition. Three calls: a loop and its invariant would be longer.
    fn put_headers(&self, out: &mut [u8])
        requires { most_header ≤ length out.old }
        ensures { out.new ≡ spliced signature_size (joined (map (section_of self.now.writer self.now.full self.now.symbols.now self.now.entries.now self.now.stored.now) (header_order (writer_edition self.now.writer)))) out.old }
    {
        let edition = Edition::by_number(self.writer.edition);
        let size = edition.section_header_size();
        let second = Edition::SIGNATURE + size;
        let third = second + size;
        self.put_ranked(out, Edition::SIGNATURE, 0);
        self.put_ranked(out, second, 1);
        self.put_ranked(out, third, 2);
    }
}

// The header of the finished file, from its strings, its entries and the data in the buffer: the front of what is returned. The buffer is lent for the
// stores, so a record that belongs has its length alone, and that the two agree is a clause, here and below.
fn close_header<'a>(
    buffer: &'a [u8],
    held: &Held<'_>,
    symbols: &'a [u8],
    entries: &'a [u8],
) -> [u8; Edition::MOST_HEADER]
    requires sized { length buffer.now ≡ held.now.given.size }
    requires symbols { symbols.now ≡ used_text held.now.given.writer held.now.given.text.now }
    requires entries { entries.now ≡ entries_out held.now.given.tree.now held.now.given.writer.nodes }
    ensures { take (data_place held.now.given.writer) result ≡ close_header buffer.now held.now.given.writer held.now.given.text.now held.now.given.tree.now }
{
    let writer = held.given.writer;
    let mut out = [0u8; Edition::MOST_HEADER];
    let edition = Edition::by_number(writer.edition);
    let from = writer.data_place();
    let full = areas::data_nodes(held.given.tree, writer.nodes);
    let sections = Sections {
        writer,
        full,
        symbols,
        entries,
        stored: &buffer[from..writer.end],
    };
    header::put_signature(&mut out, edition, writer.form);
    sections.put_headers(&mut out);
    header::put_sum(&mut out, edition);
    out
}

// Stores strings, entries, the header from its byte 1 on, and last its first byte, at most as many bytes as allowed. It answers how many it
// stored.
fn store_file(
    buffer: &mut [u8],
    at: usize,
    symbols: &[u8],
    entries: &[u8],
    header: &[u8],
    allowance: usize,
) -> usize
    requires header_some { 1 ≤ length header.now }
    requires header_inside { length header.now ≤ length buffer.old }
    requires body_inside { at + length symbols.now + length entries.now ≤ length buffer.old }
    ensures made { result ≡ length (take allowance ((stores_from at symbols.now ++ stores_from (at + length symbols.now) entries.now) ++ (stores_from 1 (drop 1 header.now) ++ stores_from 0 (take 1 header.now)))) }
    ensures buffer { buffer.new ≡ apply_stores buffer.old (take allowance ((stores_from at symbols.now ++ stores_from (at + length symbols.now) entries.now) ++ (stores_from 1 (drop 1 header.now) ++ stores_from 0 (take 1 header.now)))) }
{
    let body = store::store_both(buffer, at, symbols, at + symbols.len(), entries, allowance);
    let left = allowance - body;
    let size = header.len();
    body + store::store_both(buffer, 1, &header[1..size], 0, &header[0..1], left)
}

// Makes the header and stores the file, at most as many bytes as allowed. It answers how many it stored.
fn store_closed<'a>(
    buffer: &mut [u8],
    held: &Held<'_>,
    symbols: &'a [u8],
    entries: &'a [u8],
    allowance: usize,
) -> usize
    requires sized { length buffer.old ≡ held.now.given.size }
    requires symbols { symbols.now ≡ used_text held.now.given.writer held.now.given.text.now }
    requires entries { entries.now ≡ entries_out held.now.given.tree.now held.now.given.writer.nodes }
    ensures made { result ≡ length (take allowance (close_stores buffer.old held.now.given.writer held.now.given.text.now held.now.given.tree.now)) }
    ensures buffer { buffer.new ≡ apply_stores buffer.old (take allowance (close_stores buffer.old held.now.given.writer held.now.given.text.now held.now.given.tree.now)) }
    ensures needed { length (close_stores buffer.old held.now.given.writer held.now.given.text.now held.now.given.tree.now) ≡ held.now.given.writer.text + length entries.now + data_place held.now.given.writer }
{
    let writer = held.given.writer;
    let from = writer.data_place();
    let header = close_header(buffer, held, symbols, entries);
    store_file(
        buffer,
        writer.end,
        symbols,
        entries,
        &header[..from],
        allowance,
    )
}

// 23, of a record that belongs and is open. All that is stored is made first; then it is stored as far as allowed.
fn close_held(buffer: &mut [u8], held: &Held<'_>, allowance: usize) -> Result<usize, Refusal>
    requires { length buffer.old ≡ held.now.given.size }
    ensures answer { answer_of result ≡ first_wrong (store_checks buffer.old held.now.given.writer held.now.given.text.now held.now.given.tree.now allowance) (length (close_stores buffer.old held.now.given.writer held.now.given.text.now held.now.given.tree.now)) }
    ensures buffer { buffer.new ≡ buffer_after (answer_of result) (close_stores buffer.old held.now.given.writer held.now.given.text.now held.now.given.tree.now) buffer.old }
{
    let writer = held.given.writer;
    let mut entries = [0u8; limits::TREE_AREA];
    let size = areas::entries_out(held.given.tree, writer.nodes, &mut entries);
    let symbols = held.used_text();
    let made = store_closed(buffer, held, symbols, &entries[..size], allowance);
    let needed = writer.text + size + writer.data_place();
    if made < needed {
        return Err(Refusal::AllowanceSpent(made));
    }
    Ok(made)
}

// Closes the file: 24, 22, 23. It answers the stores made. The last store, of the first signature byte, makes the buffer one that opens.
// Buffer and areas stay three parameters, as in put.
#[tactic(auto, unfolding(crate::specs::Close::close_answer, aff_areas::specs::Stores::apply_stores))]
pub fn close(
    buffer: &mut [u8],
    writer: &mut Writer,
    text: &[u8],
    tree: &[u8],
    allowance: usize,
) -> Result<usize, Refusal>
    ensures answer { answer_of result ≡ close_answer buffer.old writer.old text.now tree.now allowance }
    ensures record { writer.new ≡ writer_after (answer_of result) (stopped writer.old) writer.old }
    ensures buffer { buffer.new ≡ buffer_after (answer_of result) (close_stores buffer.old writer.old text.now tree.now) buffer.old }
{
    let given = Given {
        size: buffer.len(),
        writer: *writer,
        text,
        tree,
    };
    let held = given.judge()?;
    *writer = writer.stopped();
    close_held(buffer, &held, allowance)
}
