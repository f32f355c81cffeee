// Reading for programs in C and Rust: lookup, listing order, what a node is, one element of its data, and one element of data whose place the caller
// holds, as include/aff.h declares them. The record is the first 12 numbers that `aff_open_image` writes. Each function returns 0 where the call
// is accepted, else the refusal's number, and then leaves the caller's memory as it was, except `place` of `aff_lookup`.
ghost use Rattle.std.specs.Prelude.{◌≡◌, ℕ, length};
ghost use Rattle.aff_reader.specs.declared.reader.Span.{Span};
ghost use Rattle.aff_format.specs.Kind.{kind_code};
ghost use Rattle.aff_format.specs.Verdict.{answer_of};
ghost use Rattle.aff_nodes.specs.Answers.{name_answer, kind_answer, count_answer, view_answer, element_answer};
ghost use Rattle.aff_read.specs.Paths.{front_written, path_answer, lookup_answer};
ghost use Rattle.aff_nodes.specs.Recall.{path_at};
ghost use Rattle.aff_c.specs.Reading.{edition_number_in, reader_in, number_by, place_by, choice_by, left_by, real_part, imaginary_part, decoded_answer};
ghost use Rattle.aff_listing.specs.ListingOrder.{listing_order, listing_answer};

use aff_format::{Element, Kind, Refusal, element};
use aff_listing::Choice;
use aff_reader::{Opened, Reader, Span};

// The number of an edition in a record; 0, which is no edition, where it has more than 32 bits.
#[tactic(auto, unfolding(crate::specs::Reading::edition_number_in))]
pub fn edition_of(number: u64) -> u32
    ensures { result ≡ edition_number_in number }
{
    u32::try_from(number).unwrap_or(0)
}

#[tactic(auto, unfolding(crate::specs::Reading::reader_in))]
fn reader_of(numbers: &[u64; 12]) -> Reader
    ensures { result ≡ reader_in numbers.now }
{
    Reader {
        length: numbers[1] as usize,
        edition: edition_of(numbers[2]),
        symbols: Span {
            offset: numbers[3] as usize,
            size: numbers[4] as usize,
        },
        tree: Span {
            offset: numbers[5] as usize,
            size: numbers[6] as usize,
        },
        data: Span {
            offset: numbers[7] as usize,
            size: numbers[8] as usize,
        },
        strings: numbers[9] as usize,
        nodes: numbers[10] as usize,
        records: numbers[11],
    }
}

// What a reading call is passed, with its record by the numbers in C.
fn opened_of<'a>(
    image: &'a [u8],
    numbers: &[u64; 12],
    strings: &'a [u32],
    entries: &'a [u32],
) -> Opened<'a, 'a>
    ensures image { result.image.now ≡ image.now }
    ensures reader { result.reader ≡ reader_in numbers.now }
    ensures strings { result.strings.now ≡ strings.now }
    ensures entries { result.entries.now ≡ entries.now }
{
    Opened {
        image,
        reader: reader_of(numbers),
        strings,
        entries,
    }
}

fn real_part(element: Element) -> f64
    ensures { result ≡ real_part element }
{
    match element {
        Element::Byte(n) => n as f64,
        Element::Int(n) => n as f64,
        Element::Real(x) => x,
        Element::Pair(x, _) => x,
    }
}

fn imaginary_part(element: Element) -> f64
    ensures { result ≡ imaginary_part element }
{
    match element {
        Element::Byte(_) | Element::Int(_) | Element::Real(_) => 0u8 as f64,
        Element::Pair(_, y) => y,
    }
}

// The number that a call returns: 0 where it is accepted, else the refusal's.
pub fn returned<T>(answer: &Result<T, Refusal>) -> u32
    ensures { result ≡ number_by (answer_of answer.now) }
{
    match answer {
        Ok(_) => 0,
        Err(refusal) => refusal.number(),
    }
}

// The place that a refusal reports; 0 where the call is accepted.
fn place_of(answer: Result<usize, Refusal>) -> u64
    ensures { result ≡ place_by (answer_of answer) }
{
    match answer {
        Ok(_) => 0,
        Err(refusal) => refusal.place() as u64,
    }
}

// The lowest node with a path, as `aff_read::paths::lookup` finds it. The place is written whatever the answer: for 14 where the path breaks, else 0.
#[unsafe(no_mangle)]
pub extern "C" fn aff_lookup(
    image: &[u8],
    record: &[u64; 12],
    strings: &[u32],
    entries: &[u32],
    path: &[u8],
    node: &mut u64,
    place: &mut u64,
) -> u32
    ensures number { result ≡ number_by (lookup_answer image.now (reader_in «record».now) strings.now entries.now path.now) }
    ensures node { node.new ≡ left_by (λ (n : ℕ). n) node.old (lookup_answer image.now (reader_in «record».now) strings.now entries.now path.now) }
    ensures place { place.new ≡ place_by (lookup_answer image.now (reader_in «record».now) strings.now entries.now path.now) }
{
    let opened = opened_of(image, record, strings, entries);
    let answer = aff_read::paths::lookup(&opened, path);
    *place = place_of(answer);
    if let Ok(found) = answer {
        *node = found as u64;
    }
    returned(&answer)
}

// Where the name of a node is in the image, as `aff_nodes::node::name_bounds` reports.
#[unsafe(no_mangle)]
pub extern "C" fn aff_name(
    image: &[u8],
    record: &[u64; 12],
    strings: &[u32],
    entries: &[u32],
    node: u64,
    offset: &mut u64,
    size: &mut u64,
) -> u32
    ensures number { result ≡ number_by (name_answer image.now (reader_in «record».now) strings.now entries.now node) }
    ensures offset { offset.new ≡ left_by (λ (s : Span). s.offset) offset.old (name_answer image.now (reader_in «record».now) strings.now entries.now node) }
    ensures size { size.new ≡ left_by (λ (s : Span). s.size) size.old (name_answer image.now (reader_in «record».now) strings.now entries.now node) }
{
    let opened = opened_of(image, record, strings, entries);
    let answer = aff_nodes::node::name_bounds(&opened, node as usize);
    if let Ok(span) = answer {
        *offset = span.offset as u64;
        *size = span.size as u64;
    }
    returned(&answer)
}

// The code of a node's kind, as `aff_nodes::node::kind` reports.
#[unsafe(no_mangle)]
pub extern "C" fn aff_kind(
    image: &[u8],
    record: &[u64; 12],
    strings: &[u32],
    entries: &[u32],
    node: u64,
    kind: &mut u64,
) -> u32
    ensures number { result ≡ number_by (kind_answer image.now (reader_in «record».now) strings.now entries.now node) }
    ensures kind { kind.new ≡ left_by kind_code kind.old (kind_answer image.now (reader_in «record».now) strings.now entries.now node) }
{
    let opened = opened_of(image, record, strings, entries);
    let answer = aff_nodes::node::kind(&opened, node as usize);
    if let Ok(found) = answer {
        *kind = u64::from(found.code());
    }
    returned(&answer)
}

// How many elements a node has, as `aff_nodes::node::count` reports.
#[unsafe(no_mangle)]
pub extern "C" fn aff_count(
    image: &[u8],
    record: &[u64; 12],
    strings: &[u32],
    entries: &[u32],
    node: u64,
    count: &mut u64,
) -> u32
    ensures number { result ≡ number_by (count_answer image.now (reader_in «record».now) strings.now entries.now node) }
    ensures count { count.new ≡ left_by (λ (n : ℕ). n) count.old (count_answer image.now (reader_in «record».now) strings.now entries.now node) }
{
    let opened = opened_of(image, record, strings, entries);
    let answer = aff_nodes::node::count(&opened, node as usize);
    if let Ok(elements) = answer {
        *count = elements as u64;
    }
    returned(&answer)
}

// Writes a node's path at the front of an output, as `aff_read::paths::path` does, and reports its length.
#[unsafe(no_mangle)]
pub extern "C" fn aff_path(
    image: &[u8],
    record: &[u64; 12],
    strings: &[u32],
    entries: &[u32],
    node: u64,
    output: &mut [u8],
    size: &mut u64,
) -> u32
    ensures number { result ≡ number_by (path_answer image.now (reader_in «record».now) strings.now entries.now node (length output.old)) }
    ensures output { output.new ≡ front_written (path_answer image.now (reader_in «record».now) strings.now entries.now node (length output.old)) (path_at image.now (reader_in «record».now) strings.now entries.now node) output.old }
    ensures size { size.new ≡ left_by (λ (n : ℕ). n) size.old (path_answer image.now (reader_in «record».now) strings.now entries.now node (length output.old)) }
{
    let opened = opened_of(image, record, strings, entries);
    let answer = aff_read::paths::path(&opened, node as usize, output);
    if let Ok(written) = answer {
        *size = written as u64;
    }
    returned(&answer)
}

// The choice of a listing by a flag: true for all nodes, false for those that are not Void.
fn choice_of(all: bool) -> Choice
    ensures { result ≡ choice_by all }
{
    if all {
        Choice::AllNodes
    } else {
        Choice::NotVoid
    }
}

// Writes listing order at the front of an output, as `aff_listing::listing::listing` does, and reports how many numbers it wrote.
#[unsafe(no_mangle)]
pub extern "C" fn aff_listing(
    image: &[u8],
    record: &[u64; 12],
    strings: &[u32],
    entries: &[u32],
    all: bool,
    output: &mut [u32],
    count: &mut u64,
) -> u32
    ensures number { result ≡ number_by (listing_answer image.now (reader_in «record».now) strings.now entries.now (choice_by all) (length output.old)) }
    ensures output { output.new ≡ front_written (listing_answer image.now (reader_in «record».now) strings.now entries.now (choice_by all) (length output.old)) (listing_order image.now (reader_in «record».now) strings.now entries.now (choice_by all)) output.old }
    ensures count { count.new ≡ left_by (λ (n : ℕ). n) count.old (listing_answer image.now (reader_in «record».now) strings.now entries.now (choice_by all) (length output.old)) }
{
    let opened = opened_of(image, record, strings, entries);
    let answer = aff_listing::listing::listing(&opened, choice_of(all), output);
    if let Ok(written) = answer {
        *count = written as u64;
    }
    returned(&answer)
}

// Where the data of a node are in the image, as `aff_nodes::node::view_bounds` reports.
#[unsafe(no_mangle)]
pub extern "C" fn aff_view(
    image: &[u8],
    record: &[u64; 12],
    strings: &[u32],
    entries: &[u32],
    node: u64,
    offset: &mut u64,
    size: &mut u64,
) -> u32
    ensures number { result ≡ number_by (view_answer image.now (reader_in «record».now) strings.now entries.now node) }
    ensures offset { offset.new ≡ left_by (λ (s : Span). s.offset) offset.old (view_answer image.now (reader_in «record».now) strings.now entries.now node) }
    ensures size { size.new ≡ left_by (λ (s : Span). s.size) size.old (view_answer image.now (reader_in «record».now) strings.now entries.now node) }
{
    let opened = opened_of(image, record, strings, entries);
    let answer = aff_nodes::node::view_bounds(&opened, node as usize);
    if let Ok(span) = answer {
        *offset = span.offset as u64;
        *size = span.size as u64;
    }
    returned(&answer)
}

// One element of a node's data, as `aff_nodes::node::element` reports.
#[unsafe(no_mangle)]
pub extern "C" fn aff_element(
    image: &[u8],
    record: &[u64; 12],
    strings: &[u32],
    entries: &[u32],
    node: u64,
    index: u64,
    value: &mut f64,
    imaginary: &mut f64,
) -> u32
    ensures number { result ≡ number_by (element_answer image.now (reader_in «record».now) strings.now entries.now node index) }
    ensures value { value.new ≡ left_by real_part value.old (element_answer image.now (reader_in «record».now) strings.now entries.now node index) }
    ensures imaginary { imaginary.new ≡ left_by imaginary_part imaginary.old (element_answer image.now (reader_in «record».now) strings.now entries.now node index) }
{
    let opened = opened_of(image, record, strings, entries);
    let answer = aff_nodes::node::element(&opened, node as usize, index as usize);
    if let Ok(element) = answer {
        *value = real_part(element);
        *imaginary = imaginary_part(element);
    }
    returned(&answer)
}

// One element of data that the caller holds, as `aff_format::element::decode` reports; 255 where no kind has the code.
#[tactic(auto, unfolding(crate::specs::Reading::decoded_answer))]
#[unsafe(no_mangle)]
pub extern "C" fn aff_decode(
    kind: u64,
    bytes: &[u8],
    index: u64,
    value: &mut f64,
    imaginary: &mut f64,
) -> u32
    ensures number { result ≡ number_by (decoded_answer kind bytes.now index) }
    ensures value { value.new ≡ left_by real_part value.old (decoded_answer kind bytes.now index) }
    ensures imaginary { imaginary.new ≡ left_by imaginary_part imaginary.old (decoded_answer kind bytes.now index) }
{
    let Some(known) = Kind::from_code(kind) else {
        return 255;
    };
    let answer = element::decode(known, bytes, index as usize);
    if let Ok(element) = answer {
        *value = real_part(element);
        *imaginary = imaginary_part(element);
    }
    returned(&answer)
}
