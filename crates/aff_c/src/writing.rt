// Writing for programs in C and Rust: begin, make a child, put data, close, as include/aff.h declares them. The record is 8 numbers and the 12 bytes of
// form. The numbers are what the last call returned (the bytes stored, the new node, or a refusal's place), the buffer's length, the edition, strings, bytes of
// text, nodes, end of data, and 1 while the file is neither closed nor stopped. Each function returns 0 where the call is accepted, else the
// refusal's number.
ghost use Rattle.std.specs.Prelude.{◌≡◌};
ghost use Rattle.aff_format.specs.Refusal.{code_of_refusal};
ghost use Rattle.aff_format.specs.Verdict.{answer_of};
ghost use Rattle.aff_areas.specs.Stores.{buffer_after};
ghost use Rattle.aff_write.specs.Begin.{begin_stores, begin_area};
ghost use Rattle.aff_c.specs.Reading.{number_by};
ghost use Rattle.aff_c.specs.Writing.{writer_in, numbers_by, reported_number, numbers_refused, numbers_left, begin_returned, begin_record, make_returned, numbers_made, text_made, tree_made, put_returned, numbers_put, buffer_put, tree_put, close_returned, numbers_closed, buffer_closed};

use crate::reading::{self, returned};
use aff_format::Refusal;
use aff_write::Writer;

#[tactic(auto, unfolding(crate::specs::Writing::writer_in))]
fn writer_of(numbers: &[u64; 8], kept: &[u8; 12]) -> Writer
    ensures { result ≡ writer_in numbers.now kept.now }
{
    Writer {
        length: numbers[1] as usize,
        edition: reading::edition_of(numbers[2]),
        form: *kept,
        strings: numbers[3] as usize,
        text: numbers[4] as usize,
        nodes: numbers[5] as usize,
        end: numbers[6] as usize,
        live: numbers[7] == 1,
    }
}

// What a call reported and a record, as the 8 numbers in C.
fn numbers_by(reported: usize, writer: Writer) -> [u64; 8]
    ensures { result ≡ numbers_by reported writer }
{
    [
        reported as u64,
        writer.length as u64,
        u64::from(writer.edition),
        writer.strings as u64,
        writer.text as u64,
        writer.nodes as u64,
        writer.end as u64,
        u64::from(writer.live),
    ]
}

// What a call reports: its value, or the refusal's place.
fn reported_number(answer: Result<usize, Refusal>) -> usize
    ensures { result ≡ reported_number (answer_of answer) }
{
    answer.unwrap_or_else(Refusal::place)
}

// Stores what a refusal leaves: after 23 the record, which is stopped; after any other refusal only its place, in numbers[0].
fn leave_refused(refusal: Refusal, writer: Writer, numbers: &mut [u64; 8])
    ensures { numbers.new ≡ numbers_refused numbers.old (code_of_refusal refusal) writer }
{
    match refusal {
        Refusal::AllowanceSpent(made) => *numbers = numbers_by(made, writer),
        _ => numbers[0] = refusal.place() as u64,
    }
}

// Stores what a make, put or close leaves: what it returned and its record where it is accepted, else what the refusal leaves.
fn leave_next(answer: Result<usize, Refusal>, writer: Writer, numbers: &mut [u64; 8]) -> u32
    ensures number { result ≡ number_by (answer_of answer) }
    ensures numbers { numbers.new ≡ numbers_left numbers.old (answer_of answer) writer writer }
{
    match answer {
        Ok(value) => *numbers = numbers_by(value, writer),
        Err(refusal) => leave_refused(refusal, writer, numbers),
    }
    returned(&answer)
}

// Begins a file in a buffer, as `aff_write::begin` does, and leaves the record's numbers and form.
#[unsafe(no_mangle)]
pub extern "C" fn aff_begin(
    edition: u32,
    buffer: &mut [u8],
    form: &[u8],
    text: &mut [u8],
    tree: &mut [u8],
    allowance: u64,
    numbers: &mut [u64; 8],
    kept: &mut [u8; 12],
) -> u32
    ensures number { result ≡ number_by (begin_returned edition buffer.old form.now text.old tree.old allowance) }
    ensures numbers { numbers.new ≡ numbers_by (reported_number (begin_returned edition buffer.old form.now text.old tree.old allowance)) (begin_record edition buffer.old form.now text.old tree.old allowance) }
    ensures kept { kept.new ≡ (begin_record edition buffer.old form.now text.old tree.old allowance).form }
    ensures buffer { buffer.new ≡ buffer_after (begin_returned edition buffer.old form.now text.old tree.old allowance) begin_stores buffer.old }
    ensures text { text.new ≡ begin_area (begin_returned edition buffer.old form.now text.old tree.old allowance) text.old }
    ensures tree { tree.new ≡ begin_area (begin_returned edition buffer.old form.now text.old tree.old allowance) tree.old }
{
    let mut writer = Writer::none();
    let answer = aff_write::begin(
        edition,
        buffer,
        form,
        text,
        tree,
        allowance as usize,
        &mut writer,
    );
    *kept = writer.form;
    *numbers = numbers_by(reported_number(answer), writer);
    returned(&answer)
}

// Makes a child, as `aff_make::make` does.
#[tactic(auto, unfolding(crate::specs::Writing::numbers_made, crate::specs::Writing::text_made, crate::specs::Writing::tree_made))]
#[unsafe(no_mangle)]
pub extern "C" fn aff_make(
    buffer: &[u8],
    numbers: &mut [u64; 8],
    kept: &[u8; 12],
    text: &mut [u8],
    tree: &mut [u8],
    parent: u64,
    name: &[u8],
) -> u32
    ensures number { result ≡ number_by (make_returned buffer.now numbers.old kept.now text.old tree.old parent name.now) }
    ensures numbers { numbers.new ≡ numbers_made buffer.now numbers.old kept.now text.old tree.old parent name.now }
    ensures text { text.new ≡ text_made buffer.now numbers.old kept.now text.old tree.old parent name.now }
    ensures tree { tree.new ≡ tree_made buffer.now numbers.old kept.now text.old tree.old parent name.now }
{
    let mut writer = writer_of(numbers, kept);
    let answer = aff_make::make(buffer, &mut writer, text, tree, parent as usize, name);
    leave_next(answer, writer, numbers)
}

// Puts data into a node, as `aff_write::put` does.
#[tactic(auto, unfolding(crate::specs::Writing::numbers_put, crate::specs::Writing::buffer_put, crate::specs::Writing::tree_put))]
#[unsafe(no_mangle)]
pub extern "C" fn aff_put(
    buffer: &mut [u8],
    numbers: &mut [u64; 8],
    kept: &[u8; 12],
    text: &[u8],
    tree: &mut [u8],
    node: u64,
    kind: u64,
    bytes: &[u8],
    allowance: u64,
) -> u32
    ensures number { result ≡ number_by (put_returned buffer.old numbers.old kept.now text.now tree.old node kind bytes.now allowance) }
    ensures numbers { numbers.new ≡ numbers_put buffer.old numbers.old kept.now text.now tree.old node kind bytes.now allowance }
    ensures buffer { buffer.new ≡ buffer_put buffer.old numbers.old kept.now text.now tree.old node kind bytes.now allowance }
    ensures tree { tree.new ≡ tree_put buffer.old numbers.old kept.now text.now tree.old node kind bytes.now allowance }
{
    let mut writer = writer_of(numbers, kept);
    let answer = aff_write::put(
        buffer,
        &mut writer,
        text,
        tree,
        node as usize,
        kind,
        bytes,
        allowance as usize,
    );
    leave_next(answer, writer, numbers)
}

// Closes the file, as `aff_write::close` does.
#[tactic(auto, unfolding(crate::specs::Writing::numbers_closed, crate::specs::Writing::buffer_closed))]
#[unsafe(no_mangle)]
pub extern "C" fn aff_close(
    buffer: &mut [u8],
    numbers: &mut [u64; 8],
    kept: &[u8; 12],
    text: &[u8],
    tree: &[u8],
    allowance: u64,
) -> u32
    ensures number { result ≡ number_by (close_returned buffer.old numbers.old kept.now text.now tree.now allowance) }
    ensures numbers { numbers.new ≡ numbers_closed buffer.old numbers.old kept.now text.now tree.now allowance }
    ensures buffer { buffer.new ≡ buffer_closed buffer.old numbers.old kept.now text.now tree.now allowance }
{
    let mut writer = writer_of(numbers, kept);
    let answer = aff_write::close(buffer, &mut writer, text, tree, allowance as usize);
    leave_next(answer, writer, numbers)
}
