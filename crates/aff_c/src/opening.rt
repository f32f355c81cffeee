// Opening for programs in C and Rust: `aff_form`, `aff_form_for` and `aff_open_image` of include/aff.h.
ghost use Rattle.std.specs.Prelude.{◌≡◌, leb, length};
ghost use Rattle.aff_format.specs.Verdict.{answer_of};
ghost use Rattle.aff_c.specs.Opening.{code_of_answer, numbers_of, number_returned, record_left, strings_left, entries_left, with_form, has_form_of, with_form_of};

use aff_format::{Edition, Refusal, RefusalCode};
use aff_reader::Reader;

// What an opening reports: zeros for acceptance.
fn code_of(opened: Result<Reader, Refusal>) -> RefusalCode
    ensures { result ≡ code_of_answer (answer_of opened) }
{
    match opened {
        Ok(_) => RefusalCode {
            number: 0,
            place: 0,
            second: 0,
        },
        Err(refusal) => refusal.code(),
    }
}

// The 13 numbers of the record in C.
#[tactic(auto, unfolding(crate::specs::Opening::numbers_of))]
fn numbers(code: RefusalCode, reader: Reader) -> [u64; 13]
    ensures { result ≡ numbers_of code reader }
{
    let symbols = reader.symbols;
    let tree = reader.tree;
    let data = reader.data;
    [
        code.place as u64,
        reader.length as u64,
        u64::from(reader.edition),
        symbols.offset as u64,
        symbols.size as u64,
        tree.offset as u64,
        tree.size as u64,
        data.offset as u64,
        data.size as u64,
        reader.strings as u64,
        reader.nodes as u64,
        reader.records,
        code.second as u64,
    ]
}

// Opens a complete image in memory, as `aff_open::open` does, and returns 0 where it is accepted, else the refusal's number. It writes 13
// numbers into the record: the place that a refusal reports, or 0; of an accepted image, else zeros, its length, its edition, offset and
// size of the symbol, the tree and the data section, how many strings and how many nodes it has, and the data section's record count; and last the
// second number of 10, or 0. Where the record has fewer than 13 numbers, it opens nothing, changes nothing and returns 255.
#[tactic(auto, unfolding(crate::specs::Opening::number_returned, crate::specs::Opening::record_left, crate::specs::Opening::strings_left, crate::specs::Opening::entries_left))]
#[unsafe(no_mangle)]
pub extern "C" fn aff_open_image(
    image: &[u8],
    form: &[u8],
    strings: &mut [u32],
    entries: &mut [u32],
    record: &mut [u64],
) -> u32
    ensures number { result ≡ number_returned image.now form.now strings.old entries.old «record».old }
    ensures record { «record».new ≡ record_left image.now form.now strings.old entries.old «record».old }
    ensures strings { strings.new ≡ strings_left image.now form.now strings.old entries.old «record».old }
    ensures entries { entries.new ≡ entries_left image.now form.now strings.old entries.old «record».old }
{
    if record.len() < 13 {
        return 255;
    }
    let opened = aff_open::open(image, form, strings, entries);
    let code = code_of(opened);
    record[..13].copy_from_slice(&numbers(code, aff_open::record_left(opened)));
    code.number
}

// Writes the 12 bytes that our programs expect after the signature text of an image into the first 12 bytes of the output, and returns
// true. Where the output has fewer bytes, it writes nothing and returns false.
#[tactic(auto, unfolding(crate::specs::Opening::with_form))]
#[unsafe(no_mangle)]
pub extern "C" fn aff_form_for(image: &[u8], output: &mut [u8]) -> bool
    ensures written { result ≡ leb 12 (length output.old) }
    ensures output { output.new ≡ with_form image.now output.old }
{
    if output.len() < 12 {
        return false;
    }
    output[..12].copy_from_slice(&aff_open::form_for(image));
    true
}

// Writes the 12 bytes of an edition, as our programs expect them after the signature text, into the first 12 bytes of the output, and returns true.
// Where there is no such edition, or the output has fewer bytes, it writes nothing and returns false.
#[tactic(auto, unfolding(crate::specs::Opening::with_form_of))]
#[unsafe(no_mangle)]
pub extern "C" fn aff_form(edition: u32, output: &mut [u8]) -> bool
    ensures written { result ≡ has_form_of edition output.old }
    ensures output { output.new ≡ with_form_of edition output.old }
{
    if output.len() < 12 {
        return false;
    }
    if !Edition::exists(edition) {
        return false;
    }
    output[..12].copy_from_slice(&Edition::by_number(edition).number_form());
    true
}
