// Begin.
ghost use Rattle.std.specs.Prelude.{◌≡◌, length};
ghost use Rattle.aff_format.specs.Verdict.{answer_of};
ghost use Rattle.aff_areas.specs.Stores.{buffer_after};
ghost use Rattle.aff_write.specs.Begin.{begin_lengths_wrong, begin_stores, begin_answer, begin_writer, begin_area};

use aff_areas::Writer;
use aff_format::{Edition, Refusal, limits};

#[tactic(auto, unfolding(crate::specs::Begin::begin_lengths_wrong))]
fn lengths_wrong(buffer: &[u8], form: &[u8], text: &[u8], tree: &[u8]) -> bool
    ensures { result ≡ begin_lengths_wrong buffer.now form.now text.now tree.now }
{
    form.len() != 12
        || text.len() != limits::TEXT_AREA
        || tree.len() != limits::TREE_AREA
        || limits::IMAGE_LIMIT < buffer.len()
}

// Begins a file of a written edition in a buffer: 1, 3, 21, 23. `edition` is its number, 2 or 3; `form` has the 12 bytes that come after the signature text. An
// accepted begin stores 0 at the buffer's place 0, so that nothing opens there until the file is closed, and clears both areas.
// The edition is a number, since C passes any: 3 judges it. The record is lent: after 23 it is left stopped (`begin_writer`). Buffer and areas stay three
// parameters, as in make and put.
#[tactic(auto, unfolding(crate::specs::Begin::begin_answer, aff_areas::specs::Stores::apply_stores, aff_areas::specs::Stores::stores_from))]
pub fn begin(
    edition: u32,
    buffer: &mut [u8],
    form: &[u8],
    text: &mut [u8],
    tree: &mut [u8],
    allowance: usize,
    writer: &mut Writer,
) -> Result<usize, Refusal>
    ensures answer { answer_of result ≡ begin_answer edition buffer.old form.now text.old tree.old allowance }
    ensures record { writer.new ≡ begin_writer (answer_of result) edition (length buffer.old) form.now }
    ensures buffer { buffer.new ≡ buffer_after (answer_of result) begin_stores buffer.old }
    ensures text { text.new ≡ begin_area (answer_of result) text.old }
    ensures tree { tree.new ≡ begin_area (answer_of result) tree.old }
{
    *writer = Writer::none();
    if lengths_wrong(buffer, form, text, tree) {
        return Err(Refusal::WrongLength);
    }
    if !Edition::names_written(edition) {
        return Err(Refusal::UnknownEdition);
    }
    let fresh = Writer::fresh(edition, buffer.len(), form);
    if buffer.len() < fresh.data_place() {
        return Err(Refusal::BufferTooSmall);
    }
    if allowance < 1 {
        *writer = fresh.stopped();
        return Err(Refusal::AllowanceSpent(allowance));
    }
    *writer = fresh;
    buffer[0] = 0;
    text.fill(0);
    tree.fill(0);
    Ok(1)
}
