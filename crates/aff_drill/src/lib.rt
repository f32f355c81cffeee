// The cut drill's work: the worked file of document 01 made with one total allowance, handed down from call to call, and then opened.
// Buffer, writer, text and tree stay parameters, as in the calls that it makes.
#![tactic(auto)]

ghost use Rattle.std.specs.Prelude.{◌≡◌, ◌-◌, replicate};
ghost use Rattle.aff_format.specs.Limits.{string_limit, node_limit};
ghost use Rattle.aff_format.specs.Verdict.{answer_of};
ghost use Rattle.aff_open.specs.Opening.{open_answer};
ghost use Rattle.aff_areas.specs.Stores.{apply_stores, stores_reported};
ghost use Rattle.aff_run.specs.Run.{put, step};
ghost use Rattle.aff.specs.Worked.{minus_seventy, worked_calls};
ghost use Rattle.aff_drill.specs.Drill.{state_of, named, last_calls, CutFrom, CutRun, CutDrill, reopened, drilled};

use aff::{Edition, Reader, Refusal, Writer};

// The stores that an answer reports.
fn reported(answer: Result<usize, Refusal>) -> usize
    ensures { result ≡ stores_reported (answer_of answer) }
{
    match answer {
        Ok(made) | Err(Refusal::AllowanceSpent(made)) => made,
        Err(_) => 0,
    }
}

// What is left of an allowance after a call.
fn left(allowance: usize, answer: Result<usize, Refusal>) -> usize
    ensures { result ≡ allowance - stores_reported (answer_of answer) }
{
    allowance.saturating_sub(reported(answer))
}

// Both makes, whatever they answer.
fn make_names(buffer: &[u8], writer: &mut Writer, text: &mut [u8], tree: &mut [u8])
    ensures record { writer.new ≡ (named (state_of writer.old text.old tree.old buffer.now)).writer }
    ensures text { text.new ≡ (named (state_of writer.old text.old tree.old buffer.now)).text }
    ensures tree { tree.new ≡ (named (state_of writer.old text.old tree.old buffer.now)).tree }
{
    let _ = aff::make(buffer, writer, text, tree, 0, b"a");
    let _ = aff::make(buffer, writer, text, tree, 1, b"n");
}

// The put of -70.
fn put_number(
    buffer: &mut [u8],
    writer: &mut Writer,
    text: &[u8],
    tree: &mut [u8],
    allowance: usize,
) -> Result<usize, Refusal>
    ensures answer { answer_of result ≡ (step (state_of writer.old text.now tree.old buffer.old) (put 2 3 minus_seventy allowance)).answer }
    ensures record { writer.new ≡ (step (state_of writer.old text.now tree.old buffer.old) (put 2 3 minus_seventy allowance)).writer }
    ensures tree { tree.new ≡ (step (state_of writer.old text.now tree.old buffer.old) (put 2 3 minus_seventy allowance)).tree }
    ensures buffer { buffer.new ≡ apply_stores buffer.old (step (state_of writer.old text.now tree.old buffer.old) (put 2 3 minus_seventy allowance)).stores }
{
    let number = &[255, 255, 255, 186];
    aff::put(buffer, writer, text, tree, 2, 3, number, allowance)
}

// Put and close.
fn finish(buffer: &mut [u8], writer: &mut Writer, text: &[u8], tree: &mut [u8], allowance: usize)
    ensures { CutFrom (state_of writer.old text.now tree.old buffer.old) allowance last_calls buffer.new }
{
    let answer = put_number(buffer, writer, text, tree, allowance);
    let remaining = left(allowance, answer);
    let _ = aff::close(buffer, writer, text, tree, remaining);
}

// All calls after begin.
fn fill(buffer: &mut [u8], writer: &mut Writer, text: &mut [u8], tree: &mut [u8], allowance: usize)
    ensures { CutFrom (state_of writer.old text.old tree.old buffer.old) allowance (λ most. worked_calls most most) buffer.new }
{
    make_names(buffer, writer, text, tree);
    finish(buffer, writer, text, tree, allowance);
}

// The whole run, in edition 2.
fn write(buffer: &mut [u8], form: &[u8], text: &mut [u8], tree: &mut [u8], allowance: usize)
    ensures { CutRun buffer.old form.now text.old tree.old allowance buffer.new }
{
    let mut writer = Writer::none();
    let answer = aff::begin(2, buffer, form, text, tree, allowance, &mut writer);
    let rest = left(allowance, answer);
    fill(buffer, &mut writer, text, tree, rest);
}

// Opens a buffer with areas of its own.
fn reopen(buffer: &[u8], form: &[u8]) -> Result<Reader, Refusal>
    ensures { answer_of result ≡ open_answer buffer.now form.now string_limit node_limit }
{
    let mut strings = [0u32; 2048];
    let mut entries = [0u32; 2048];
    aff::open(buffer, form, &mut strings, &mut entries)
}

// Makes the worked file in a buffer of 214 bytes with a total allowance, and opens that buffer. The buffer is left as the run cut there leaves it,
// and the verdict is that of opening what it then holds: from a buffer of zeros, refused by 3 below 215, else opened.
pub fn drill(buffer: &mut [u8; 214], allowance: usize) -> Result<(), Refusal>
    ensures buffer { CutDrill buffer.old allowance buffer.new }
    ensures answer { answer_of result ≡ reopened buffer.new }
    ensures zeros { buffer.old ≡ replicate 214 0 → answer_of result ≡ drilled allowance }
{
    let mut text = [0u8; 32768];
    let mut tree = [0u8; 51200];
    let form = Edition::Two.number_form();
    write(buffer, &form, &mut text, &mut tree, allowance);
    reopen(buffer, &form)?;
    Ok(())
}
