// The programs `list` and `listall`, over a reader and a writer. Where the reader says which bytes it has left, and the writer which it holds, the contracts
// say that what is written is the text of what is read (`printed`). Standard input and output say neither.
ghost use Rattle.std.specs.Prelude.{◌≡◌, List, ℕ, ◌+◌, ◌⊎◌, ◌≤◌, ◌<◌, length, take, IfOk, IfSome, OnOk, OnErr};
ghost use Rattle.std.specs.Io.KnownBytes.{Appends, Consumes, Keeps};
ghost use Rattle.console.specs.Part.{AppendsPart, ConsumesPart, ConsumesAtMost};
ghost use Rattle.aff_listing.specs.declared.choice.Choice.{Choice};
ghost use Rattle.aff_list.specs.Lister.{input_limit, printed};

use crate::blocks::{self, First};
use aff_listing::Choice;
use aff_reader::Opened;
use std::io;
use std::io::{Read, Write};

// Prints the text of an input, block by block: each that is not empty by writes of its bytes. After an error its first bytes are printed, but not all.
pub fn print<W: Write>(out: &mut W, input: &[u8], choice: Choice) -> io::Result<()>
    ensures all { OnOk result (Appends (W.contents out.old) (W.contents out.new) (printed choice input.now)) }
    ensures cut { OnErr result (AppendsPart (W.contents out.old) (W.contents out.new) (printed choice input.now)) }
{
    let mut strings = [0u32; 2048];
    let mut entries = [0u32; 2048];
    let mut order = [0u32; 2049];
    let mut block = [0u8; 262164];
    let first = blocks::first_block(
        input,
        choice,
        &mut strings,
        &mut entries,
        &mut order,
        &mut block,
    );
    let First {
        reader,
        lines,
        used,
        mut next,
    } = first;
    console::text(out, &block[..used])?;
    let opened = Opened {
        image: input,
        reader,
        strings: &strings,
        entries: &entries,
    };
    // A loop: it goes from block to block, and counts no index.
    while next < lines {
        let filled = blocks::fill(&opened, &order[..lines], next, &mut block);
        console::text(out, &block[..filled.used])?;
        next = filled.next;
    }
    Ok(())
}

// Reads an input to its end, or until the buffer is full, and returns the number of bytes. A buffer above the limit shows that an input is too
// long, and no more of it decides (`front` of `Printing`). After an error the bytes that the input has lost are the first of the buffer.
fn read_input<R: Read>(input: &mut R, buffer: &mut [u8]) -> io::Result<usize>
    requires { input_limit < length buffer.old }
    ensures inside { IfOk result (λ n. n ≤ length buffer.new) }
    ensures bytes { IfOk result (λ n. Consumes (R.remaining input.old) (R.remaining input.new) (take n buffer.new)) }
    ensures decides { IfOk result (λ n. IfSome (R.remaining input.old) (λ xs. (choice : Choice) → printed choice (take n buffer.new) ≡ printed choice xs)) }
    ensures cut { OnErr result (ConsumesPart (R.remaining input.old) (R.remaining input.new) buffer.new) }
{
    let size = console::read_full(input, buffer)?;
    Ok(size)
}

// Reads an input and prints its text: a line for each node that the choice lists, in listing order; or the line `refused N P`; or, for an input
// above 65,536 bytes, `too long`. After an error nothing is printed, or the first bytes of this text, but not all. Whether it succeeds or not,
// the input has lost at most 65,537 bytes, all from its front.
pub fn run<R: Read, W: Write>(input: &mut R, out: &mut W, choice: Choice) -> io::Result<()>
    ensures all { OnOk result (IfSome (R.remaining input.old) (λ xs. Appends (W.contents out.old) (W.contents out.new) (printed choice xs))) }
    ensures cut { OnErr result (IfSome (R.remaining input.old) (λ xs. Keeps (W.contents out.old) (W.contents out.new)
        ⊎ AppendsPart (W.contents out.old) (W.contents out.new) (printed choice xs))) }
    ensures reads { ConsumesAtMost (R.remaining input.old) (R.remaining input.new) (input_limit + 1) }
{
    let mut buffer = [0u8; 65537];
    let size = read_input(input, &mut buffer)?;
    print(out, &buffer[..size], choice)
}
