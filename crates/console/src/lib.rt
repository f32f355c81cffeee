// What the programs share: text, refusals and elements to a writer, and bytes and images from a reader. Where the writer says what it holds, and the reader
// what it has left, the contracts say what is written and what is read; standard output and input say neither. `real` and `element` have no
// contract: nothing is proved of how a double or an element is written. After an error the contracts say what the reader has lost. Of the
// writer only those of `text` and `front` say anything then: that the first of their bytes were written, maybe none, but not all.
#![tactic(auto)]

ghost use Rattle.std.specs.Prelude.{◌≡◌, List, ℕ, ◌∷◌, ◌++◌, ◌+◌, ◌<◌, ◌≤◌, length, take, IfOk, IfSome, OnOk, OnErr};
ghost use Rattle.std.specs.Fmt.{decimal};
ghost use Rattle.std.specs.Io.KnownBytes.{Appends, Consumes, IsAtEnd};
ghost use Rattle.console.specs.Part.{AppendsPart, ConsumesPart, ConsumesAtMost};
ghost use Rattle.aff_format.specs.Number.{be_of};
ghost use Rattle.aff_format.specs.Refusal.{refused_text, second_of};

use aff_format::{Element, ElementAnswer, Refusal, number};
use std::io;
use std::io::{Read, Write};

// Writes all the bytes. After an error the writer holds the first of them besides, maybe none, but not all.
pub fn text<W: Write>(out: &mut W, bytes: &[u8]) -> io::Result<()>
    ensures all { OnOk result (Appends (W.contents out.old) (W.contents out.new) bytes.now) }
    ensures cut { OnErr result (AppendsPart (W.contents out.old) (W.contents out.new) bytes.now) }
{
    // A loop: std's `write_all` promises nothing of the bytes written before an error, and clause `cut` does.
    let mut done = 0;
    while done < bytes.len() {
        match out.write(&bytes[done..])? {
            0 => return Err(io::Error::from(io::ErrorKind::WriteZero)),
            n => done += n,
        }
    }
    Ok(())
}

// The first bytes of a run; nothing where it has fewer. A size and no slice: callers prove nothing of it, and clause `cut` holds of any.
pub fn front<W: Write>(out: &mut W, bytes: &[u8], size: usize) -> io::Result<()>
    ensures all { OnOk result (size ≤ length bytes.now → Appends (W.contents out.old) (W.contents out.new) (take size bytes.now)) }
    ensures cut { OnErr result (AppendsPart (W.contents out.old) (W.contents out.new) (take size bytes.now)) }
{
    match bytes.get(..size) {
        Some(part) => text(out, part),
        None => Ok(()),
    }
}

// `refused N P S`; S is the second number, 0 for every number but 10.
pub fn refusal_in_full<W: Write>(out: &mut W, why: Refusal) -> io::Result<()>
    ensures { OnOk result (Appends (W.contents out.old) (W.contents out.new) (refused_text why ++ (32 ∷ decimal (second_of why)))) }
{
    let second = why.second_place();
    write!(out, "{why} {second}")
}

// A double by its bits in hexadecimal. The bits of a NaN are not those of the file.
pub fn real<W: Write>(out: &mut W, x: f64) -> io::Result<()> {
    if x.is_nan() {
        return write!(out, "nan");
    }
    let bits = x.to_bits();
    write!(out, "{bits:016x}")
}

// An element, or the refusal, after a space. No Display of `Element`: the bits of a double are the tests' form.
pub fn element<W: Write>(out: &mut W, answer: ElementAnswer) -> io::Result<()> {
    write!(out, " ")?;
    match answer {
        Ok(Element::Byte(n)) => write!(out, "{n}"),
        Ok(Element::Int(n)) => write!(out, "{n}"),
        Ok(Element::Real(x)) => real(out, x),
        Ok(Element::Pair(x, y)) => {
            real(out, x)?;
            write!(out, ",")?;
            real(out, y)
        }
        Err(why) => write!(out, "{why}"),
    }
}

// Fills an area from its front, as far as the input goes, and returns how many bytes there were. After an error the bytes that the input has lost are the
// first of the area.
pub fn read_full<R: Read>(input: &mut R, area: &mut [u8]) -> io::Result<usize>
    ensures inside { IfOk result (λ n. n ≤ length area.new) }
    ensures bytes { IfOk result (λ n. Consumes (R.remaining input.old) (R.remaining input.new) (take n area.new)) }
    ensures end { IfOk result (λ n. n < length area.new → IsAtEnd (R.remaining input.new)) }
    ensures cut { OnErr result (ConsumesPart (R.remaining input.old) (R.remaining input.new) area.new) }
{
    // A loop: std has no reader into lent memory whose contract says what an error leaves (clause `cut`).
    let mut done = 0;
    while done < area.len() {
        let n = input.read(&mut area[done..])?;
        if n == 0 {
            break;
        }
        done += n;
    }
    Ok(done)
}

// The length of the next image, which comes before it in 4 bytes; None where the input ends, and where it is above a limit. After an error the input has
// lost at most 4 bytes, all from its front.
pub fn next_size<R: Read>(input: &mut R, limit: usize) -> io::Result<Option<usize>>
    ensures inside { IfOk result (λ next. IfSome next (λ size. size ≤ limit)) }
    ensures bytes { IfOk result (λ next. IfSome next (λ size. (head : List ℕ) × (length head ≡ 4) × (be_of head ≡ size)
        × Consumes (R.remaining input.old) (R.remaining input.new) head)) }
    ensures cut { OnErr result (ConsumesAtMost (R.remaining input.old) (R.remaining input.new) 4) }
{
    let mut head = [0u8; 4];
    if read_full(input, &mut head)? < 4 {
        return Ok(None);
    }
    let size = number::be::<4>(&head, 0) as usize;
    if limit < size {
        return Ok(None);
    }
    Ok(Some(size))
}

// Reads the next image of an input, which comes after its length in 4 bytes, into the front of an area; None where there is none. After an error the input
// has lost bytes from its front alone, at most 4 more than the area holds.
pub fn next_image<R: Read>(input: &mut R, area: &mut [u8]) -> io::Result<Option<usize>>
    ensures inside { IfOk result (λ next. IfSome next (λ size. size ≤ length area.new)) }
    ensures bytes { IfOk result (λ next. IfSome next (λ size. (head : List ℕ) × (length head ≡ 4) × (be_of head ≡ size)
        × Consumes (R.remaining input.old) (R.remaining input.new) (head ++ take size area.new))) }
    ensures cut { OnErr result (ConsumesAtMost (R.remaining input.old) (R.remaining input.new) (4 + length area.new)) }
{
    let Some(size) = next_size(input, area.len())? else {
        return Ok(None);
    };
    if read_full(input, &mut area[..size])? < size {
        return Ok(None);
    }
    Ok(Some(size))
}
