// The symbol table.
ghost use Rattle.std.specs.Prelude.{◌≡◌, ℕ, ◌+◌, ◌≤◌, ◌<◌, length, take};
ghost use Rattle.aff_format.specs.Answer.{accepted};
ghost use Rattle.aff_format.specs.Bytes.{part, laid_over};
ghost use Rattle.aff_format.specs.Strings.{strings_of, places_of};
ghost use Rattle.aff_tables.specs.Tables.{names_at};
ghost use Rattle.aff_tables.specs.passes.Results.{split_of, counted_of, symbols_of};
ghost use Rattle.aff_format.specs.Verdict.{answer_of};

use crate::placed::Strings;
use crate::{counts, distinct};
use aff_format::{Edition, Refusal};

// Stores where each string of a section begins; the section begins at place `first` of the image. Bytes after the last zero are one more string.
// How many there are, or none where the area has too few places. One pass over the section.
fn split(section: &[u8], first: usize, places: &mut [u32]) -> Option<usize>
    requires { first + length section.now < 2147483648 }
    ensures value { result ≡ split_of (length places.old) (length (strings_of section.now)) }
    ensures places_after { places.new ≡ laid_over places.old (places_of first (strings_of section.now)) }
{
    let mut n = 0;
    let mut start = 0;
    for (at, &byte) in section.iter().enumerate() {
        if byte == 0 {
            // Here and at the end, tried: `*places.get_mut(n)? = ..`. It says of a slice only how long it is after the write.
            if places.len() <= n {
                return None;
            }
            places[n] = (first + start) as u32;
            n += 1;
            start = at + 1;
        }
    }
    if start == section.len() {
        return Some(n);
    }
    if places.len() <= n {
        return None;
    }
    places[n] = (first + start) as u32;
    Some(n + 1)
}

// After the split: the count, then equal strings.
fn counted(strings: &Strings<'_>, edition: Edition, records: u64) -> Result<usize, Refusal>
    ensures { result ≡ counted_of edition records (names_at strings.now.image.now strings.now.end (take strings.now.count strings.now.places.now)) strings.now.count }
{
    if counts::count_differs(edition, records, strings.count) {
        return Err(Refusal::WrongStringCount);
    }
    match distinct::repeated_string(strings) {
        Some(string) => Err(Refusal::RepeatedString(string)),
        None => Ok(strings.count),
    }
}

// The section comes by its place and not as a slice, here and in tree.rt: what is stored counts from the image's front.

// 25 to 27, of the symbol section, `size` bytes from `from` on, with the record count of its header: the table's first fault, or how many strings it
// has, with where each begins stored. The last string ends at its zero or, where it has none, at the section's end.
#[tactic(auto, using(crate::proofs::SymbolLaws::table_places))]
pub fn symbol_table(
    image: &[u8],
    edition: Edition,
    from: usize,
    size: usize,
    records: u64,
    places: &mut [u32],
) -> Result<usize, Refusal>
    requires inside { from + size ≤ length image.now }
    requires short { length image.now < 2147483648 }
    requires room { length places.old ≡ 2048 }
    ensures value { result ≡ symbols_of edition records (part from size image.now) }
    ensures stored { (n : ℕ) → answer_of result ≡ accepted n → places.new ≡ laid_over places.old (places_of from (strings_of (part from size image.now))) }
{
    let end = from + size;
    let count = split(&image[from..end], from, places).ok_or(Refusal::TooManyStrings)?;
    let strings = Strings {
        image,
        end,
        places,
        count,
    };
    counted(&strings, edition, records)
}
