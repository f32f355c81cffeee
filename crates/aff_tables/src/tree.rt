// The tree table.
ghost use Rattle.std.specs.Prelude.{◌≡◌, ℕ, ◌+◌, ◌^◌, ◌≤◌, ◌<◌, length, drop};
ghost use Rattle.aff_format.specs.Answer.{accepted, first_wrong};
ghost use Rattle.aff_format.specs.Bytes.{part, laid_over};
ghost use Rattle.aff_tables.specs.Tables.{entries_in, bytes_after_entries, entry_places, entries_of, tree_checks};
ghost use Rattle.aff_tables.specs.passes.Results.{walk_of};
ghost use Rattle.aff_format.specs.Verdict.{answer_of};

use crate::counts;
use aff_format::{Edition, Refusal, entry};

// After n whole entries, which end at a place: how many they are, where they are the whole section; else the next one is broken.
fn ended(section: &[u8], at: usize, n: usize) -> Result<usize, Refusal>
    requires within { at ≤ length section.now }
    requires fits { n + 1 < 2 ^ 64 }
    ensures { result ≡ walk_of n (drop at section.now) }
{
    if at == section.len() {
        Ok(n)
    } else {
        Err(Refusal::BadTreeTable(n + 1))
    }
}

// Stores where each entry of a section begins; the section begins at place `first` of the image. How many whole entries there are, or the first that
// is not. At most as many turns as the area has places.
fn walk(section: &[u8], first: usize, places: &mut [u32]) -> Result<usize, Refusal>
    requires { first + length section.now < 2147483648 }
    ensures value { result ≡ walk_of (length (entries_in (length places.old) section.now)) (bytes_after_entries (length places.old) section.now) }
    ensures places_after { places.new ≡ laid_over places.old (entry_places first (entries_in (length places.old) section.now)) }
{
    let mut at = 0;
    for n in 0..places.len() {
        let Some(found) = entry::entry_at(section, at) else {
            return ended(section, at, n);
        };
        places[n] = (first + at) as u32;
        at += found.kind.entry_size();
    }
    ended(section, at, places.len())
}

// 9, of the tree section, `size` bytes from `from` on, with the record count of its header: an entry's fault before the count's; or how many nodes
// there are, with where each entry begins stored.
pub fn tree_table(
    image: &[u8],
    edition: Edition,
    from: usize,
    size: usize,
    records: u64,
    places: &mut [u32],
) -> Result<usize, Refusal>
    requires inside { from + size ≤ length image.now }
    requires short { length image.now < 2147483648 }
    requires room { length places.old ≡ 2048 }
    ensures value { answer_of result ≡ first_wrong (tree_checks edition records (part from size image.now)) (length (entries_of (part from size image.now))) }
    ensures stored { (n : ℕ) → answer_of result ≡ accepted n → places.new ≡ laid_over places.old (entry_places from (entries_of (part from size image.now))) }
{
    let end = from + size;
    let nodes = walk(&image[from..end], from, places)?;
    if counts::count_differs(edition, records, nodes) {
        return Err(Refusal::BadTreeTable(0));
    }
    Ok(nodes)
}
