// Strings and entries by the places that the two areas hold, whatever they hold.
ghost use Rattle.std.specs.Prelude.{◌≡◌, ◌+◌, ◌≤◌, length, get_or};
ghost use Rattle.aff_format.specs.Strings.{up_to_zero};
ghost use Rattle.aff_format.specs.Recorded.{found_entry, recorded_entry, name_from};
ghost use Rattle.aff_format.specs.Entry.{or_none};

use crate::entry::Entry;
use crate::kind::Kind;
use crate::{bytes, entry};

// Number i of an area; 0 after its end. Total, as `recorded_entry` is.
pub fn place(area: &[u32], i: usize) -> usize
    ensures { result ≡ get_or area.now i 0 }
{
    area.get(i).map_or(0, |&x| x as usize)
}

// The root's entry, which no file has.
const NO_ENTRY: Entry = Entry {
    kind: Kind::Void,
    parent: 0,
    string: 0,
    count: 0,
    offset: 0,
};

// The entry found, or the root's where none is. Total, as `recorded_entry` is.
pub fn or_none(found: Option<Entry>) -> Entry
    ensures { result ≡ or_none found }
{
    found.unwrap_or(NO_ENTRY)
}

// The entries of an image, by the places at which they are recorded, whatever these are: entry k, of node k, is at place k - 1.
#[derive(Clone, Copy, Debug, PartialEq, Eq)]
pub struct Entries<'a> {
    pub image: &'a [u8],
    pub places: &'a [u32],
}

impl Entries<'_> {
    ghost use Rattle.std.specs.Prelude.{◌≡◌, ◌≤◌};
    ghost use Rattle.aff_format.specs.Recorded.{found_entry, recorded_entry};

    // What the image has at the place recorded for the entry of a node that is not the root.
    pub fn found(&self, node: usize) -> Option<Entry>
        requires { 1 ≤ node }
        ensures { result ≡ found_entry self.now.image.now self.now.places.now node }
    {
        entry::entry_at(self.image, place(self.places, node - 1))
    }

    // The entry of a node; the root has none of its own.
    #[tactic(auto, unfolding(crate::specs::Recorded::recorded_entry))]
    pub fn entry(&self, node: usize) -> Entry
        ensures { result ≡ recorded_entry self.now.image.now self.now.places.now node }
    {
        if node == 0 {
            return NO_ENTRY;
        }
        or_none(self.found(node))
    }
}

// The string that some bytes begin with: up to its zero, or all of them. One pass over its bytes.
#[tactic(auto, using(crate::proofs::RecordedLaws::front_until_zero))]
pub fn until_zero<'a>(bytes: &'a [u8]) -> &'a [u8]
    ensures { result.now ≡ up_to_zero bytes.now }
{
    &bytes[..bytes::bytes_before(bytes, 0)]
}

// Where the string that begins at a place ends: at its zero, or at `end`. One pass over its bytes.
pub fn name_end(image: &[u8], from: usize, end: usize) -> usize
    requires ordered { from ≤ end }
    requires inside { end ≤ length image.now }
    ensures value { result ≡ from + length (name_from image.now end from) }
    ensures after { from ≤ result }
    ensures within { result ≤ end }
{
    from + bytes::bytes_before(&image[from..end], 0)
}
