// Tree entries.
ghost use Rattle.std.specs.Prelude.{◌≡◌, ◌+◌, ◌≤◌, length, drop};
ghost use Rattle.aff_format.specs.Kind.{entry_size};
ghost use Rattle.aff_format.specs.Bytes.{spliced};
ghost use Rattle.aff_format.specs.Number.{be_bytes};
ghost use Rattle.aff_format.specs.Entry.{fields_of, entry_of, slot_bytes};

use crate::edition::Edition;
use crate::kind::Kind;
use crate::number;

// A node's entry in the tree table: its kind, its parent's number, its string's number, and of one that is not Void the count of its
// elements and the place of its data; 0 for a Void one.
#[derive(Clone, Copy, Debug, PartialEq, Eq)]
pub struct Entry {
    pub kind: Kind,
    pub parent: u64,
    pub string: u32,
    pub count: u32,
    pub offset: u64,
}

fn fields(kind: Kind, bytes: &[u8], at: usize) -> Entry
    requires { at + entry_size kind ≤ length bytes.now }
    ensures { result ≡ fields_of kind (drop at bytes.now) }
{
    let void = Entry {
        kind,
        parent: number::be::<8>(bytes, at + 1),
        string: number::be::<4>(bytes, at + 9) as u32,
        count: 0,
        offset: 0,
    };
    if kind.is_void() {
        return void;
    }
    Entry {
        count: number::be::<4>(bytes, at + 13) as u32,
        offset: number::be::<8>(bytes, at + 17),
        ..void
    }
}

// The entry in a run of bytes at a place.
#[tactic(auto, unfolding(crate::specs::Entry::entry_of))]
pub fn entry_at(bytes: &[u8], at: usize) -> Option<Entry>
    ensures { result ≡ entry_of (drop at bytes.now) }
{
    let &code = bytes.get(at)?;
    let kind = Kind::from_code(u64::from(code))?;
    if bytes.len() - at < kind.entry_size() {
        return None;
    }
    Some(fields(kind, bytes, at))
}

// Writes count and data offset into a slot.
fn put_data(slot: &mut [u8], count: u64, offset: u64)
    requires { 25 ≤ length slot.old }
    ensures { slot.new ≡ spliced 17 (be_bytes 8 offset) (spliced 13 (be_bytes 4 count) slot.old) }
{
    number::put_be(slot, 13, 4, count);
    number::put_be(slot, 17, 8, offset);
}

impl Entry {
    // The 25 bytes of the entry in the writer's tree area; the first 13, or all, are its bytes in a file.
    pub fn slot(self) -> [u8; Edition::DATA_ENTRY]
        ensures { result ≡ slot_bytes self }
    {
        let mut out = [0u8; Edition::DATA_ENTRY];
        out[0] = self.kind.code();
        number::put_be(&mut out, 1, 8, self.parent);
        number::put_be(&mut out, 9, 4, u64::from(self.string));
        if self.kind.is_void() {
            return out;
        }
        put_data(&mut out, u64::from(self.count), self.offset);
        out
    }
}
