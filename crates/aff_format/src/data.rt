// Where an entry's data are.
ghost use Rattle.std.specs.Prelude.{◌≡◌, ◌+◌, ◌<◌};
ghost use Rattle.aff_format.specs.Entry.{outside};

use crate::entry::Entry;

// Where data may be: `size` bytes from `from` on, below the longest image's end.
// No `Span` of aff_reader: that of a record may have no bound (24).
#[derive(Clone, Copy, Debug, PartialEq, Eq)]
pub struct Bounds {
    pub from: usize,
    pub size: usize,
    pub ghost small: { from + size < 2147483648 },
}

impl Bounds {
    ghost use Rattle.std.specs.Prelude.{◌≡◌};
    ghost use Rattle.aff_format.specs.Entry.{outside};

    // Whether an entry's data are not inside. The offset is added to nothing: the sum could wrap.
    #[tactic(auto, unfolding(crate::specs::Entry::outside))]
    pub fn misses(self, entry: Entry) -> bool
        ensures { result ≡ outside self.from self.size entry }
    {
        if entry.kind.is_void() {
            return false;
        }
        let first = self.from as u64;
        let end = (self.from + self.size) as u64;
        if entry.offset < first || end < entry.offset {
            return true;
        }
        let bytes = u64::from(entry.count) * entry.kind.element_size() as u64;
        end - entry.offset < bytes
    }
}
