// A record that belongs to what is passed with it.
ghost use Rattle.std.specs.Prelude.{◌≡◌, true};
ghost use Rattle.aff_reader.specs.Belongs.{reader_belongs};
ghost use Rattle.aff_reader.specs.Opened.{of};

use crate::opened::Opened;
use aff_format::Entry;
use aff_format::recorded::Entries;

// What a call has that has judged the record (24).
// A node that exists has no struct of its own: along a climb the number moves, and each step would build it again with its proof. So that a node
// exists is a clause.
#[derive(Clone, Copy, Debug, PartialEq, Eq)]
pub struct Belonging<'i, 'a> {
    pub opened: Opened<'i, 'a>,
    pub ghost belongs: { of opened reader_belongs ≡ true },
}

impl Belonging<'_, '_> {
    ghost use Rattle.std.specs.Prelude.{◌+◌};
    ghost use Rattle.aff_reader.specs.Opened.{opened_entry};

    // The entry of a node; the root has none of its own.
    pub fn entry(&self, node: usize) -> Entry
        ensures { result ≡ opened_entry self.now.opened node }
    {
        let entries = Entries {
            image: self.opened.image,
            places: self.opened.entries,
        };
        entries.entry(node)
    }

    // The parent of a node; the root is its own.
    pub fn parent(&self, node: usize) -> usize
        ensures { result ≡ (opened_entry self.now.opened node).parent }
    {
        self.entry(node).parent as usize
    }

    // Where the symbol section ends.
    #[tactic(auto, using(crate::proofs::BelongsLaws::symbols_within, crate::proofs::BelongsLaws::image_short))]
    pub fn symbols_end(&self) -> usize
        ensures { result ≡ self.now.opened.reader.symbols.offset + self.now.opened.reader.symbols.size }
    {
        let symbols = self.opened.reader.symbols;
        symbols.offset + symbols.size
    }
}
