// Whether a record belongs to what is passed with it (24). Linear in the strings and the nodes; strings are judged by their places alone.
ghost use Rattle.std.specs.Prelude.{◌≡◌, ◌+◌, ◌≤◌, ◌<◌, ◌||◌, leb, length, ltb, position, Some, None};
ghost use Rattle.aff_format.specs.Limits.{image_limit, node_limit};
ghost use Rattle.aff_format.specs.Lowest.{lowest_from};
ghost use Rattle.aff_reader.specs.Belongs.{reader_belongs as belongs_of, sizes_belong, span_inside, entry_lost, node_lost};
ghost use Rattle.aff_reader.specs.Opened.{of};
ghost use Rattle.aff_reader.specs.passes.Belongs.{sections_inside, nodes_belong, tables_belong, ParentsCopied};
ghost use Rattle.aff_format.specs.Recorded.{recorded_entry};

use crate::opened::Opened;
use crate::reader::{Reader, Span};
use aff_format::data::Bounds;
use aff_format::recorded::Entries;
use aff_format::{Edition, Entry, limits};
use aff_tables::climb;

// The image's length, the areas' sizes, the counts and the edition.
#[tactic(auto, unfolding(crate::specs::Belongs::sizes_belong))]
fn sizes(opened: &Opened<'_, '_>) -> bool
    ensures { result ≡ of opened.now sizes_belong }
{
    let reader = opened.reader;
    opened.image.len() == reader.length
        && reader.length <= limits::IMAGE_LIMIT
        && opened.strings.len() == limits::STRING_LIMIT
        && opened.entries.len() == limits::NODE_LIMIT
        && reader.strings <= limits::STRING_LIMIT
        && reader.nodes <= limits::NODE_LIMIT
        && Edition::exists(reader.edition)
}

// Whether a section lies inside the image. Offset and size are not added: the sum could wrap.
#[tactic(auto, unfolding(crate::specs::Belongs::span_inside))]
fn span_inside(image: &[u8], span: Span) -> bool
    ensures { result ≡ span_inside image.now span }
{
    span.offset <= image.len() && span.size <= image.len() - span.offset
}

#[tactic(auto, unfolding(crate::specs::passes::Belongs::sections_inside))]
fn sections_inside(image: &[u8], reader: &Reader) -> bool
    ensures { result ≡ sections_inside image.now reader.now }
{
    span_inside(image, reader.symbols)
        && span_inside(image, reader.tree)
        && span_inside(image, reader.data)
}

// The first string that does not begin inside the symbol section, from `from` to `end`. Two comparisons a string. A string ends at its zero or at the
// section's end.
fn lost_string(from: usize, end: usize, strings: &[u32]) -> Option<usize>
    ensures { result ≡ position (λ place. ltb place from || leb end place) strings.now }
{
    strings.iter().position(|&place| {
        let place = place as usize;
        place < from || end <= place
    })
}

// Whether an entry's parent or string does not exist, or its data fall outside the first `size` bytes.
fn entry_lost(entry: Entry, size: usize, strings: usize, nodes: usize) -> bool
    requires { size ≤ image_limit }
    ensures { result ≡ entry_lost size strings nodes (Some entry) }
{
    let image = Bounds { from: 0, size };
    (nodes as u64) < entry.parent || strings <= entry.string as usize || image.misses(entry)
}

// The lowest node whose entry is none or has such a fault; parents are copied on the way. One pass over the nodes.
fn lost_node(
    entries: &Entries<'_>,
    nodes: usize,
    strings: usize,
    parents: &mut [u32],
) -> Option<usize>
    requires image_length { length entries.now.image.now ≤ image_limit }
    requires few_nodes { nodes ≤ node_limit }
    requires space { nodes < length parents.old }
    ensures value { result ≡ lowest_from (node_lost entries.now.image.now strings nodes entries.now.places.now) nodes 1 }
    ensures parents_copied { result ≡ None → ParentsCopied (recorded_entry entries.now.image.now entries.now.places.now) nodes parents.new }
{
    for k in 1..=nodes {
        let Some(entry) = entries.found(k) else {
            return Some(k);
        };
        if entry_lost(entry, entries.image.len(), strings, nodes) {
            return Some(k);
        }
        parents[k] = entry.parent as u32;
    }
    None
}

// The entries, then the climbs.
#[tactic(auto, using(crate::proofs::BelongsLaws::climbs_decide, crate::proofs::BelongsLaws::nodes_linked), unfolding(crate::specs::passes::Belongs::nodes_belong))]
fn nodes_belong(entries: &Entries<'_>, reader: &Reader) -> bool
    requires image_length { length entries.now.image.now ≤ image_limit }
    requires few_nodes { reader.now.nodes ≤ node_limit }
    ensures { result ≡ nodes_belong entries.now.image.now reader.now entries.now.places.now }
{
    let mut parents = [0u32; 2049];
    lost_node(entries, reader.nodes, reader.strings, &mut parents).is_none()
        && climb::climbs(&parents, reader.nodes).is_none()
}

// The strings, then the nodes.
fn tables_belong(opened: &Opened<'_, '_>) -> bool
    requires image_length { length opened.now.image.now ≤ image_limit }
    requires few_strings { opened.now.reader.strings ≤ length opened.now.strings.now }
    requires few_nodes { opened.now.reader.nodes ≤ node_limit }
    requires symbols_inside { opened.now.reader.symbols.offset + opened.now.reader.symbols.size ≤ length opened.now.image.now }
    ensures { result ≡ of opened.now tables_belong }
{
    let reader = opened.reader;
    let symbols = reader.symbols;
    let end = symbols.offset + symbols.size;
    let entries = Entries {
        image: opened.image,
        places: opened.entries,
    };
    lost_string(symbols.offset, end, &opened.strings[..reader.strings]).is_none()
        && nodes_belong(&entries, &reader)
}

// 24: over all that is recorded, whatever the record and the areas hold. One pass over the strings, one over the nodes, and their climbs.
#[tactic(auto, using(crate::proofs::BelongsLaws::sizes_decide, crate::proofs::BelongsLaws::sections_decide, crate::proofs::BelongsLaws::tables_decide, crate::proofs::BelongsLaws::sizes_hold, crate::proofs::BelongsLaws::sections_hold))]
pub fn belongs(opened: &Opened<'_, '_>) -> bool
    ensures { result ≡ of opened.now belongs_of }
{
    sizes(opened) && sections_inside(opened.image, &opened.reader) && tables_belong(opened)
}
