// Strings and nodes so far, by what the record and the two areas say.
// `node ≤ node_limit`, `nodes ≤ node_limit` and `0 < node` stay clauses: they are facts of plain numbers, and a type for them would be no plainer.
// So is `length tree ≡ tree_area`: the area is lent, and 24 judges its length (`writer_sizes_belong`).
// The area is lent & here and &mut there, so it has no struct.
ghost use Rattle.std.specs.Prelude.{◌≡◌, cond, [], ◌∷◌, ◌++◌, ◌+◌, ◌*◌, ◌≤◌, ◌<◌, length, take, drop};
ghost use Rattle.aff_format.specs.Bytes.{spliced};
ghost use Rattle.aff_format.specs.Entry.{slot_bytes};
ghost use Rattle.aff_format.specs.Kind.{entry_size, is_void};
ghost use Rattle.aff_format.specs.Limits.{image_limit, node_limit, text_area, tree_area};
ghost use Rattle.aff_areas.specs.Areas.{slot_at, found_slot, slot_entry, entry_sizes, entries_out, data_nodes, finished_size};

use crate::writer::Writer;
use aff_format::{Edition, Entry, bytes, entry, recorded};

// The content of the slot of a node that is not the root. Not `Entries`: the place of a slot is computed, not recorded.
pub fn found_slot(tree: &[u8], node: usize) -> Option<Entry>
    requires above_root { 0 < node }
    requires in_limit { node ≤ node_limit }
    ensures { result ≡ found_slot tree.now node }
{
    entry::entry_at(tree, Edition::DATA_ENTRY * (node - 1))
}

// The entry of a node; the root has none of its own.
#[tactic(auto, unfolding(crate::specs::Areas::slot_entry))]
pub fn slot_entry(tree: &[u8], node: usize) -> Entry
    requires { node ≤ node_limit }
    ensures { result ≡ slot_entry tree.now node }
{
    if node == 0 {
        return recorded::or_none(None);
    }
    recorded::or_none(found_slot(tree, node))
}

// Bytes of a node's entry in a file.
fn entry_size(tree: &[u8], node: usize) -> usize
    requires { node ≤ node_limit }
    ensures value { result ≡ entry_size (slot_entry tree.now node).kind }
    ensures most { result ≤ 25 }
{
    slot_entry(tree, node).kind.entry_size()
}

// Bytes of the entries of the nodes in a file. One pass over the nodes.
#[tactic(auto, unfolding(crate::specs::Areas::entry_sizes))]
fn entry_sizes(tree: &[u8], nodes: usize) -> usize
    requires { nodes ≤ node_limit }
    ensures value { result ≡ entry_sizes tree.now nodes }
    ensures most { result ≤ 25 * nodes }
{
    let mut size = 0;
    for k in 1..=nodes {
        size += entry_size(tree, k);
    }
    size
}

// Finished size: header and data up to their end, text, entries.
#[tactic(auto, unfolding(crate::specs::Areas::finished_size))]
pub fn finished_size(writer: &Writer, tree: &[u8]) -> usize
    requires end_allowed { writer.now.end ≤ image_limit }
    requires text_inside { writer.now.text ≤ text_area }
    requires few_nodes { writer.now.nodes ≤ node_limit }
    ensures { result ≡ finished_size writer.now tree.now }
{
    writer.end + writer.text + entry_sizes(tree, writer.nodes)
}

// 1 for a node that is not Void, else 0.
fn one_with_data(tree: &[u8], node: usize) -> usize
    requires { node ≤ node_limit }
    ensures value { result ≡ cond (is_void (slot_entry tree.now node).kind) 0 1 }
    ensures most { result ≤ 1 }
{
    let kind = slot_entry(tree, node).kind;
    if kind.is_void() { 0 } else { 1 }
}

// How many nodes are not Void. One pass over the nodes.
#[tactic(auto, unfolding(crate::specs::Areas::data_nodes))]
pub fn data_nodes(tree: &[u8], nodes: usize) -> usize
    requires { nodes ≤ node_limit }
    ensures value { result ≡ data_nodes tree.now nodes }
    ensures most { result ≤ nodes }
{
    let mut count = 0;
    for k in 1..=nodes {
        count += one_with_data(tree, k);
    }
    count
}

// Puts a node's entry, as a file has it, into an area at a place. It answers where it ends.
fn put_entry(tree: &[u8], node: usize, at: usize, out: &mut [u8]) -> usize
    requires above_root { 0 < node }
    requires in_limit { node ≤ node_limit }
    requires tree_area_is { length tree.now ≡ tree_area }
    requires has_room { at + 25 ≤ length out.old }
    ensures size { result ≡ at + entry_size (slot_entry tree.now node).kind }
    ensures area { out.new ≡ spliced at (take (entry_size (slot_entry tree.now node).kind) (drop (slot_at node) tree.now)) out.old }
{
    let from = Edition::DATA_ENTRY * (node - 1);
    let end = from + entry_size(tree, node);
    bytes::put(out, at, &tree[from..end]);
    at + (end - from)
}

// The entries of the nodes as a file has them, at the front of an area of the tree area's size. It answers their bytes. One pass over the
// nodes.
#[tactic(auto, using(crate::proofs::AreaLaws::entries_next, crate::proofs::AreaLaws::length_entries_out_more, aff_format::proofs::BytesLaws::spliced_nil), unfolding(crate::specs::Areas::entries_out))]
pub fn entries_out(tree: &[u8], nodes: usize, out: &mut [u8]) -> usize
    requires in_limit { nodes ≤ node_limit }
    requires tree_area_is { length tree.now ≡ tree_area }
    requires out_area_is { length out.old ≡ tree_area }
    ensures size { result ≡ length (entries_out tree.now nodes) }
    ensures area { out.new ≡ spliced 0 (entries_out tree.now nodes) out.old }
{
    let mut at = 0;
    for k in 1..=nodes {
        at = put_entry(tree, k, at, out);
    }
    at
}

// Stores an entry in its slot.
pub fn put_slot(tree: &mut [u8], node: usize, entry: Entry)
    requires above_root { 0 < node }
    requires in_limit { node ≤ node_limit }
    requires tree_area_is { length tree.old ≡ tree_area }
    ensures { tree.new ≡ spliced (slot_at node) (slot_bytes entry) tree.old }
{
    bytes::put(tree, Edition::DATA_ENTRY * (node - 1), &entry.slot());
}

// Stores a name and its zero in the text area.
#[tactic(auto, using(crate::proofs::AreaLaws::name_stored))]
pub fn put_name(text: &mut [u8], at: usize, name: &[u8])
    requires { at + length name.now < length text.old }
    ensures { text.new ≡ spliced at (name.now ++ (0 ∷ [])) text.old }
{
    bytes::put(text, at, name);
    text[at + name.len()] = 0;
}
