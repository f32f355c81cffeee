// Whether a record belongs to what is passed with it (24). Linear in the text and the nodes.
ghost use Rattle.std.specs.Prelude.{◌≡◌, ◌+◌, ◌≤◌, ◌<◌, length};
ghost use Rattle.aff_format.specs.Limits.{image_limit, node_limit, text_area};
ghost use Rattle.aff_format.specs.Lowest.{lowest_from};
ghost use Rattle.aff_format.specs.Strings.{ends_in_zero};
ghost use Rattle.aff_format.specs.passes.Counts.{zeros_in};
ghost use Rattle.aff_areas.specs.Given.{of};
ghost use Rattle.aff_areas.specs.Belongs.{writer_sizes_belong, text_belongs, slot_lost, writer_node_lost, writer_nodes_belong, writer_belongs};

use crate::areas;
use crate::given::Given;
use crate::writer::Writer;
use aff_format::data::Bounds;
use aff_format::{Edition, Entry, limits};

// The buffer's length, the areas' sizes and the counts.
#[tactic(auto, unfolding(crate::specs::Belongs::writer_sizes_belong))]
fn sizes(given: &Given<'_>) -> bool
    ensures { result ≡ of given.now writer_sizes_belong }
{
    let writer = given.writer;
    given.size == writer.length
        && writer.length <= limits::IMAGE_LIMIT
        && given.text.len() == limits::TEXT_AREA
        && given.tree.len() == limits::TREE_AREA
        && writer.strings <= limits::STRING_LIMIT
        && writer.text <= limits::TEXT_AREA
        && writer.nodes <= limits::NODE_LIMIT
}

// How many bytes are zero. One pass.
#[tactic(auto, using(aff_format::proofs::StdLaws::zeros_in_is))]
fn zeros(bytes: &[u8]) -> usize
    ensures { result ≡ zeros_in bytes.now }
{
    bytes.iter().filter(|&&b| b == 0).count()
}

// Whether there is no byte, or the last is zero.
#[tactic(auto, using(aff_format::proofs::StringsLaws::ends_in_zero_none, aff_format::proofs::StringsLaws::ends_in_zero_last))]
fn ends_in_zero(bytes: &[u8]) -> bool
    ensures { result ≡ ends_in_zero bytes.now }
{
    bytes.last().is_none_or(|&b| b == 0)
}

// Whether the text area holds the recorded number of strings in the recorded length.
#[tactic(auto, using(aff_format::proofs::StringsLaws::strings_zeros), unfolding(crate::specs::Belongs::text_belongs))]
fn text_belongs(writer: &Writer, text: &[u8]) -> bool
    requires { writer.now.text ≤ length text.now }
    ensures { result ≡ text_belongs writer.now text.now }
{
    let used = &text[..writer.text];
    ends_in_zero(used) && zeros(used) == writer.strings
}

// Whether an entry is not one that node k may have, where there are so many strings, and data so far.
fn slot_lost(found: Option<Entry>, strings: usize, bounds: Bounds, k: usize) -> bool
    ensures { result ≡ slot_lost strings bounds.from bounds.size k found }
{
    match found {
        None => true,
        Some(entry) => {
            k as u64 <= entry.parent || strings <= entry.string as usize || bounds.misses(entry)
        }
    }
}

// The lowest node whose entry is not one that it may have. One entry read a node.
fn lost_node(tree: &[u8], nodes: usize, strings: usize, bounds: Bounds) -> Option<usize>
    requires { nodes ≤ node_limit }
    ensures { result ≡ lowest_from (writer_node_lost strings bounds.from bounds.size tree.now) nodes 1 }
{
    for k in 1..=nodes {
        if slot_lost(areas::found_slot(tree, k), strings, bounds, k) {
            return Some(k);
        }
    }
    None
}

// Whether the end of data, the nodes and the finished size belong. The end is bounded by the buffer before anything is added to it.
#[tactic(auto, using(crate::proofs::BelongsLaws::end_inside), unfolding(crate::specs::Belongs::writer_nodes_belong))]
fn nodes_belong(writer: &Writer, tree: &[u8]) -> bool
    requires length_allowed { writer.now.length ≤ image_limit }
    requires text_inside { writer.now.text ≤ text_area }
    requires few_nodes { writer.now.nodes ≤ node_limit }
    ensures { result ≡ writer_nodes_belong writer.now tree.now }
{
    let from = writer.data_place();
    if writer.end < from || writer.length < writer.end {
        return false;
    }
    let bounds = Bounds {
        from,
        size: writer.end - from,
    };
    lost_node(tree, writer.nodes, writer.strings, bounds).is_none()
        && areas::finished_size(writer, tree) <= writer.length
}

// Whether a record belongs to buffer and areas.
#[tactic(auto, using(crate::proofs::BelongsLaws::sizes_hold), unfolding(crate::specs::Belongs::writer_belongs))]
pub fn belongs(given: &Given<'_>) -> bool
    ensures { result ≡ of given.now writer_belongs }
{
    Edition::names_written(given.writer.edition)
        && sizes(given)
        && text_belongs(&given.writer, given.text)
        && nodes_belong(&given.writer, given.tree)
}
