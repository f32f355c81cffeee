// Listing order: the nodes that a choice lists; each node before its children, and these in number order, each followed by its whole subtree.
ghost use Rattle.std.specs.Prelude.{◌≡◌, [], ◌∷◌, ◌+◌, ◌≤◌, ◌<◌, count_by, length, take};
ghost use Rattle.std.specs.List.{range_with_len};
ghost use Rattle.aff_format.specs.Answer.{accepted};
ghost use Rattle.aff_reader.specs.Opened.{of};
ghost use Rattle.aff_format.specs.Verdict.{answer_of};
ghost use Rattle.aff_read.specs.Paths.{front_written};
ghost use Rattle.aff_listing.specs.ListingOrder.{own, kept, kept_below, listing_order, listed_count, listing_answer};
ghost use Rattle.aff_listing.specs.declared.choice.Choice.TheVariants.{AllNodes};
ghost use Rattle.aff_listing.specs.passes.Children.{subtree, subtrees};
ghost use Rattle.aff_listing.specs.passes.Listed.{listed};
ghost use Rattle.aff_format.specs.passes.Written.{Written};

use crate::children::Children;
use crate::choice::Choice;
use crate::links::{self, Links};
use aff_format::Refusal;
use aff_reader::{Belonging, Opened};

// The nodes that a choice lists, of a record that belongs.
#[derive(Clone, Copy, Debug, PartialEq, Eq)]
struct Listed<'b, 'i, 'a> {
    belonging: &'b Belonging<'i, 'a>,
    choice: Choice,
}

impl Listed<'_, '_, '_> {
    // Whether a node is one of them.
    fn has(&self, node: usize) -> bool
        ensures { result ≡ listed self.now node }
    {
        self.choice.lists(self.belonging.entry(node).kind)
    }

    // How many of them are numbered below `end`. One pass over these numbers.
    fn count_below(&self, end: usize) -> usize
        ensures { result ≡ count_by (listed self.now) (range_with_len 0 end) }
    {
        (0..end).filter(|&node| self.has(node)).count()
    }

    // How many they are.
    #[tactic(auto, using(aff_reader::proofs::BelongsLaws::nodes_few, crate::proofs::KeptLaws::kept_below_is))]
    fn count(&self) -> usize
        ensures { result ≡ of self.now.belonging.now.opened listed_count self.now.choice }
    {
        self.count_below(self.belonging.opened.reader.nodes + 1)
    }

    // Stores a node's number where it is listed, and returns the place after it.
    #[tactic(auto, using(aff_format::proofs::WrittenLaws::written_one, aff_format::proofs::WrittenLaws::written_none), unfolding(crate::specs::ListingOrder::own))]
    fn put(&self, node: u32, at: usize, out: &mut [u32]) -> usize
        requires { at + length (own (listed self.now) node) ≤ length out.old }
        ensures { Written at (own (listed self.now) node) out.old out.new result }
    {
        if self.has(node as usize) {
            out[at] = node;
            return at + 1;
        }
        at
    }

    // Stores those of an order at the front of an output, without the other nodes. Returns how many it stored. One pass over the order.
    #[tactic(auto, using(aff_format::proofs::WrittenLaws::written_none), unfolding(crate::specs::ListingOrder::kept))]
    fn put_all(&self, order: &[u32], out: &mut [u32]) -> usize
        requires { length (kept (listed self.now) order.now) ≤ length out.old }
        ensures { Written 0 (kept (listed self.now) order.now) out.old out.new result }
    {
        let mut end = 0;
        for &node in order {
            end = self.put(node, end, out);
        }
        end
    }
}

// Stores a node's number, and returns the place after it.
#[tactic(auto, using(aff_format::proofs::WrittenLaws::written_one))]
fn put_number(node: usize, at: usize, out: &mut [u32]) -> usize
    requires narrow { node < 4294967296 }
    requires space { at < length out.old }
    ensures { Written at (node ∷ []) out.old out.new result }
{
    out[at] = node as u32;
    at + 1
}

// Stores a node and its subtree from a place on, at most `depth` levels, and returns where they end. It calls the loop over the node's children, which
// calls it for each of them: remaining depth and children fall.
#[cycle(list_children_list_node)]
#[tactic(auto, using(aff_reader::proofs::BelongsLaws::nodes_few, crate::proofs::ListingLaws::preorder_ended, crate::proofs::ListingLaws::below_fits, aff_format::proofs::WrittenLaws::written_none))]
fn list_node(
    children: &Children<'_, '_>,
    node: usize,
    depth: usize,
    at: usize,
    order: &mut [u32; 2049],
) -> usize
    requires node_exists { node ≤ children.now.belonging.opened.reader.nodes }
    requires fits { at + length (subtree children.now.belonging.opened depth node) ≤ length order.old }
    ensures { Written at (subtree children.now.belonging.opened depth node) order.old order.new result }
{
    if depth == 0 {
        return at;
    }
    let end = put_number(node, at, order);
    list_children(children, node, depth - 1, end, order)
}

// Stores the subtrees of a node's children, in number order. One step a child, besides the subtrees.
#[cycle(list_children_list_node)]
fn list_children(
    children: &Children<'_, '_>,
    node: usize,
    depth: usize,
    at: usize,
    order: &mut [u32; 2049],
) -> usize
    requires node_exists { node ≤ children.now.belonging.opened.reader.nodes }
    requires fits { at + length (subtrees children.now.belonging.opened depth node (children.now.belonging.opened.reader.nodes + 1)) ≤ length order.old }
    ensures { Written at (subtrees children.now.belonging.opened depth node (children.now.belonging.opened.reader.nodes + 1)) order.old order.new result }
{
    let nodes = children.belonging.opened.reader.nodes;
    let mut end = at;
    let mut k = children.first(node);
    // It follows siblings and counts no index, so no `for` fits.
    while k <= nodes {
        end = list_node(children, k, depth, end, order);
        k = children.after(k);
    }
    end
}

// Makes the order of all nodes by links made once. Returns how many they are.
#[tactic(auto, using(crate::proofs::ListedLaws::all_fits))]
fn full_order(belonging: &Belonging<'_, '_>, order: &mut [u32; 2049]) -> usize
    ensures { Written 0 (of belonging.now.opened listing_order AllNodes) order.old order.new result }
{
    let nodes = belonging.opened.reader.nodes;
    let mut links = [Links::default(); 2049];
    links::link_all(belonging, &mut links);
    let children = Children {
        belonging: *belonging,
        links: &links,
    };
    list_node(&children, 0, nodes + 1, 0, order)
}

// Writes the nodes that a choice lists, in listing order, at the front of an output with a place for each. Returns how many they are. A few passes over the
// nodes: the order of all nodes is made in a table, then those listed are stored. Recursion depth is the number of levels of the tree, at most 2,049, and
// a level takes 48 bytes as compiled for x86-64: with an order of 8,196 bytes and links of 16,392 about 123,500 bytes of stack.
pub fn listing_of(belonging: &Belonging<'_, '_>, choice: Choice, out: &mut [u32]) -> usize
    requires { of belonging.now.opened listed_count choice ≤ length out.old }
    ensures answer { result ≡ of belonging.now.opened listed_count choice }
    ensures output { out.new ≡ front_written (accepted result) (of belonging.now.opened listing_order choice) out.old }
{
    let mut order = [0u32; 2049];
    let count = full_order(belonging, &mut order);
    let listed = Listed { belonging, choice };
    listed.put_all(&order[..count], out)
}

// Writes the numbers of the nodes that a choice lists, in listing order, at the front of an output; the rest of it stays: 24, 21. Returns how many it
// wrote.
#[tactic(auto, unfolding(crate::specs::ListingOrder::listing_answer))]
pub fn listing(opened: &Opened<'_, '_>, choice: Choice, out: &mut [u32]) -> Result<usize, Refusal>
    ensures answer { answer_of result ≡ of opened.now listing_answer choice (length out.old) }
    ensures output { out.new ≡ front_written (answer_of result) (of opened.now listing_order choice) out.old }
{
    let belonging = &opened.judge()?;
    if out.len() < (Listed { belonging, choice }).count() {
        return Err(Refusal::BufferTooSmall);
    }
    Ok(listing_of(belonging, choice, out))
}
