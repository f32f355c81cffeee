// The lowest child of each node, and the next sibling of each, of a record that belongs.
ghost use Rattle.std.specs.Prelude.{◌+◌, ◌≤◌, ◌<◌};
ghost use Rattle.aff_listing.specs.passes.Children.{ChildTables, parent_of};

use aff_reader::Belonging;

// Of a node: its lowest child, and the next child of its parent; nodes + 1 where there is none.
// No heap, so links are numbers; nodes + 1 and no Option for none: four bytes a link, on the stack.
#[derive(Clone, Copy, Debug, PartialEq, Eq, Default)]
pub struct Links {
    pub first: u32,
    pub next: u32,
}

// Puts node k before the children of its parent that have higher numbers.
#[tactic(auto, using(aff_reader::proofs::BelongsLaws::nodes_few, crate::proofs::ChildLaws::parent_exists))]
fn link(belonging: &Belonging<'_, '_>, k: usize, links: &mut [Links; 2049])
    requires some { 0 < k }
    requires exists { k ≤ belonging.now.opened.reader.nodes }
    requires tables { ChildTables (parent_of belonging.now.opened) belonging.now.opened.reader.nodes (k + 1) links.old }
    ensures { ChildTables (parent_of belonging.now.opened) belonging.now.opened.reader.nodes k links.new }
{
    let p = belonging.parent(k);
    links[k].next = links[p].first;
    links[p].first = k as u32;
}

// Fills the links of the nodes that there are, and of no others, then links all nodes, from the highest number down: two stores a node.
#[tactic(auto, using(aff_reader::proofs::BelongsLaws::nodes_few))]
pub fn link_all(belonging: &Belonging<'_, '_>, links: &mut [Links; 2049])
    ensures { ChildTables (parent_of belonging.now.opened) belonging.now.opened.reader.nodes 1 links.new }
{
    let nodes = belonging.opened.reader.nodes;
    links[..=nodes].fill(Links {
        first: nodes as u32 + 1,
        next: 0,
    });
    for k in (1..=nodes).rev() {
        link(belonging, k, links);
    }
}
