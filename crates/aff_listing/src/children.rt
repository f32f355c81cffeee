// The children of each node of a record that belongs, in number order.
ghost use Rattle.std.specs.Prelude.{◌+◌, ◌≤◌, ◌<◌};
ghost use Rattle.aff_listing.specs.passes.Children.{ChildTables, NextChild, parent_of};

use crate::links::Links;
use aff_reader::Belonging;

// A record that belongs, and the links of all its nodes.
#[derive(Clone, Copy, Debug, PartialEq, Eq)]
pub struct Children<'i, 'a> {
    pub belonging: Belonging<'i, 'a>,
    pub links: &'a [Links; 2049],
    pub ghost tables: { ChildTables (parent_of belonging.opened) belonging.opened.reader.nodes 1 links.now },
}

impl Children<'_, '_> {
    // The lowest child of a node; nodes + 1 where there is none.
    #[tactic(auto, using(aff_reader::proofs::BelongsLaws::nodes_few))]
    pub fn first(&self, node: usize) -> usize
        requires { node ≤ self.now.belonging.opened.reader.nodes }
        ensures { NextChild (parent_of self.now.belonging.opened) self.now.belonging.opened.reader.nodes node 1 result }
    {
        self.links[node].first as usize
    }

    // The next child of the parent of node k; nodes + 1 where there is none.
    #[tactic(auto, using(aff_reader::proofs::BelongsLaws::nodes_few))]
    pub fn after(&self, k: usize) -> usize
        requires some { 0 < k }
        requires exists { k ≤ self.now.belonging.opened.reader.nodes }
        ensures { NextChild (parent_of self.now.belonging.opened) self.now.belonging.opened.reader.nodes (parent_of self.now.belonging.opened k) (k + 1) result }
    {
        self.links[k].next as usize
    }
}
