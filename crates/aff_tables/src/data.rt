// The data of the nodes.
ghost use Rattle.std.specs.Prelude.{◌≡◌};
ghost use Rattle.aff_format.specs.Lowest.{lowest_from};
ghost use Rattle.aff_format.specs.Recorded.{recorded_entry};
ghost use Rattle.aff_tables.specs.Nodes.{data_outside};

use aff_format::data::Bounds;
use aff_format::recorded::Entries;

// 13: the lowest node whose data are not inside the bounds. One entry read a node.
#[tactic(auto, using(aff_format::proofs::StdLaws::lowest_met, aff_format::proofs::StdLaws::lowest_none))]
pub fn data_outside(entries: &Entries<'_>, nodes: usize, bounds: Bounds) -> Option<usize>
    ensures { result ≡ lowest_from (data_outside bounds.from bounds.size (recorded_entry entries.now.image.now entries.now.places.now)) nodes 1 }
{
    for k in 1..=nodes {
        if bounds.misses(entries.entry(k)) {
            return Some(k);
        }
    }
    None
}
