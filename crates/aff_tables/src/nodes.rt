// What is asked of the nodes, after the two tables. That they are at most 2,048 is a clause: it is a fact of one number, and a type for it would be no plainer.
ghost use Rattle.std.specs.Prelude.{◌≡◌, ◌≤◌};
ghost use Rattle.aff_format.specs.Answer.{first_wrong};
ghost use Rattle.aff_format.specs.Recorded.{recorded_entry, recorded_string};
ghost use Rattle.aff_format.specs.Verdict.{answer_of};
ghost use Rattle.aff_tables.specs.Nodes.{node_checks, recorded_contents};
ghost use Rattle.aff_tables.specs.passes.Climb.{ParentsExist};
ghost use Rattle.aff_tables.specs.passes.Results.{copied_checks, AllDistinct};

use crate::placed::Strings;
use crate::{climb, data, distinct, links};
use aff_format::data::Bounds;
use aff_format::recorded::Entries;
use aff_format::{Edition, Refusal};

// 11 to 13, with parents and string numbers copied; data may be within the bounds.
fn copied_checks(
    entries: &Entries<'_>,
    nodes: usize,
    bounds: Bounds,
    parents: &[u32; 2049],
    names: &[u32; 2049],
) -> Result<(), Refusal>
    requires { ParentsExist parents.now nodes }
    ensures { answer_of result ≡ first_wrong (copied_checks bounds.from bounds.size parents.now names.now nodes (recorded_entry entries.now.image.now entries.now.places.now)) tt }
{
    if let Some(k) = climb::climbs(parents, nodes) {
        return Err(Refusal::EndlessClimb(k));
    }
    if let Some(k) = distinct::repeated_sibling(parents, names, nodes) {
        return Err(Refusal::RepeatedName(k));
    }
    if let Some(k) = data::data_outside(entries, nodes, bounds) {
        return Err(Refusal::DataOutside(k));
    }
    Ok(())
}

// 10 to 13, of the nodes whose entries are at some places of the image of the strings; their data may be within the bounds.
// Parents and string numbers are copied into two arrays, not into one of pairs: `climbs`, which 24 uses too, takes parents alone.
pub fn node_checks(
    strings: &Strings<'_>,
    edition: Edition,
    entries: &[u32],
    nodes: usize,
    bounds: Bounds,
) -> Result<(), Refusal>
    requires distinct { AllDistinct strings.now.count (recorded_string strings.now.image.now strings.now.end strings.now.places.now) }
    requires few { nodes ≤ 2048 }
    ensures { answer_of result ≡ first_wrong (node_checks edition bounds.from bounds.size (recorded_contents strings.now.image.now strings.now.end strings.now.places.now strings.now.count entries.now nodes)) tt }
{
    let mut parents = [0u32; 2049];
    let mut names = [0u32; 2049];
    let recorded = Entries {
        image: strings.image,
        places: entries,
    };
    if let Some(k) = links::linked(strings, edition, entries, nodes, &mut parents, &mut names) {
        let place = links::name_break(strings, edition, recorded.entry(k));
        return Err(Refusal::BadLink(k, place));
    }
    copied_checks(&recorded, nodes, bounds, &parents, &names)
}
