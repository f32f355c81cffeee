// Parents, strings and names of the nodes.
ghost use Rattle.std.specs.Prelude.{◌≡◌, ◌≤◌, None};
ghost use Rattle.aff_format.specs.Lowest.{lowest_from};
ghost use Rattle.aff_format.specs.Recorded.{recorded_entry, recorded_string};
ghost use Rattle.aff_format.specs.Subkey.{subkey_from, break_place, is_subkey};
ghost use Rattle.aff_tables.specs.Nodes.{link_wrong, name_break, recorded_contents};
ghost use Rattle.aff_tables.specs.passes.Results.{Judged, link_bad, Copied};

use crate::placed::Strings;
use aff_format::recorded::Entries;
use aff_format::{Edition, Entry, subkey};

// Whether a name is a subkey.
fn judged(edition: Edition, name: &[u8]) -> bool
    ensures { result ≡ is_subkey edition name.now }
{
    subkey::subkey(edition, name).is_none()
}

// Judges each string once: one pass over its bytes.
fn judge(strings: &Strings<'_>, edition: Edition, sound: &mut [bool; 2048])
    ensures { Judged edition strings.now.image.now strings.now.end strings.now.places.now strings.now.count sound.new }
{
    for i in 0..strings.count {
        sound[i] = judged(edition, strings.string(i));
    }
}

fn link_bad(entry: Entry, nodes: usize, strings: usize, sound: &[bool; 2048]) -> bool
    requires { strings ≤ 2048 }
    ensures { result ≡ link_bad nodes strings sound.now entry }
{
    let string = entry.string as usize;
    (nodes as u64) < entry.parent || strings <= string || !sound[string]
}

// The lowest node whose parent or string does not exist or whose string is no subkey; parents and string numbers are copied on the way.
// One entry read a node.
#[tactic(auto, using(aff_format::proofs::StdLaws::lowest_met, aff_format::proofs::StdLaws::lowest_none))]
fn links(
    entries: &Entries<'_>,
    nodes: usize,
    strings: usize,
    sound: &[bool; 2048],
    parents: &mut [u32; 2049],
    names: &mut [u32; 2049],
) -> Option<usize>
    requires few_nodes { nodes ≤ 2048 }
    requires few_strings { strings ≤ 2048 }
    ensures value { result ≡ lowest_from (λ k. link_bad nodes strings sound.now (recorded_entry entries.now.image.now entries.now.places.now k)) nodes 1 }
    ensures copied { result ≡ None → Copied (recorded_entry entries.now.image.now entries.now.places.now) nodes parents.new names.new }
{
    for k in 1..=nodes {
        let entry = entries.entry(k);
        if link_bad(entry, nodes, strings, sound) {
            return Some(k);
        }
        parents[k] = entry.parent as u32;
        names[k] = entry.string;
    }
    None
}

// 10, of the nodes whose entries are at some places of the image of the strings.
pub fn linked(
    strings: &Strings<'_>,
    edition: Edition,
    entries: &[u32],
    nodes: usize,
    parents: &mut [u32; 2049],
    names: &mut [u32; 2049],
) -> Option<usize>
    requires { nodes ≤ 2048 }
    ensures value { result ≡ lowest_from (link_wrong edition (recorded_contents strings.now.image.now strings.now.end strings.now.places.now strings.now.count entries.now nodes)) nodes 1 }
    ensures copied { result ≡ None → Copied (recorded_entry strings.now.image.now entries.now) nodes parents.new names.new }
{
    let mut sound = [false; 2048];
    judge(strings, edition, &mut sound);
    let recorded = Entries {
        image: strings.image,
        places: entries,
    };
    links(&recorded, nodes, strings.count, &sound, parents, names)
}

// The place at which a name breaks the rule for a subkey; 0 where it is one.
fn break_in(edition: Edition, name: &[u8]) -> usize
    ensures { result ≡ break_place (subkey_from edition 0 name.now) }
{
    subkey::subkey(edition, name).unwrap_or(0)
}

// The second number of 10: the place at which a node's name breaks, 0 where its string does not exist. Reads the string where there is one.
#[tactic(auto, using(crate::proofs::LinkLaws::break_none, crate::proofs::LinkLaws::break_some))]
pub fn name_break(strings: &Strings<'_>, edition: Edition, entry: Entry) -> usize
    ensures { result ≡ name_break edition strings.now.count (recorded_string strings.now.image.now strings.now.end strings.now.places.now) entry }
{
    let string = entry.string as usize;
    if strings.count <= string {
        return 0;
    }
    break_in(edition, strings.string(string))
}
