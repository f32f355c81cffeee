// The strings that are a name.
ghost use Rattle.std.specs.Prelude.{◌≡◌, true, ◌≤◌, length, take, drop};
ghost use Rattle.aff_format.specs.Limits.{node_limit};
ghost use Rattle.aff_format.specs.Lowest.{lowest_from, is_at};
ghost use Rattle.aff_format.specs.Strings.{strings_of, ends_in_zero};
ghost use Rattle.aff_format.specs.Bytes.{laid_over};
ghost use Rattle.aff_areas.specs.passes.Marks.{mark_of, marks_of, first_mark, is_marked};

use crate::areas;
use aff_format::{bytes, recorded};

// A mark is a byte and no bool, since `first_mark` and `any_marked` are asked of any bytes.
fn mark(string: &[u8], name: &[u8]) -> u8
    ensures { result ≡ mark_of name.now string.now }
{
    u8::from(bytes::same(string, name))
}

// The bytes from a place on.
fn after<'a>(bytes: &'a [u8], from: usize) -> &'a [u8]
    requires { from ≤ length bytes.now }
    ensures { result.now ≡ drop from bytes.now }
{
    &bytes[from..]
}

// Marks each string of a text: 1 where it is the name, else 0. One pass: the end of each string is searched once, and its bytes are compared
// only where it is as long as the name.
#[tactic(auto, using(crate::proofs::NameLaws::mark_buffer, crate::proofs::NameLaws::mark_all))]
pub fn mark_strings(text: &[u8], name: &[u8], marks: &mut [u8])
    requires text_ends { ends_in_zero text.now ≡ true }
    requires has_room { length (strings_of text.now) ≤ length marks.old }
    ensures { marks.new ≡ laid_over marks.old (marks_of name.now (strings_of text.now)) }
{
    let mut rest = text;
    let mut i = 0;
    // From string to string, by slices. A `for` over the marks would stop by hand where no string is left, and is no plainer.
    while !rest.is_empty() {
        let string = recorded::until_zero(rest);
        marks[i] = mark(string, name);
        rest = after(rest, string.len() + 1);
        i += 1;
    }
}

// The lowest place of a 1 among the first marks; their number where there is none.
pub fn first_mark(marks: &[u8], count: usize) -> usize
    requires { count ≤ length marks.now }
    ensures { result ≡ first_mark (take count marks.now) }
{
    bytes::find_byte(&marks[..count], 1).unwrap_or(count)
}

// Whether a node is a child of the parent and its string is marked.
fn is_marked(marks: &[u8], tree: &[u8], parent: usize, node: usize) -> bool
    requires { node ≤ node_limit }
    ensures { result ≡ is_marked marks.now tree.now parent node }
{
    let entry = areas::slot_entry(tree, node);
    entry.parent == parent as u64
        && marks
            .get(entry.string as usize)
            .is_some_and(|&mark| mark == 1)
}

// Whether some node is a child of the parent and its string is marked. One entry read a node.
// Tried: `(1..=nodes).any(..)`; its contract is told by the steps of a range, and the proof didn't close.
pub fn any_marked(marks: &[u8], tree: &[u8], nodes: usize, parent: usize) -> bool
    requires { nodes ≤ node_limit }
    ensures { result ≡ is_at (lowest_from (is_marked marks.now tree.now parent) nodes 1) }
{
    for k in 1..=nodes {
        if is_marked(marks, tree, parent, k) {
            return true;
        }
    }
    false
}
