// Climbs by parents.
ghost use Rattle.std.specs.Prelude.{◌≡◌, not};
ghost use Rattle.aff_format.specs.Lowest.{lowest_from};
ghost use Rattle.aff_format.specs.Tree.{reaches_by};
ghost use Rattle.aff_tables.specs.passes.Climb.{ParentsExist, copied_parent, ClimbReady, Climbed};

// Climbs from k and marks each node it meets with k, up to the root or a marked node. It came to the root unless it met its own mark: an
// earlier climb, which came there, has made any other. One step for each mark it sets, and one more. A `while`, since it follows parents.
#[tactic(auto, using(crate::proofs::MarkLaws::at_mine, crate::proofs::MarkLaws::at_good, crate::proofs::MarkLaws::at_root))]
fn trail(parents: &[u32], nodes: usize, k: usize, marks: &mut [u32]) -> bool
    requires { ClimbReady parents.now nodes k marks.old }
    ensures { Climbed (copied_parent parents.now) nodes k marks.new result }
{
    let mut x = k;
    while x != 0 {
        let m = marks[x] as usize;
        if m == k {
            return false;
        }
        if m != 0 {
            return true;
        }
        marks[x] = k as u32;
        x = parents[x] as usize;
    }
    true
}

// The lowest node whose climb does not reach the root. Each node is marked once at most and each climb goes one step past its marks, so all
// climbs together take at most two steps a node.
#[tactic(auto, using(crate::proofs::MarkLaws::next_passed, crate::proofs::MarkLaws::last_passed, aff_format::proofs::StdLaws::lowest_none))]
pub fn climbs(parents: &[u32], nodes: usize) -> Option<usize>
    requires { ParentsExist parents.now nodes }
    ensures { result ≡ lowest_from (λ k. not (reaches_by (copied_parent parents.now) nodes k)) nodes 1 }
{
    // 0 and no Option for none: four bytes a node on the stack.
    let mut marks = [0u32; 2049];
    for k in 1..=nodes {
        if !trail(parents, nodes, k, &mut marks) {
            return Some(k);
        }
    }
    None
}
