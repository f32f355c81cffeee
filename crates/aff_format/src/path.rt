// The grammar of a path.
ghost use Rattle.std.specs.Prelude.{◌≡◌, ◌+◌, ◌≤◌, ◌<◌, length, drop};
ghost use Rattle.aff_format.specs.Path.{between_slashes, parts_from, path_grammar};
ghost use Rattle.aff_format.specs.passes.Counts.{until_slash};

use crate::edition::Edition;
use crate::{bytes, subkey};

// The place of the first slash from a place on, or the length.
fn next_slash(path: &[u8], from: usize) -> usize
    requires { from ≤ length path.now }
    ensures value { result ≡ from + until_slash (drop from path.now) }
    ensures after { from ≤ result }
    ensures inside { result ≤ length path.now }
{
    from + bytes::bytes_before(&path[from..], b'/')
}

// The first fault of the subkeys after the first slash.
// A `loop`, by places: `split` would give the subkeys without them, and each place would be counted by hand.
#[tactic(auto, using(crate::proofs::PathLaws::parts_break, crate::proofs::PathLaws::parts_last, crate::proofs::PathLaws::parts_next))]
fn parts(edition: Edition, path: &[u8]) -> Option<usize>
    requires { 0 < length path.now }
    ensures { result ≡ parts_from edition 1 (between_slashes (drop 1 path.now)) }
{
    let mut at: usize = 1;
    loop {
        let end = next_slash(path, at);
        if let Some(place) = subkey::subkey(edition, &path[at..end]) {
            return Some(at + place);
        }
        if end == path.len() {
            return None;
        }
        at = end + 1;
    }
}

// What the grammar of an edition finds in a path.
#[tactic(auto, using(crate::proofs::PathLaws::grammar_empty, crate::proofs::PathLaws::grammar_start, crate::proofs::PathLaws::grammar_root, crate::proofs::PathLaws::grammar_parts))]
pub fn grammar(edition: Edition, path: &[u8]) -> Option<usize>
    ensures { result ≡ path_grammar edition path.now }
{
    match path {
        [b'/'] => None,
        [b'/', ..] => parts(edition, path),
        _ => Some(0),
    }
}
