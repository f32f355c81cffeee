// The rule for a subkey.
ghost use Rattle.std.specs.Prelude.{◌≡◌, ◌-◌, ◌≤◌, not, length, position, IfSome};
ghost use Rattle.aff_format.specs.Bytes.{part};
ghost use Rattle.aff_format.specs.Subkey.{narrow_first, narrow_next, wide, may_begin, may_follow, subkey_from};

use crate::edition::Edition;

// Whether a byte may begin a subkey of editions 1 and 2.
#[tactic(auto, unfolding(crate::specs::Subkey::narrow_first))]
fn narrow_first(x: u8) -> bool
    ensures { result ≡ narrow_first x }
{
    x.is_ascii_alphabetic() || x == b'_' || x == b':'
}

// Whether a byte may come after the first of a subkey of editions 1 and 2.
#[tactic(auto, unfolding(crate::specs::Subkey::narrow_next))]
fn narrow_next(x: u8) -> bool
    ensures { result ≡ narrow_next x }
{
    narrow_first(x) || x.is_ascii_digit() || x == b'.' || x == b'-'
}

// Whether a byte may be in a subkey of edition 3.
#[tactic(auto, unfolding(crate::specs::Subkey::wide))]
fn is_wide(x: u8) -> bool
    ensures { result ≡ wide x }
{
    x != b'/' && x != 0
}

fn may_begin(edition: Edition, x: u8) -> bool
    ensures { result ≡ may_begin edition x }
{
    match edition {
        Edition::One | Edition::Two => narrow_first(x),
        Edition::Three => is_wide(x),
    }
}

fn may_follow(edition: Edition, x: u8) -> bool
    ensures { result ≡ may_follow edition x }
{
    match edition {
        Edition::One | Edition::Two => narrow_next(x),
        Edition::Three => is_wide(x),
    }
}

// The first of some bytes that may not come after the first of a subkey.
fn first_fault(edition: Edition, bytes: &[u8]) -> Option<usize>
    ensures { result ≡ position (λ x. not (may_follow edition x)) bytes.now }
{
    bytes.iter().position(|&x| !may_follow(edition, x))
}

// What the rule of an edition finds in a name.
#[tactic(auto, using(crate::proofs::SubkeyLaws::begin_bad, crate::proofs::SubkeyLaws::begin_empty, crate::proofs::SubkeyLaws::begin_by_position))]
pub fn subkey(edition: Edition, name: &[u8]) -> Option<usize>
    ensures value { result ≡ subkey_from edition 0 name.now }
    ensures inside { IfSome result (λ place. place ≤ length name.now) }
{
    let [first, rest @ ..] = name else {
        return Some(0);
    };
    if !may_begin(edition, *first) {
        return Some(0);
    }
    let fault = first_fault(edition, rest)?;
    Some(1 + fault)
}
