// One element of a node's data.
ghost use Rattle.std.specs.Prelude.{◌≡◌, ◌+◌, ◌*◌, ◌<◌};
ghost use Rattle.aff_format.specs.Verdict.{answer_of};
ghost use Rattle.aff_format.specs.Element.{count_in, element_at, decoded};

use crate::kind::Kind;
use crate::number;
use crate::refusal::Refusal;

// A number of a node's data.
#[derive(Clone, Copy, Debug, PartialEq)]
pub enum Element {
    Byte(u8),
    Int(i32),
    Real(f64),
    Pair(f64, f64),
}

// The answer to an element request: a case that carries the element and one that carries a refusal.
pub type ElementAnswer = Result<Element, Refusal>;

// How many elements of a kind so many bytes hold.
pub fn count_in(kind: Kind, bytes: &[u8]) -> usize
    ensures { result ≡ count_in kind bytes.now }
{
    match kind {
        Kind::Void => 0,
        Kind::Char => bytes.len(),
        Kind::Int => bytes.len() / 4,
        Kind::Double => bytes.len() / 8,
        Kind::Complex => bytes.len() / 16,
    }
}

// Element k of the bytes of a kind, where there is one.
#[tactic(auto, unfolding(crate::specs::Element::element_at))]
fn element_at(kind: Kind, bytes: &[u8], k: usize) -> Element
    requires { k < count_in kind bytes.now }
    ensures { result ≡ element_at kind bytes.now k }
{
    match kind {
        Kind::Void => Element::Byte(0),
        Kind::Char => Element::Byte(bytes[k]),
        Kind::Int => Element::Int(number::signed(number::be::<4>(bytes, 4 * k) as u32)),
        Kind::Double => Element::Real(number::real(number::be::<8>(bytes, 8 * k))),
        Kind::Complex => {
            let re = number::real(number::be::<8>(bytes, 16 * k));
            let im = number::real(number::be::<8>(bytes, 16 * k + 8));
            Element::Pair(re, im)
        }
    }
}

// Element k of a view that the caller holds: `bytes` is the data part of a node of that kind. 16 where there is none. No other check
// is paid for. Every NaN pattern is returned as the language's one NaN.
#[tactic(auto, unfolding(crate::specs::Element::decoded))]
pub fn decode(kind: Kind, bytes: &[u8], k: usize) -> ElementAnswer
    ensures { answer_of result ≡ decoded kind bytes.now k }
{
    if count_in(kind, bytes) <= k {
        return Err(Refusal::IndexTooLarge);
    }
    Ok(element_at(kind, bytes, k))
}
