// The signature and the header sum.
ghost use Rattle.std.specs.Prelude.{◌≡◌, not, ◌+◌, ◌≤◌, length, take};
ghost use Rattle.aff_md5.specs.Md5.{md5 as md5_of};
ghost use Rattle.aff_format.specs.Answer.{first_wrong};
ghost use Rattle.aff_format.specs.Bytes.{part, same_bytes};
ghost use Rattle.aff_format.specs.Edition.{signature_text, least_header};
ghost use Rattle.aff_open.specs.Sections.{text_edition, edition_in, form_for, header_sum_wrong};
ghost use Rattle.aff_open.specs.Opening.{header_checks, form_checks};
ghost use Rattle.aff_format.specs.Verdict.{answer_of};

use crate::sections::Header;
use aff_format::{Edition, Refusal, bytes};

// Whether an image begins with the text of an edition.
#[tactic(auto, using(aff_format::proofs::EditionLaws::length_signature_text, aff_format::proofs::SameLaws::same_lengths))]
fn has_text(image: &[u8], edition: Edition) -> bool
    ensures { result ≡ same_bytes (take 20 image.now) (signature_text edition) }
{
    20 <= image.len() && bytes::same(&image[..20], &edition.signature_text())
}

// The edition whose text an image begins with.
#[tactic(auto, unfolding(crate::specs::Sections::text_edition))]
pub fn text_edition(image: &[u8]) -> Option<Edition>
    ensures { result ≡ text_edition image.now }
{
    for edition in Edition::ALL {
        if has_text(image, edition) {
            return Some(edition);
        }
    }
    None
}

// The 12 bytes that our programs expect after the text of an image: those of the edition that the text names, else edition 2's.
pub fn form_for(image: &[u8]) -> [u8; 12]
    ensures { result ≡ form_for image.now }
{
    text_edition(image).unwrap_or(Edition::Two).number_form()
}

// Whether the 16 bytes at a place are not the sum of the `size` bytes from `from` on.
pub fn sum_differs(image: &[u8], at: usize, from: usize, size: usize) -> bool
    requires sum_inside { at + 16 ≤ length image.now }
    requires inside { from + size ≤ length image.now }
    ensures { result ≡ not (same_bytes (part at 16 image.now) (md5_of (part from size image.now))) }
{
    let sum = aff_md5::md5(&image[from..from + size]);
    !bytes::same(&image[at..at + 16], &sum)
}

#[tactic(auto, unfolding(crate::specs::Sections::header_sum_wrong))]
fn header_sum_wrong(header: &Header<'_>) -> bool
    ensures { result ≡ header_sum_wrong header.now.edition header.now.image.now }
{
    let at = header.edition.header_sum_at();
    sum_differs(header.image, at, 0, at)
}

// After the text: 2, 4, 5.
fn header_of(image: &[u8], form: &[u8], edition: Edition) -> Result<Edition, Refusal>
    requires { least_header ≤ length image.now }
    ensures { answer_of result ≡ first_wrong (form_checks edition image.now form.now) edition }
{
    if image.len() < edition.header_size() {
        return Err(Refusal::ShortImage);
    }
    if !bytes::same(&image[20..Edition::SIGNATURE], form) {
        return Err(Refusal::WrongForm);
    }
    if header_sum_wrong(&Header { image, edition }) {
        return Err(Refusal::WrongHeaderSum);
    }
    Ok(edition)
}

// 2, 3, 2, 4, 5.
pub fn header(image: &[u8], form: &[u8]) -> Result<Edition, Refusal>
    ensures { answer_of result ≡ first_wrong (header_checks image.now form.now) (edition_in image.now) }
{
    if image.len() < Edition::LEAST_HEADER {
        return Err(Refusal::ShortImage);
    }
    let edition = text_edition(image).ok_or(Refusal::UnknownEdition)?;
    header_of(image, form, edition)
}
