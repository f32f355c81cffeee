// The parts of a header, each written at its place.
ghost use Rattle.std.specs.Prelude.{◌≡◌, ◌++◌, ◌+◌, ◌≤◌, length, take};
ghost use Rattle.aff_format.specs.Bytes.{spliced};
ghost use Rattle.aff_format.specs.Edition.{signature_text, section_header_size, signature_size, header_sum_at, header_size};
ghost use Rattle.aff_header.specs.Header.{section_numbers, section_header, with_sum};

use aff_format::{Edition, bytes, number};

// Offset, size and, where the edition has it, record count of a section, at a place.
#[tactic(auto, using(crate::proofs::HeaderLaws::with_count, crate::proofs::HeaderLaws::without_count))]
fn put_numbers(
    out: &mut [u8],
    edition: Edition,
    at: usize,
    offset: usize,
    size: usize,
    count: usize,
)
    requires { at + section_header_size edition ≤ length out.old }
    ensures { out.new ≡ spliced at (section_numbers edition offset size count) out.old }
{
    number::put_be(out, at, 8, offset as u64);
    number::put_be(out, at + 8, 8, size as u64);
    if edition.has_counts() {
        number::put_be(out, at + 16, 8, count as u64);
    }
}

// The header of a section that begins at `offset`, has `count` records and holds some bytes, at a place.
#[tactic(auto, using(crate::proofs::HeaderLaws::section_over))]
pub fn put_section(
    out: &mut [u8],
    edition: Edition,
    at: usize,
    offset: usize,
    count: usize,
    section: &[u8],
)
    requires { at + section_header_size edition ≤ length out.old }
    ensures { out.new ≡ spliced at (section_header edition offset count section.now) out.old }
{
    put_numbers(out, edition, at, offset, section.len(), count);
    let sum_at = at + (edition.section_header_size() - Edition::SUM);
    bytes::put(out, sum_at, &aff_md5::md5(section));
}

// The signature: its text and the 12 bytes of form.
#[tactic(auto, using(crate::proofs::HeaderLaws::signature_over))]
pub fn put_signature(out: &mut [u8], edition: Edition, form: [u8; 12])
    requires { signature_size ≤ length out.old }
    ensures area { out.new ≡ spliced 0 (signature_text edition ++ form) out.old }
    ensures form { length form ≡ 12 }
{
    bytes::put(out, 0, &edition.signature_text());
    bytes::put(out, 20, &form);
}

// The header sum after the front of a header.
#[tactic(auto, using(crate::proofs::HeaderLaws::sum_over))]
pub fn put_sum(out: &mut [u8], edition: Edition)
    requires { header_size edition ≤ length out.old }
    ensures { take (header_size edition) out.new ≡ with_sum (take (header_sum_at edition) out.old) }
{
    let at = edition.header_sum_at();
    let sum = aff_md5::md5(&out[..at]);
    bytes::put(out, at, &sum);
}
