// The three sections of an image whose header is whole.
ghost use Rattle.std.specs.Prelude.{◌≤◌, ◌<◌, length};
ghost use Rattle.aff_format.specs.Edition.{header_size};
ghost use Rattle.aff_open.specs.Sections.{AllInside};

use crate::header;
use aff_format::{Edition, Refusal, Section, number};
use aff_reader::Span;

// An image that has the whole header of an edition.
#[derive(Clone, Copy, Debug, PartialEq, Eq)]
pub struct Header<'a> {
    pub image: &'a [u8],
    pub edition: Edition,
    pub ghost whole: { header_size edition ≤ length image.now },
}

// One whose sections lie inside it, and that is not too long.
#[derive(Clone, Copy, Debug, PartialEq, Eq)]
pub struct Readable<'a> {
    pub header: Header<'a>,
    pub ghost inside: { AllInside header.edition header.image.now },
    pub ghost short: { length header.image.now < 2147483648 },
}

impl Header<'_> {
    ghost use Rattle.std.specs.Prelude.{◌≡◌, ◌+◌};
    ghost use Rattle.aff_format.specs.Answer.{first_wrong};
    ghost use Rattle.aff_format.specs.Bytes.{part};
    ghost use Rattle.aff_format.specs.Edition.{section_header_at};
    ghost use Rattle.aff_format.specs.Number.{be_of};
    ghost use Rattle.aff_format.specs.Verdict.{answer_of};
    ghost use Rattle.aff_open.specs.Sections.{section_offset, section_size, section_records, ends_past};
    ghost use Rattle.aff_open.specs.Opening.{inside_checks, section_checks};

    // The 8 bytes that are `at` bytes after the start of a section header.
    fn field(&self, section: Section, at: usize) -> u64
        requires { at ≤ 16 }
        ensures { result ≡ be_of (part (section_header_at self.now.edition section + at) 8 self.now.image.now) }
    {
        number::be::<8>(self.image, self.edition.section_header_at(section) + at)
    }

    #[tactic(auto, unfolding(crate::specs::Sections::section_offset))]
    fn offset(&self, section: Section) -> u64
        ensures { result ≡ section_offset self.now.edition section self.now.image.now }
    {
        self.field(section, 0)
    }

    #[tactic(auto, unfolding(crate::specs::Sections::section_size))]
    fn size(&self, section: Section) -> u64
        ensures { result ≡ section_size self.now.edition section self.now.image.now }
    {
        self.field(section, 8)
    }

    // The record count of a section; 0 in edition 1, which has none.
    #[tactic(auto, unfolding(crate::specs::Sections::section_records))]
    pub fn records(&self, section: Section) -> u64
        ensures { result ≡ section_records self.now.edition section self.now.image.now }
    {
        if self.edition.has_counts() {
            self.field(section, 16)
        } else {
            0
        }
    }

    // Offset and size are not added: the sum could wrap.
    #[tactic(auto, unfolding(crate::specs::Sections::ends_past))]
    fn ends_past(&self, section: Section) -> bool
        ensures { result ≡ ends_past self.now.edition section self.now.image.now }
    {
        let length = self.image.len() as u64;
        let from = self.offset(section);
        length < from || length - from < self.size(section)
    }

    // 6 over the three sections.
    fn inside(&self) -> Result<(), Refusal>
        ensures { answer_of result ≡ first_wrong (inside_checks self.now.edition self.now.image.now) tt }
    {
        for section in Section::ALL {
            if self.ends_past(section) {
                return Err(Refusal::SectionOutside(section));
            }
        }
        Ok(())
    }

    // 6, then 7.
    pub fn sections(&self) -> Result<(), Refusal>
        requires { length self.now.image.now < 2147483648 }
        ensures { answer_of result ≡ first_wrong (section_checks self.now.edition self.now.image.now) tt }
    {
        self.inside()?;
        let readable = Readable { header: *self };
        readable.sums()
    }
}

impl Readable<'_> {
    ghost use Rattle.std.specs.Prelude.{◌≡◌};
    ghost use Rattle.aff_format.specs.Answer.{first_wrong};
    ghost use Rattle.aff_format.specs.Verdict.{answer_of};
    ghost use Rattle.aff_open.specs.Sections.{sum_wrong};
    ghost use Rattle.aff_open.specs.Opening.{sum_checks, span_of};

    pub fn span(&self, section: Section) -> Span
        ensures { result ≡ span_of self.now.header.edition section self.now.header.image.now }
    {
        Span {
            offset: self.header.offset(section) as usize,
            size: self.header.size(section) as usize,
        }
    }

    #[tactic(auto, using(crate::proofs::SectionLaws::ends_inside), unfolding(crate::specs::Sections::sum_wrong, crate::specs::Sections::section_bytes))]
    fn sum_wrong(&self, section: Section) -> bool
        ensures { result ≡ sum_wrong self.now.header.edition section self.now.header.image.now }
    {
        let bounds = self.span(section);
        header::sum_differs(
            self.header.image,
            self.header.edition.section_sum_at(section),
            bounds.offset,
            bounds.size,
        )
    }

    // 7 over the three sections. One pass over each.
    fn sums(&self) -> Result<(), Refusal>
        ensures { answer_of result ≡ first_wrong (sum_checks self.now.header.edition self.now.header.image.now) tt }
    {
        for section in Section::ALL {
            if self.sum_wrong(section) {
                return Err(Refusal::WrongSectionSum(section));
            }
        }
        Ok(())
    }
}
