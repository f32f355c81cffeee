// The layout of each edition. What differs from edition to edition is in functions that match on it: its number, its text, the size of a section
// header, whether that has a record count, the order of the section headers, whether it is written. (Its rule for names is in subkey.rt.) All
// other sizes and places are computed from these and from the sizes that all editions share.
ghost use Rattle.std.specs.Prelude.{◌≡◌, eqb, position};
ghost use Rattle.aff_format.specs.Section.{section_number};
ghost use Rattle.aff_format.specs.Edition.{edition_number, signature_text, section_header_size, has_counts, header_order, section_rank, section_at, is_written, section_header_at, section_sum_at, header_sum_at, header_size, number_form, edition_of, EditionGiven, is_known, edition_by, names_written};

use crate::number;
use crate::section::Section;
use std::error::Error;
use std::fmt;

// An edition of the format. An enum and no trait: an edition is a number in files and records, and the sizes are functions of it (request C-15).
#[derive(Clone, Copy, Debug, PartialEq, Eq)]
pub enum Edition {
    One = 1,
    Two = 2,
    Three = 3,
}

// A number that no edition has.
#[derive(Clone, Copy, Debug, PartialEq, Eq)]
pub struct UnknownEdition(pub u32);

impl fmt::Display for UnknownEdition {
    ghost use Rattle.std.specs.Prelude.{Some};
    ghost use Rattle.aff_format.specs.Edition.{unknown_edition_text};

    ghost output = { λ e. Some (unknown_edition_text e) };

    fn fmt<W: fmt::Write>(&self, f: &mut fmt::Formatter<W>) -> fmt::Result {
        write!(f, "no edition has the number {}", self.0)
    }
}

impl Error for UnknownEdition {}

// The edition of a number: any number may be asked for.
impl TryFrom<u32> for Edition {
    type Error = UnknownEdition;

    ghost try_from_gives = { EditionGiven };

    fn try_from(n: u32) -> Result<Self, UnknownEdition> {
        match n {
            1 => Ok(Edition::One),
            2 => Ok(Edition::Two),
            3 => Ok(Edition::Three),
            _ => Err(UnknownEdition(n)),
        }
    }
}

impl Edition {
    pub const ALL: [Edition; 3] = [Edition::One, Edition::Two, Edition::Three];

    // Bytes of the signature, and of an MD5 sum.
    pub const SIGNATURE: usize = 32;

    pub const SUM: usize = 16;

    // Bytes of a Void node's tree entry and of any other node's, in every edition.
    pub const VOID_ENTRY: usize = 13;

    pub const DATA_ENTRY: usize = 25;

    // The shortest and the longest header of an edition.
    pub const LEAST_HEADER: usize = 144;

    pub const MOST_HEADER: usize = 168;

    pub fn number(self) -> u32
        ensures { result ≡ edition_number self }
    {
        self as u32
    }

    // The first 20 bytes of the signature.
    #[tactic(auto, unfolding(crate::specs::Edition::signature_text))]
    pub fn signature_text(self) -> [u8; 20]
        ensures { result ≡ signature_text self }
    {
        match self {
            Edition::One => *b"LHPC AFF version 1.0",
            Edition::Two => *b"LHPC AFF version 2.0",
            Edition::Three => *b"LHPC AFF version 3.0",
        }
    }

    // Bytes of a section header.
    pub fn section_header_size(self) -> usize
        ensures { result ≡ section_header_size self }
    {
        match self {
            Edition::One => 32,
            Edition::Two | Edition::Three => 40,
        }
    }

    // Whether a section header has a record count.
    pub fn has_counts(self) -> bool
        ensures { result ≡ has_counts self }
    {
        matches!(self, Edition::Two | Edition::Three)
    }

    // The order of the section headers.
    fn header_order(self) -> [Section; 3]
        ensures { result ≡ header_order self }
    {
        match self {
            Edition::One | Edition::Two => [Section::Symbol, Section::Tree, Section::Data],
            Edition::Three => [Section::Data, Section::Symbol, Section::Tree],
        }
    }

    // Whose section header is at a rank, 0 to 2.
    // Total, as `section_at` of specs/Edition.antt is.
    pub fn section_at(self, rank: usize) -> Section
        ensures { result ≡ section_at self rank }
    {
        *self.header_order().get(rank).unwrap_or(&Section::Symbol)
    }

    // Whether the writer writes files of the edition.
    pub fn is_written(self) -> bool
        ensures { result ≡ is_written self }
    {
        matches!(self, Edition::Two | Edition::Three)
    }

    // Which of the three section headers is a section's, counted from 0.
    // Total, as `section_rank` of specs/Edition.antt is.
    pub fn rank(self, section: Section) -> usize
        ensures { result ≡ section_rank self section }
    {
        place_of(&self.header_order(), section).unwrap_or(3)
    }

    // Where the header of a section begins.
    pub fn section_header_at(self, section: Section) -> usize
        ensures { result ≡ section_header_at self section }
    {
        Edition::SIGNATURE + self.rank(section) * self.section_header_size()
    }

    // Where the sum of a section begins.
    pub fn section_sum_at(self, section: Section) -> usize
        ensures { result ≡ section_sum_at self section }
    {
        self.section_header_at(section) + self.section_header_size() - Edition::SUM
    }

    // Where the header sum begins.
    pub fn header_sum_at(self) -> usize
        ensures { result ≡ header_sum_at self }
    {
        Edition::SIGNATURE + 3 * self.section_header_size()
    }

    // Bytes of the whole header.
    pub fn header_size(self) -> usize
        ensures { result ≡ header_size self }
    {
        self.header_sum_at() + Edition::SUM
    }

    // The 12 bytes after the text as our programs expect them (docs/FORM.md).
    #[tactic(auto, using(crate::proofs::EditionLaws::form_written), unfolding(crate::specs::Edition::number_form))]
    pub fn number_form(self) -> [u8; 12]
        ensures { result ≡ number_form self }
    {
        let mut form = [0, 64, 2, 53, 4, 0, 3, 253, 0, 0, 0, 0];
        number::put_be(&mut form, 8, 4, self.header_size() as u64);
        form
    }

    // The edition of a number, if there is one. One line over TryFrom, for the callers that want an Option.
    pub fn from_number(n: u32) -> Option<Edition>
        ensures { result ≡ edition_of n }
    {
        Edition::try_from(n).ok()
    }

    // The edition that a record names by its number; edition 2 for a number of no edition.
    // Total, as `edition_by` is: a record may hold any number, and 24 judges it.
    pub fn by_number(n: u32) -> Edition
        ensures { result ≡ edition_by n }
    {
        Edition::from_number(n).unwrap_or(Edition::Two)
    }

    // Whether there is an edition of this number.
    pub fn exists(n: u32) -> bool
        ensures { result ≡ is_known (edition_of n) }
    {
        Edition::from_number(n).is_some()
    }

    // Whether a number names an edition that is written.
    pub fn names_written(n: u32) -> bool
        ensures { result ≡ names_written n }
    {
        Edition::from_number(n).is_some_and(Edition::is_written)
    }
}

// The place of a section among some.
fn place_of(sections: &[Section], section: Section) -> Option<usize>
    ensures { result ≡ position (λ other. eqb (section_number section) (section_number other)) sections.now }
{
    sections.iter().position(|other| section == *other)
}
