// The numbers handed back: document 01, 'Numbers handed back'.
ghost use Rattle.std.specs.Prelude.{◌≡◌};
ghost use Rattle.aff_format.specs.Answer.{refusal, refusal_at};
ghost use Rattle.aff_format.specs.Refusal.{code_of_refusal, number_of, place_of, second_of};

use crate::limits;
use crate::section::Section;
use std::error::Error;
use std::fmt;

// A case for each row of the table, with what it reports. Number 8 is withdrawn (request C-14), and no case has it.
#[derive(Clone, Copy, Debug, PartialEq, Eq)]
pub enum Refusal {
    // A work area or the 12 bytes has another length, or the image is too long.
    WrongLength,
    // The image is shorter than its edition's header.
    ShortImage,
    // The signature text is that of no edition, or a begin names no edition that is written.
    UnknownEdition,
    // The other 12 signature bytes differ from those passed.
    WrongForm,
    // The header sum is wrong.
    WrongHeaderSum,
    // A section ends past the image.
    SectionOutside(Section),
    // The sum of a section is wrong.
    WrongSectionSum(Section),
    // An entry is cut short, of no type or one too many; 0: the count differs. 0 as document 01's table reports it (`code_of_refusal`).
    BadTreeTable(usize),
    // A node's parent or string does not exist, or its string is no subkey; the node, and the place at which its string breaks: 0 where it does not exist
    // or is a subkey. 0 as document 01's table reports it (`code_of_refusal`).
    BadLink(usize, usize),
    // A node's climb does not reach the root.
    EndlessClimb(usize),
    // A lower sibling of a node has its name.
    RepeatedName(usize),
    // A node's data are not inside the data section.
    DataOutside(usize),
    // A path or a name is malformed; the place at which it breaks.
    Malformed(usize),
    // There is no such key or node number.
    Absent,
    // The element index is not below the count.
    IndexTooLarge,
    // The child exists already.
    ChildExists,
    // A put to the root or to a node that has data.
    DataTaken,
    // The type is not 2 to 5, or the length no multiple of the element.
    WrongData,
    // One node or string too many, or text past its area.
    TooMany,
    // The buffer is below the least, the finished size passes it, or the output is too short.
    BufferTooSmall,
    // The writer is closed or stopped.
    NotOpen,
    // The allowance is smaller than the stores needed; the stores made.
    AllowanceSpent(usize),
    // The record does not belong to what is passed.
    WrongRecord,
    // The symbol table has more than 2,048 strings.
    TooManyStrings,
    // The record count of the symbol section is not the number of strings.
    WrongStringCount,
    // A string equals an earlier one; the lowest such string, numbered from 0.
    RepeatedString(usize),
}

// A refusal as it is reported: its number, its place, and the place in the name that 10 reports besides.
#[derive(Clone, Copy, Debug, PartialEq, Eq)]
pub struct RefusalCode {
    pub number: u32,
    pub place: usize,
    pub second: usize,
}

// `refused N P`, as the listers print it.
// The listers store the same text in a lent block: std's writer into a slice says how many bytes it wrote, not which.
impl fmt::Display for Refusal {
    ghost use Rattle.std.specs.Prelude.{Some};
    ghost use Rattle.aff_format.specs.Refusal.{refused_text};

    ghost output = { λ r. Some (refused_text r) };

    fn fmt<W: fmt::Write>(&self, f: &mut fmt::Formatter<W>) -> fmt::Result {
        let code = self.code();
        write!(f, "refused {} {}", code.number, code.place)
    }
}

impl Error for Refusal {}

fn alone(number: u32) -> RefusalCode
    ensures { result ≡ refusal number }
{
    with_place(number, 0)
}

fn with_place(number: u32, place: usize) -> RefusalCode
    ensures { result ≡ refusal_at number place }
{
    RefusalCode {
        number,
        place,
        second: 0,
    }
}

impl Refusal {
    // The row of the table.
    pub fn code(self) -> RefusalCode
        ensures { result ≡ code_of_refusal self }
    {
        match self {
            Refusal::WrongLength => alone(1),
            Refusal::ShortImage => alone(2),
            Refusal::UnknownEdition => alone(3),
            Refusal::WrongForm => alone(4),
            Refusal::WrongHeaderSum => alone(5),
            Refusal::SectionOutside(section) => with_place(6, section.number()),
            Refusal::WrongSectionSum(section) => with_place(7, section.number()),
            Refusal::BadTreeTable(entry) => with_place(9, entry),
            Refusal::BadLink(node, in_name) => RefusalCode {
                number: 10,
                place: node,
                second: in_name,
            },
            Refusal::EndlessClimb(node) => with_place(11, node),
            Refusal::RepeatedName(node) => with_place(12, node),
            Refusal::DataOutside(node) => with_place(13, node),
            Refusal::Malformed(place) => with_place(14, place),
            Refusal::Absent => alone(15),
            Refusal::IndexTooLarge => alone(16),
            Refusal::ChildExists => alone(17),
            Refusal::DataTaken => alone(18),
            Refusal::WrongData => alone(19),
            Refusal::TooMany => alone(20),
            Refusal::BufferTooSmall => alone(21),
            Refusal::NotOpen => alone(22),
            Refusal::AllowanceSpent(made) => with_place(23, made),
            Refusal::WrongRecord => alone(24),
            Refusal::TooManyStrings => with_place(25, limits::STRING_LIMIT),
            Refusal::WrongStringCount => alone(26),
            Refusal::RepeatedString(string) => with_place(27, string),
        }
    }

    // Column 'No.'.
    pub fn number(self) -> u32
        ensures { result ≡ number_of self }
    {
        self.code().number
    }

    // Column 'Place told'.
    pub fn place(self) -> usize
        ensures { result ≡ place_of self }
    {
        self.code().place
    }

    // The place in the name that 10 reports besides its node.
    pub fn second_place(self) -> usize
        ensures { result ≡ second_of self }
    {
        self.code().second
    }
}
