// The three sections of a file.
ghost use Rattle.std.specs.Prelude.{◌≡◌};
ghost use Rattle.aff_format.specs.Section.{section_number};

// In the order in which they are checked.
#[derive(Clone, Copy, Debug, PartialEq, Eq)]
pub enum Section {
    Symbol = 1,
    Tree = 2,
    Data = 3,
}

impl Section {
    pub const ALL: [Section; 3] = [Section::Symbol, Section::Tree, Section::Data];

    // The number by which a refusal reports the section.
    pub fn number(self) -> usize
        ensures { result ≡ section_number self }
    {
        self as usize
    }
}
