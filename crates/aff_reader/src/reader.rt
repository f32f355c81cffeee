// The record of an opened image.
ghost use Rattle.std.specs.Prelude.{◌≡◌};
ghost use Rattle.aff_reader.specs.Reader.{no_span, no_reader};

// A section: where it begins, and its bytes.
#[derive(Clone, Copy, Debug, PartialEq, Eq, Default)]
pub struct Span {
    pub offset: usize,
    pub size: usize,
}

// What an accepted opening found. It belongs to the image and the two areas that were passed.
// The edition is a number, since C hands in any record: 24 judges it (`sizes_belong`).
#[derive(Clone, Copy, Debug, PartialEq, Eq, Default)]
pub struct Reader {
    pub length: usize,
    pub edition: u32,
    pub symbols: Span,
    pub tree: Span,
    pub data: Span,
    pub strings: usize,
    pub nodes: usize,
    pub records: u64,
}

impl Span {
    pub fn none() -> Span
        ensures { result ≡ no_span }
    {
        Span::default()
    }
}

impl Reader {
    // The all-zero record: what a refused opening leaves.
    pub fn none() -> Reader
        ensures { result ≡ no_reader }
    {
        Reader::default()
    }
}
