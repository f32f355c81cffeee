// A record that belongs to what is passed with it.
ghost use Rattle.std.specs.Prelude.{◌≡◌, true};
ghost use Rattle.aff_areas.specs.Belongs.{writer_belongs};
ghost use Rattle.aff_areas.specs.Given.{of};

use crate::areas;
use crate::given::Given;

// What a call has that has judged the record (24).
#[derive(Clone, Copy, Debug, PartialEq, Eq)]
pub struct Held<'a> {
    pub given: Given<'a>,
    pub ghost belongs: { of given writer_belongs ≡ true },
}

impl<'a> Held<'a> {
    ghost use Rattle.std.specs.Prelude.{◌≡◌, ◌≤◌};
    ghost use Rattle.aff_areas.specs.Areas.{used_text, finished_size};

    // The strings so far, each with its zero.
    pub fn used_text(&self) -> &'a [u8]
        ensures { result.now ≡ used_text self.now.given.writer self.now.given.text.now }
    {
        &self.given.text[..self.given.writer.text]
    }

    // Finished size, which fits.
    pub fn finished_size(&self) -> usize
        ensures value { result ≡ finished_size self.now.given.writer self.now.given.tree.now }
        ensures fits { result ≤ self.now.given.writer.length }
    {
        areas::finished_size(&self.given.writer, self.given.tree)
    }
}
