// The strings of a symbol section, by the places at which they begin.
ghost use Rattle.aff_tables.specs.passes.Distinct.{Places};

use aff_format::recorded;

// The first `count` places are those of strings; the symbol section ends at `end`.
#[derive(Clone, Copy, Debug, PartialEq, Eq)]
pub struct Strings<'a> {
    pub image: &'a [u8],
    pub end: usize,
    pub places: &'a [u32],
    pub count: usize,
    pub ghost placed: { Places image.now end places.now count },
}

impl<'a> Strings<'a> {
    ghost use Rattle.std.specs.Prelude.{◌≡◌, ◌<◌};
    ghost use Rattle.aff_format.specs.Recorded.{recorded_string};

    // String i: the bytes from its place up to its zero, or to the end of the section. One pass over its bytes.
    #[tactic(auto, unfolding(aff_format::specs::Recorded::name_from))]
    pub fn string(&self, i: usize) -> &'a [u8]
        requires { i < self.now.count }
        ensures { result.now ≡ recorded_string self.now.image.now self.now.end self.now.places.now i }
    {
        let from = recorded::place(self.places, i);
        recorded::until_zero(&self.image[from..self.end])
    }
}
