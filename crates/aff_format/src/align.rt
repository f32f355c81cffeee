// Data at multiples of 8, counted from the start of the file.
ghost use Rattle.std.specs.Prelude.{◌≡◌, ◌<◌};
ghost use Rattle.aff_format.specs.Align.{padding as padding_at};

// How many bytes there are from a place to the lowest multiple of 8 at or above it.
#[tactic(auto, unfolding(crate::specs::Align::padding))]
pub fn padding(place: usize) -> usize
    ensures value { result ≡ padding_at place }
    ensures few { result < 8 }
{
    (8 - place % 8) % 8
}
