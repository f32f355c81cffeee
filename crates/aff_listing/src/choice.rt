// Which nodes a listing has: document 02, C-12.
ghost use Rattle.std.specs.Prelude.{◌≡◌};
ghost use Rattle.aff_listing.specs.ListingOrder.{lists};

use aff_format::Kind;

// A value and no closure: `lists`, `listing_order` are functions of it, and C has a flag.
#[derive(Clone, Copy, Debug, PartialEq, Eq)]
pub enum Choice {
    AllNodes,
    NotVoid,
}

impl Choice {
    // Whether it lists a node of a type.
    pub fn lists(self, kind: Kind) -> bool
        ensures { result ≡ lists self kind }
    {
        match self {
            Choice::AllNodes => true,
            Choice::NotVoid => !kind.is_void(),
        }
    }
}
