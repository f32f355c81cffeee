// Record counts of the tables.
ghost use Rattle.std.specs.Prelude.{◌≡◌};
ghost use Rattle.aff_tables.specs.Tables.{count_differs};

use aff_format::Edition;

// Whether the record count of a section, where the edition has one, is not n.
#[tactic(auto, unfolding(crate::specs::Tables::count_differs))]
pub fn count_differs(edition: Edition, records: u64, n: usize) -> bool
    ensures { result ≡ count_differs edition records n }
{
    edition.has_counts() && records != n as u64
}
