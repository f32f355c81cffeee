// A record with what is passed with it.
use crate::belongs;
use crate::held::Held;
use crate::writer::Writer;
use aff_format::Refusal;

// What a call of make, put or close is given: the buffer's length, the record, and the two areas. Nothing is known of them.
// Beside `Opened` of aff_reader: two records with facts of their own; one generic type would have both as parameters.
#[derive(Clone, Copy, Debug, PartialEq, Eq)]
pub struct Given<'a> {
    pub size: usize,
    pub writer: Writer,
    pub text: &'a [u8],
    pub tree: &'a [u8],
}

impl<'a> Given<'a> {
    ghost use Rattle.std.specs.Prelude.{◌≡◌};
    ghost use Rattle.aff_format.specs.Answer.{first_wrong};
    ghost use Rattle.aff_format.specs.Verdict.{answer_of};
    ghost use Rattle.aff_areas.specs.Belongs.{writer_belongs, writer_checks};
    ghost use Rattle.aff_areas.specs.Given.{of};
    ghost use Rattle.aff_areas.specs.Held.{given_of};

    // Whether the record belongs to buffer and areas (24). Linear in the text and the nodes.
    pub fn belongs(&self) -> bool
        ensures { result ≡ of self.now writer_belongs }
    {
        belongs::belongs(self)
    }

    // The same four as a record that belongs; else 24 or, where it is not open, 22: what make, put and close judge first.
    pub fn judge(&self) -> Result<Held<'a>, Refusal>
        ensures { answer_of (given_of result) ≡ first_wrong (of self.now writer_checks) self.now }
    {
        if !self.belongs() {
            return Err(Refusal::WrongRecord);
        }
        if !self.writer.live {
            return Err(Refusal::NotOpen);
        }
        Ok(Held { given: *self })
    }
}
