// A record with what is passed with it.
use crate::belonging::Belonging;
use crate::belongs;
use crate::reader::Reader;
use aff_format::Refusal;

// What a reading call is passed: the record of an opening, and the image and the two areas that it was opened with. Nothing is known of them.
#[derive(Clone, Copy, Debug, PartialEq, Eq)]
pub struct Opened<'i, 'a> {
    pub image: &'i [u8],
    pub reader: Reader,
    pub strings: &'a [u32],
    pub entries: &'a [u32],
}

impl<'i, 'a> Opened<'i, 'a> {
    ghost use Rattle.std.specs.Prelude.{◌≡◌};
    ghost use Rattle.aff_format.specs.Answer.{first_wrong};
    ghost use Rattle.aff_format.specs.Verdict.{answer_of};
    ghost use Rattle.aff_reader.specs.Belongs.{reader_belongs};
    ghost use Rattle.aff_reader.specs.Judged.{belongs_checks, opened_of};
    ghost use Rattle.aff_reader.specs.Opened.{of};

    // Whether the record belongs to image and areas (24): over all that is recorded, whatever they hold. One pass over the strings, one over the nodes, and
    // their climbs.
    pub fn belongs(&self) -> bool
        ensures { result ≡ of self.now reader_belongs }
    {
        belongs::belongs(self)
    }

    // The same four as a record that belongs; else 24.
    pub fn judge(&self) -> Result<Belonging<'i, 'a>, Refusal>
        ensures { answer_of (opened_of result) ≡ first_wrong (of self.now belongs_checks) self.now }
    {
        if !self.belongs() {
            return Err(Refusal::WrongRecord);
        }
        Ok(Belonging { opened: *self })
    }
}
