// The record of a file that is being written.
ghost use Rattle.std.specs.Prelude.{◌≡◌, ◌+◌, ◌≤◌, ◌<◌, ◌^◌, length};
ghost use Rattle.aff_format.specs.Edition.{least_header, most_header};
ghost use Rattle.aff_format.specs.Limits.{node_limit};
ghost use Rattle.aff_areas.specs.Writer.{data_place, no_writer, fresh_writer, stopped};

use aff_format::{Edition, bytes};

// What begin, make and put leave for the next call: the buffer's length, the number of the edition, the 12 bytes of form, how many strings and how many bytes of text,
// how many nodes, the place where the data end, and whether the file is neither closed nor stopped.
// The edition stays a number and `live` a flag, since C hands in any record: 24 and 22 judge both (`writer_checks`).
#[derive(Clone, Copy, Debug, PartialEq, Eq)]
pub struct Writer {
    pub length: usize,
    pub edition: u32,
    pub form: [u8; 12],
    pub strings: usize,
    pub text: usize,
    pub nodes: usize,
    pub end: usize,
    pub live: bool,
}

impl Writer {
    // The all-zero record: what a begin refused by 1, 3 or 21 leaves.
    pub fn none() -> Writer
        ensures { result ≡ no_writer }
    {
        Writer {
            length: 0,
            edition: 0,
            form: [0; 12],
            strings: 0,
            text: 0,
            nodes: 0,
            end: 0,
            live: false,
        }
    }

    // The record of an accepted begin. No data yet: they end where they begin.
    pub fn fresh(edition: u32, size: usize, form: &[u8]) -> Writer
        requires { length form.now ≡ 12 }
        ensures { result ≡ fresh_writer edition size form.now }
    {
        Writer {
            length: size,
            edition,
            form: form_of(form),
            end: Edition::by_number(edition).header_size(),
            live: true,
            ..Writer::none()
        }
    }

    // Where the data of the file begin: after the header of its edition.
    pub fn data_place(&self) -> usize
        ensures value { result ≡ data_place self.now }
        ensures least { least_header ≤ result }
        ensures most { result ≤ most_header }
    {
        Edition::by_number(self.edition).header_size()
    }

    // The record, but closed or stopped.
    pub fn stopped(self) -> Writer
        ensures { result ≡ stopped self }
    {
        Writer {
            live: false,
            ..self
        }
    }

    // The record with one node more, and so many strings and so many bytes of text.
    pub fn with_child(self, strings: usize, text: usize) -> Writer
        requires few_nodes { self.nodes < node_limit }
        requires strings_fit { self.strings + strings < 2 ^ 63 }
        requires text_fits { self.text + text < 2 ^ 63 }
        ensures { result ≡ record { length = self.length; edition = self.edition; form = self.form; strings = self.strings + strings; text = self.text + text; nodes = self.nodes + 1; end = self.end; live = self.live } }
    {
        Writer {
            strings: self.strings + strings,
            text: self.text + text,
            nodes: self.nodes + 1,
            ..self
        }
    }

    // The record with another end of data.
    pub fn with_end(self, end: usize) -> Writer
        ensures { result ≡ record { length = self.length; edition = self.edition; form = self.form; strings = self.strings; text = self.text; nodes = self.nodes; end = end; live = self.live } }
    {
        Writer { end, ..self }
    }
}

// The 12 bytes of a form. A copy: 1 has judged the length.
fn form_of(form: &[u8]) -> [u8; 12]
    requires { length form.now ≡ 12 }
    ensures { result ≡ form.now }
{
    let mut out = [0u8; 12];
    out.copy_from_slice(form);
    out
}
