// For tests: what `list` or `listall` prints of an image, by the same functions, with a block above 1,024 bytes shown by its length and its MD5 sum.
#![tactic(auto)]

use aff_list::output;
use aff_listing::Choice;
use std::io;
use std::io::Write;

// A writer that is given whole blocks.
#[derive(Drop)]
struct Brief<'a, W> {
    out: &'a mut W,
}

impl<W: Write> Write for Brief<'_, W> {
    fn write(&mut self, block: &[u8]) -> io::Result<usize> {
        let size = block.len();
        if size <= 1024 {
            console::text(self.out, block)?;
            return Ok(size);
        }
        let sum = u128::from_be_bytes(aff_md5::md5(block));
        writeln!(self.out, "{size} bytes, MD5 {sum:032x}")?;
        Ok(size)
    }

    fn flush(&mut self) -> io::Result<()> {
        self.out.flush()
    }
}

pub fn print<W: Write>(out: &mut W, image: &[u8], choice: Choice) -> io::Result<()> {
    output::print(&mut Brief { out }, image, choice)
}
