// Sums of what is passed, and the writer's record, to an output.
use aff_write::Writer;
use std::io;
use std::io::Write;
use test_dump::show;

// A space and the MD5 sum of the bytes.
pub fn sum(out: &mut impl Write, bytes: &[u8]) -> io::Result<()> {
    let sum = u128::from_be_bytes(aff_md5::md5(bytes));
    write!(out, " {sum:032x}")
}

// The record: length, edition, strings, bytes of text, nodes, end of data, whether it is open; and its form.
pub fn print(out: &mut impl Write, writer: &Writer) -> io::Result<()> {
    write!(
        out,
        ", record {} {} {} {} {} {}",
        writer.length, writer.edition, writer.strings, writer.text, writer.nodes, writer.end
    )?;
    let live = if writer.live { "open" } else { "shut" };
    write!(out, " {live} ")?;
    show::hex(out, &writer.form)?;
    writeln!(out)
}
