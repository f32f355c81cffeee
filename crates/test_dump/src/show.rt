// Bytes and answers to a writer.
use aff_format::Refusal;
use std::io;
use std::io::Write;

// The bytes, each by two digits.
pub fn hex(out: &mut impl Write, bytes: &[u8]) -> io::Result<()> {
    for byte in bytes {
        write!(out, "{byte:02x}")?;
    }
    Ok(())
}

// `accepted N` or `refused N P`.
pub fn answer(out: &mut impl Write, answer: Result<usize, Refusal>) -> io::Result<()> {
    match answer {
        Ok(n) => write!(out, "accepted {n}"),
        Err(refusal) => write!(out, "{refusal}"),
    }
}
