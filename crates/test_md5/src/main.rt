// Runs `md5` and writes each digest as a line of hexadecimal digits: the seven messages of RFC 1321, section A.5, and then the messages
// of every length from 0 to 200 bytes, in which byte i is i modulo 251. The file `stdout` is what the program must write; it was made
// by another implementation, Python's hashlib.
#![tactic(auto)]

use std::io;
use std::io::Write;

// Writes a digest, as 32 hexadecimal digits and the end of the line: one write a line.
fn show(out: &mut impl Write, digest: [u8; 16]) -> io::Result<()> {
    let sum = u128::from_be_bytes(digest);
    let mut line = [b'\n'; 33];
    let mut digits = &mut line[..32];
    write!(digits, "{sum:032x}")?;
    out.write_all(&line)
}

// The messages of RFC 1321, section A.5.
fn examples(out: &mut impl Write) -> io::Result<()> {
    show(out, aff_md5::md5(b""))?;
    show(out, aff_md5::md5(b"a"))?;
    show(out, aff_md5::md5(b"abc"))?;
    show(out, aff_md5::md5(b"message digest"))?;
    show(out, aff_md5::md5(b"abcdefghijklmnopqrstuvwxyz"))?;
    show(
        out,
        aff_md5::md5(b"ABCDEFGHIJKLMNOPQRSTUVWXYZabcdefghijklmnopqrstuvwxyz0123456789"),
    )?;
    show(
        out,
        aff_md5::md5(
            b"12345678901234567890123456789012345678901234567890123456789012345678901234567890",
        ),
    )
}

// The messages of every length from 0 to 200 bytes.
fn lengths(out: &mut impl Write) -> io::Result<()> {
    let message: [u8; 200] = std::array::from_fn(|i| (i % 251) as u8);
    for n in 0..=200 {
        show(out, aff_md5::md5(&message[..n]))?;
    }
    Ok(())
}

fn main(rt: HostRuntime) -> io::Result<()> {
    let mut out = io::writer(&rt);
    examples(&mut out)?;
    lengths(&mut out)
}
