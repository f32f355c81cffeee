// The cut drill: makes the worked file of document 01 in a buffer of 214 zero bytes with every total allowance K from 0 to 215, and prints a
// line for each: `K refused 3 0` up to 214, then `215 opened`. The file stdout is from
// python3 -c "[print(k, 'refused 3 0') for k in range(215)]; print('215 opened')"
#![tactic(auto)]

use std::io;
use std::io::Write;

fn line(out: &mut impl Write, allowance: usize) -> io::Result<()> {
    let mut buffer = [0u8; 214];
    match aff_drill::drill(&mut buffer, allowance) {
        Ok(()) => writeln!(out, "{allowance} opened"),
        Err(refusal) => writeln!(out, "{allowance} {refusal}"),
    }
}

fn main(rt: HostRuntime) -> io::Result<()> {
    let mut out = io::writer(&rt);
    for allowance in 0..216 {
        line(&mut out, allowance)?;
    }
    Ok(())
}
