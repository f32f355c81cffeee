// The program `list` again, run here on one byte above its limit.
#![tactic(auto)]

use aff_listing::Choice;
use std::io;

fn main(rt: HostRuntime) -> io::Result<()> {
    aff_list::run(&mut rt.reader(), &mut io::writer(&rt), Choice::NotVoid)
}
