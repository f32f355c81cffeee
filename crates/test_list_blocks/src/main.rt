// The program `listall` again, run here on an image whose text takes more than one block.
#![tactic(auto)]

use aff_listing::Choice;
use std::io;

fn main(rt: HostRuntime) -> io::Result<()> {
    aff_list::run(&mut rt.reader(), &mut io::writer(&rt), Choice::AllNodes)
}
