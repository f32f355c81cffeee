// The lister of all nodes, for inventories: as `list`, with a line for every node, the root and the other Void nodes included.
#![tactic(auto)]

use aff_listing::Choice;
use std::io;

fn main(rt: HostRuntime) -> io::Result<()> {
    aff_list::run(&mut rt.reader(), &mut io::writer(&rt), Choice::AllNodes)
}
