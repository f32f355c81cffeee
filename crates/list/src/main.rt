// The lister: reads an image of at most 65,536 bytes from standard input and prints a line for each node that is not Void, in listing order: path, type
// word, count. A refusal prints the line `refused N P` and nothing else, a longer input `too long`.
#![tactic(auto)]

use aff_listing::Choice;
use std::io;

fn main(rt: HostRuntime) -> io::Result<()> {
    aff_list::run(&mut rt.reader(), &mut io::writer(&rt), Choice::NotVoid)
}
