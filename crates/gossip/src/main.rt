// Reads a map file from standard input, and prints how its nodes tell each other their marks.
#![tactic(auto)]

use std::io;

fn main(rt: HostRuntime) -> io::Result<()> {
    gossiping::running::run(&mut rt.stdin(), &mut rt.stdout())
}
