// Reads a map file from standard input, and prints the report on it.
#![tactic(auto)]

use std::io;

fn main(rt: HostRuntime) -> io::Result<()> {
    report::running::run(&mut rt.stdin(), &mut rt.stdout())
}
