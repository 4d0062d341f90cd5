// Prints the rounds on each file that an argument names, under its name. What `gossip` prints is tried by it on several files in one run. `meshreports` is
// its twin: one function for both would be public, and no contract could say what it prints.
#![tactic(auto)]

use gossiping::running::run;
use std::io;
use text::running::{arg_count, open_named};

fn main(rt: HostRuntime) -> io::Result<()> {
    let mut out = rt.stdout();
    let mut err = rt.stderr();
    for i in 1..arg_count(&rt) {
        if let Some(mut file) = open_named(&rt, &mut out, &mut err, b"", i)? {
            run(&mut file, &mut out)?;
        }
    }
    Ok(())
}
