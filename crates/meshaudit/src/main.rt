// Prints the audit of a log of transfers on a map. Arguments are a map file and a log, or several such pairs.
#![tactic(auto)]

use audit::running::run;
use audit::usage::usage;
use std::env::Env;
use std::fs::Files;
use std::io::{Read, Result, Write};
use text::Page;
use text::running::{arg_count, open_named};

// Prints how to call the program.
fn help<W: Write>(out: &mut W) -> Result<()> {
    let mut page = Page::<4096>::blank();
    usage(&mut page);
    page.print(out)
}

// The audit of an open log, on the map that an argument names.
fn audit_with<H: Env + Files, L: Read, W: Write, E: Write>(
    rt: &H,
    i: usize,
    log: &mut L,
    out: &mut W,
    err: &mut E,
) -> Result<()> {
    match open_named(rt, out, err, b"map ", i)? {
        Some(mut map) => run(&mut map, log, out),
        None => Ok(()),
    }
}

// The audit of the map and the log that two arguments name.
fn audit_pair<H: Env + Files, W: Write, E: Write>(
    rt: &H,
    i: usize,
    j: usize,
    out: &mut W,
    err: &mut E,
) -> Result<()> {
    match open_named(rt, out, err, b"log ", j)? {
        Some(mut log) => audit_with(rt, i, &mut log, out, err),
        None => Ok(()),
    }
}

fn main(rt: HostRuntime) -> Result<()> {
    let mut out = rt.stdout();
    let mut err = rt.stderr();
    let n = arg_count(&rt);
    for i in 1..n / 2 + n % 2 {
        audit_pair(&rt, 2 * i - 1, 2 * i, &mut out, &mut err)?;
    }
    if n % 2 == 0 || n == 1 {
        help(&mut out)?;
    }
    Ok(())
}
