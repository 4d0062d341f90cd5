// Runs the sample that is too large for the table of samples: the map on standard input, in orientation 0. Prints each unsafe node with its mark
// byte and its component's number, then each component's record. What it must print was written by the independent search program.
#![tactic(auto)]

use components::Found;
use components::entry::compute;
use mapfile::reader::read_map;
use marks::entry::marks;
use mesh::Sizes;
use mesh::entries::place_of;
use std::io::{Read, Result, Write};
use text::Page;
use text::running::read_front;
use touching::Component;

// An unsafe node.
fn say_node<W: Write>(s: Sizes, k: usize, mark: u8, component: u16, out: &mut W) -> Result<()> {
    if let Ok(p) = place_of(s, k) {
        let mut line = Page::<4096>::blank();
        line.tell(
            b"place % % % mark % component %\n",
            &[p.x, p.y, p.z, mark as usize, component as usize],
        );
        line.print(out)?;
    }
    Ok(())
}

// All unsafe nodes.
fn say_nodes<W: Write>(s: Sizes, marked: &[u8], table: &[u16], out: &mut W) -> Result<()> {
    for (k, (&mark, &component)) in marked.iter().zip(table).enumerate() {
        if mark != 0 {
            say_node(s, k, mark, component, out)?;
        }
    }
    Ok(())
}

// A component.
fn say_component<W: Write>(i: usize, c: Component, out: &mut W) -> Result<()> {
    let mut line = Page::<4096>::blank();
    line.tell(
        b"component % nodes % from % % % to % % %\n",
        &[
            i,
            c.count as usize,
            c.x0 as usize,
            c.y0 as usize,
            c.z0 as usize,
            c.x1 as usize,
            c.y1 as usize,
            c.z1 as usize,
        ],
    );
    line.print(out)
}

// All components.
fn say_components<W: Write>(records: &[Component], out: &mut W) -> Result<()> {
    for (i, &c) in records.iter().enumerate() {
        say_component(i + 1, c, out)?;
    }
    Ok(())
}

// All of it.
fn say_map<W: Write>(s: Sizes, cells: &[u8], out: &mut W) -> Result<()> {
    let mut marked = [0u8; 4096];
    let mut table = [0u16; 4096];
    let _ = marks(s, cells, 0, &mut marked);
    let mut found = Found::none();
    let _ = compute(s, cells, 0, &mut table, 4096, &mut found);
    say_nodes(s, &marked, &table, out)?;
    say_components(found.as_slice(), out)
}

// The sample that is read, and all of it printed.
fn run<R: Read, W: Write>(from: &mut R, out: &mut W) -> Result<()> {
    let mut file = [0u8; 65536];
    let n = read_front(from, &mut file)?;
    let mut cells = [0u8; 4096];
    if let Ok(s) = read_map(&file[..n], &mut cells) {
        let n = s.nodes();
        say_map(s, &cells[..n], out)?;
    }
    Ok(())
}

fn main(rt: HostRuntime) -> Result<()> {
    run(&mut rt.stdin(), &mut rt.stdout())
}
