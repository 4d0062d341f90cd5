// What is reached: the layers of a sweep from the start, with a byte for each node, in the bytes that are lent.
ghost use Rattle.std.specs.Prelude.{◌≡◌, ◌++◌, ◌+◌, ◌≤◌, length, get_or, drop};
ghost use Rattle.mesh.specs.Tools.{sum};
ghost use Rattle.mesh.specs.Mesh.{nodes};
ghost use Rattle.maps.specs.Shelf.{map_on};
ghost use Rattle.paths.specs.Offered.{reached};
ghost use Rattle.rows.specs.Box.{far, Held};
ghost use Rattle.sweeps.specs.Sweep.{EndsOn, WaysTo};
ghost use Rattle.trails.specs.Spread.{Bits, Blank, Spread};

use maps::shelf::Shelf;
use mesh::Place;
use rows::Between;
use rows::layer::{add_layer, faulty_layer};
use sweeps::Ways;
use sweeps::bits::{over, seeded};
use sweeps::boxes::between;
use sweeps::offers::leads_on;
use sweeps::signed::hops;

// Every layer of a box, each at its own nodes, and the ways into the far corner. A loop of its own, as `ways` (sweeps) says.
fn spread(shelf: &Shelf, g: Between, bytes: &mut [u8]) -> Ways
    requires { Held shelf.now.sizes g × (nodes shelf.now.sizes ≤ length bytes.old) × Blank shelf.now.sizes bytes.old }
    ensures { WaysTo (map_on shelf.now) g (far g) result × Spread (map_on shelf.now) g (g.z.steps + 1) bytes.old bytes.new }
{
    let n = g.z.steps + 1;
    let mut rows = seeded();
    let mut faulty = [0u16; 16];
    let mut w = Ways { x: 0, y: 0, z: 0 };
    for c in 0..n {
        faulty_layer(shelf, g, c, &mut faulty);
        w = over(g, c, &faulty, &mut rows);
        add_layer(shelf.sizes, g, c, &rows, 1, bytes);
    }
    w
}

// The bytes of all nodes: what is reached from p on the way to e.
pub fn write_reached(shelf: &Shelf, p: Place, e: Place, out: &mut [u8])
    requires { EndsOn (map_on shelf.now) p e × (nodes shelf.now.sizes ≤ length out.old) }
    ensures { out.new ≡ reached (map_on shelf.now) p e ++ drop (nodes shelf.now.sizes) out.old }
{
    out[..shelf.sizes.nodes()].fill(0);
    let w = spread(shelf, between(p, e), out);
    out[shelf.sizes.number(e)] = leads_on(hops(p, e), w) as u8;
}

// The sum of the first n bytes, each 0 or 1: 16 bits hold it.
pub fn total(out: &[u8], n: usize) -> usize
    requires { (n ≤ length out.now) × (n ≤ 4096) × Bits out.now n }
    ensures { result ≡ sum n (λ k. get_or out.now k 0) }
{
    let mut t: u16 = 0;
    for &byte in &out[..n] {
        t += byte as u16;
    }
    t as usize
}
