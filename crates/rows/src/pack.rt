// One bit of each cell of a row as a number: bit k is that of the node k steps on. Bit j of a cell is one property of its node; bit 0: faulty.
ghost use Rattle.std.specs.Prelude.{◌≡◌, ◌+◌, ◌-◌, ◌*◌, ◌/◌, ◌%◌, ◌^◌, ◌≤◌, ◌<◌, length, get_or};
ghost use Rattle.mesh.specs.Tools.{bit};
ghost use Rattle.rows.specs.Row.{bit_at, packed, says, Span};
ghost use Rattle.rows.specs.Bytes.{joined};

use crate::bytes::{ONES, word};
use crate::{full, onwards};

// Bits 0 and 1 of every second byte of a word.
const PAIRS: u64 = 0x0003_0003_0003_0003;

// The cells of eight nodes downwards as one word, the first lowest. They are named one by one: of eight at once that `from_be_bytes` or `swap_bytes` turns
// round the compiler makes, where a row is shorter than sixteen, 108 instructions a row and not 62.
fn back(cells: &[u8], from: usize) -> u64
    requires { (7 ≤ from) × (from < length cells.now) }
    ensures { result ≡ joined (λ k. get_or cells.now (from - k) 0) 8 }
{
    u64::from_le_bytes([
        cells[from],
        cells[from - 1],
        cells[from - 2],
        cells[from - 3],
        cells[from - 4],
        cells[from - 5],
        cells[from - 6],
        cells[from - 7],
    ])
}

// Bit j of each of a word's bytes, two by two, the pairs sixteen bits apart.
fn pairs(x: u64, j: usize) -> u64
    requires { j < 8 }
    ensures { (result ≤ 0x0003_0003_0003_0003) × (result ≡ packed (λ k. bit_at x (8 * k + j)) 2 + 65536 * (packed (λ k. bit_at x (8 * (2 + k) + j)) 2 + 65536 * (packed (λ k. bit_at x (8 * (4 + k) + j)) 2 + 65536 * packed (λ k. bit_at x (8 * (6 + k) + j)) 2))) }
{
    let m = (x >> j) & ONES;
    (m + m / 128) & PAIRS
}

// Bit j of each byte of two words. The pairs of the second stand between those of the first; each sum brings twice as many together.
fn both(x: u64, y: u64, j: usize) -> u16
    requires { j < 8 }
    ensures { result ≡ packed (λ k. bit_at x (8 * k + j)) 8 + 256 * packed (λ k. bit_at y (8 * k + j)) 8 }
{
    let m = pairs(x, j) + pairs(y, j) * 256;
    let n = m + m / 16384;
    ((n + n / 268435456) % 65536) as u16
}

// Sixteen nodes. It is inlined at both calls, which are in the innermost loop, and so each way there is a loop of its own.
#[inline(always)]
fn sixteen(cells: &[u8], j: usize, from: usize, down: bool) -> u16
    requires { (j < 8) × Span cells.now down from 16 }
    ensures { result ≡ packed (says cells.now j down from) 16 }
{
    if down {
        return both(back(cells, from), back(cells, from - 8), j);
    }
    both(word(cells, from), word(cells, from + 8), j)
}

// w bits, after the first i.
fn some(bits: u16, i: usize, w: usize) -> u16
    requires { (i < 16) × (w ≤ 16) }
    ensures { result ≡ bits / 2 ^ i % 2 ^ w }
{
    (bits >> i) & full(w)
}

// One node.
#[tactic(auto, using(crate::proofs::Bits::read_at))]
fn one(cells: &[u8], j: usize, from: usize, k: usize, down: bool) -> u16
    requires { (j < 8) × Span cells.now down from (k + 1) }
    ensures { result ≡ bit (says cells.now j down from k) }
{
    ((cells[onwards(from, k, down)] >> j) % 2) as u16
}

// w nodes, one by one: a map of fewer than sixteen.
fn few(cells: &[u8], j: usize, from: usize, w: usize, down: bool) -> u16
    requires { (j < 8) × Span cells.now down from w × (w ≤ 16) }
    ensures { result ≡ packed (says cells.now j down from) w }
{
    let mut bits = 0;
    for k in (0..w).rev() {
        bits = bits * 2 + one(cells, j, from, k, down);
    }
    bits
}

// Bit j of the cells of w nodes from one on: sixteen, or some of sixteen, which near an end of the map begin before them.
pub fn pack_row(cells: &[u8], j: usize, from: usize, w: usize, down: bool) -> u16
    requires { (j < 8) × Span cells.now down from w × (0 < w) × (w ≤ 16) }
    ensures { result ≡ packed (says cells.now j down from) w }
{
    if w == 16 {
        return sixteen(cells, j, from, down);
    }
    let n = cells.len();
    if n < 16 {
        return few(cells, j, from, w, down);
    }
    let first = if down { from.max(15) } else { from.min(n - 16) };
    some(sixteen(cells, j, first, down), first.abs_diff(from), w)
}
