// A row of bits to bytes: bit k is that of the node k steps on. Eight bytes are one word, in which no sum of two bytes goes over into the next.
ghost use Rattle.std.specs.Prelude.{◌≡◌, ℕ, ◌+◌, ◌*◌, ◌/◌, ◌%◌, ◌≤◌, ◌<◌, length, get_or};
ghost use Rattle.mesh.specs.Tools.{bit};
ghost use Rattle.rows.specs.Row.{bit_at, onwards, Span};
ghost use Rattle.rows.specs.Bytes.{joined, turned, Takes, Added};

use crate::bytes::{ONES, put, word};
use crate::{lowest, onwards};

// Bits 0 to 6 of each of eight bytes.
const REST: u64 = 0x7f7f_7f7f_7f7f_7f7f;

// Bit k of byte k, for each of eight bytes.
const UP: u64 = 0x8040_2010_0804_0201;

// Bit 7 - k of byte k.
const DOWN: u64 = 0x0102_0408_1020_4080;

// Eight bits, one to a byte. All of them stand in each byte of the product; the mask keeps one, and the sum takes that to bit 7.
fn spread(bits: u64, down: bool) -> u64
    requires { bits < 256 }
    ensures { result ≡ joined (λ k. bit (bit_at bits (turned down k))) 8 }
{
    let mask = if down { DOWN } else { UP };
    (((bits * ONES) & mask) + REST) / 128 & ONES
}

// The bytes of eight nodes as one word, v added where the bit is 1.
fn eight(bits: u16, v: u8, out: &[u8], p: usize, down: bool) -> u64
    requires { (bits < 256) × (p + 8 ≤ length out.now) × ((k : ℕ) → k < 8 → get_or out.now (p + k) 0 + v ≤ 255) }
    ensures { result ≡ joined (λ k. get_or out.now (p + k) 0 + v * bit (bit_at bits (turned down k))) 8 }
{
    word(out, p) + v as u64 * spread(bits as u64, down)
}

// w nodes, one by one.
fn few(bits: u16, v: u8, out: &mut [u8], from: usize, w: usize, down: bool)
    requires { (w ≤ 16) × Span out.old down from w × Takes out.old down from w v }
    ensures { Added out.old out.new down from w bits v }
{
    for k in 0..w {
        out[onwards(from, k, down)] += v * ((bits >> k) % 2) as u8;
    }
}

// Adds v to the byte of each of w nodes, from one on, whose bit is 1: the first eight and the last eight, which may meet. Both are read before one is
// written: so v is added once where they meet, and no read waits for a write.
pub fn add_row(bits: u16, v: u8, out: &mut [u8], from: usize, w: usize, down: bool)
    requires { (w ≤ 16) × Span out.old down from w × Takes out.old down from w v }
    ensures { Added out.old out.new down from w bits v }
{
    if w < 8 {
        few(bits, v, out, from, w, down);
        return;
    }
    let p = lowest(from, 0, down);
    let q = lowest(from, w - 8, down);
    let x = eight(bits % 256, v, out, p, down);
    let y = eight((bits >> (w - 8)) % 256, v, out, q, down);
    put(y, out, q);
    put(x, out, p);
}
