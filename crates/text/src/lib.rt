// Text in lent bytes and on pages: words, numbers in decimal, and forms with numbers in them, one after another.
#![tactic(auto)]

pub mod running;

ghost use Rattle.std.specs.Prelude.{◌≡◌, ◌+◌, ◌*◌, ◌≤◌, [], length};
ghost use Rattle.text.specs.Text.{decimal, told, name_line, Said, Added};

use octets::put;
use std::marker::Model;

// Stores a word from a place on; the place after it.
pub fn say(word: &[u8], out: &mut [u8], at: usize) -> usize
    requires { at + length word.now ≤ length out.old }
    ensures { Said out.old at word.now out.new result }
{
    put(word, out, at);
    at + word.len()
}

// Stores a number.
fn say_number(n: usize, out: &mut [u8], at: usize) -> usize
    requires { at + 20 ≤ length out.old }
    ensures { Said out.old at (decimal n) out.new result }
{
    // An index: the digits come last first, and what lies from it on is the word, so an iterator is no plainer.
    let mut digits = [0u8; 20];
    let mut i = 19;
    let mut rest = n;
    while rest >= 10 {
        digits[i] = b'0' + (rest % 10) as u8;
        rest /= 10;
        i -= 1;
    }
    digits[i] = b'0' + rest as u8;
    say(&digits[i..], out, at)
}

// Stores a form with its numbers: a form and no `write!`, since definition (`told`) and code have the same words.
pub fn tell(form: &[u8], numbers: &[usize], out: &mut [u8], at: usize) -> usize
    requires { at + (length form.now + 20 * length numbers.now) ≤ length out.old }
    ensures { Said out.old at (told form.now numbers.now) out.new result
        × (result ≤ at + (length form.now + 20 * length numbers.now)) }
{
    let mut next = at;
    let mut left = numbers;
    for &b in form {
        if b == b'%' {
            if let Some((&n, more)) = left.split_first() {
                next = say_number(n, out, next);
                left = more;
                continue;
            }
        }
        out[next] = b;
        next += 1;
    }
    next
}

// A page with room for N bytes, and how many of them are written: no heap is used. A contract sees what is written.
#[derive(Drop)]
pub struct Page<const N: usize> {
    bytes: [u8; N],
    used: usize,
}

impl<const N: usize> Model for Page<N> {
    ghost use Rattle.std.specs.Prelude.{ℕ, ◌≤◌, List, take};

    ghost Value = { List ℕ };

    ghost view = { λ p. take p.used p.bytes };

    ghost invariant = { λ p. p.used ≤ N };
}

impl<const N: usize> Page<N> {
    // A blank page.
    pub fn blank() -> Self
        ensures { result ≡ [] }
    {
        Page {
            bytes: [0; N],
            used: 0,
        }
    }

    // Nothing is written any more.
    pub fn clear(&mut self)
        ensures { self.new ≡ [] }
    {
        self.used = 0;
    }

    // What is written.
    pub fn text(&self) -> &[u8]
        ensures { result.now ≡ self.now }
    {
        &self.bytes[..self.used]
    }

    // Writes a word.
    pub fn say(&mut self, word: &[u8])
        requires { length self.old + length word.now ≤ N }
        ensures { Added self.old word.now (length word.now) self.new }
    {
        self.used = say(word, &mut self.bytes, self.used);
    }

    // Writes a form with its numbers.
    pub fn tell(&mut self, form: &[u8], numbers: &[usize])
        requires { length self.old + (length form.now + 20 * length numbers.now) ≤ N }
        ensures { Added self.old (told form.now numbers.now) (length form.now + 20 * length numbers.now) self.new }
    {
        self.used = tell(form, numbers, &mut self.bytes, self.used);
    }

    // Writes the line that names a file.
    pub(crate) fn name(&mut self, word: &[u8], path: &[u8])
        requires { length self.old + (length word.now + length path.now + 1) ≤ N }
        ensures { Added self.old (name_line word.now path.now) (length word.now + length path.now + 1) self.new }
    {
        self.say(word);
        self.say(path);
        self.say(b"\n");
    }
}
