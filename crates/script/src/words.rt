//! What is left to read of a script, and the items that are read from its front: numbers, floats by
//! their bits, phones, lists of them.

ghost use Rattle.std.specs.Prelude.{[], ◌∷◌, ◌++◌, Contains, ◌≡◌, ◌<◌, ◌*◌, ◌%◌, ◌^◌, ℕ, List, length, min, take, drop, get_or, set, slice_index};
ghost use Rattle.std.specs.Float.{binary32, binary64};
ghost use Rattle.std.specs.Float.Ieee.{of_bits};
ghost use Rattle.script.specs.Words.{value_at_front, behind_number, signed_at_front, behind_signed, phone_of, items_read, behind_items, half_of, hex_at};

use super::{Signed, byte_at, digit, double, float, number, signed_number};

/// What is left to read of a script. A number is passed together with the byte that ends it.
#[derive(Clone, Copy)]
pub struct Words<'a> {
    pub rest: &'a [u8],
}

/// What stands in a list of a script, one after the other.
pub trait Item: Copy {
    // the item at the front of a text, and what is left of the text behind it
    ghost item: { List ℕ → Self };

    ghost behind: { List ℕ → List ℕ };

    fn read(words: &mut Words<'_>) -> Self
        ensures item { result ≡ item words.old.rest.now }
        ensures behind { words.new.rest.now ≡ behind words.old.rest.now };
}

/// A decimal number.
impl Item for usize {
    ghost item = { value_at_front 10 };

    ghost behind = { behind_number 10 };

    fn read(words: &mut Words<'_>) -> usize {
        words.number(10)
    }
}

/// A float by its bits.
impl Item for f32 {
    ghost item = { λ text. of_bits binary32 (value_at_front 16 text % 2 ^ 32) };

    ghost behind = { behind_number 16 };

    fn read(words: &mut Words<'_>) -> f32 {
        float(words.number(16))
    }
}

impl Item for f64 {
    ghost item = { λ text. of_bits binary64 (value_at_front 16 text) };

    ghost behind = { behind_number 16 };

    fn read(words: &mut Words<'_>) -> f64 {
        double(words.number(16))
    }
}

/// The bits of a float.
impl Item for u32 {
    ghost item = { λ text. value_at_front 16 text % 2 ^ 32 };

    ghost behind = { behind_number 16 };

    fn read(words: &mut Words<'_>) -> u32 {
        (words.number(16) % 0x1_0000_0000) as u32
    }
}

/// A byte.
impl Item for u8 {
    ghost item = { λ text. value_at_front 16 text % 256 };

    ghost behind = { behind_number 16 };

    fn read(words: &mut Words<'_>) -> u8 {
        (words.number(16) % 256) as u8
    }
}

/// A phone.
impl Item for i32 {
    ghost item = { λ text. phone_of (signed_at_front text) };

    ghost behind = { behind_signed };

    fn read(words: &mut Words<'_>) -> i32 {
        let by = words.signed();
        let phone = (by.size % 0x4000_0000) as i32;
        if by.minus { 0 - phone } else { phone }
    }
}

impl<'a> Words<'a> {
    /// The first letter and the byte behind it are passed; 0 where nothing is left.
    pub fn letter(&mut self) -> u8
        ensures letter { result ≡ get_or self.old.rest.now 0 0 }
        ensures behind { self.new.rest.now ≡ drop 2 self.old.rest.now }
    {
        let letter = byte_at(self.rest, 0);
        self.rest = after(self.rest, 2);
        letter
    }

    /// The word here, which a space ends; the space is passed. Where none follows there is no word,
    /// and nothing is left.
    pub fn word(&mut self) -> &'a [u8]
        ensures word { Contains self.old.rest.now 32
            → self.old.rest.now ≡ result.now ++ (32 ∷ self.new.rest.now) }
        ensures no_space { ¬ (Contains result.now 32) }
        ensures none { ¬ (Contains self.old.rest.now 32)
            → (result.now ≡ []) × (self.new.rest.now ≡ []) }
    {
        let text = self.rest;
        match text.iter().position(|b| *b == b' ') {
            Some(n) => {
                self.rest = &text[n + 1..];
                &text[..n]
            }
            None => {
                self.rest = b"";
                b""
            }
        }
    }

    /// The number here, in a base of at most 16.
    pub fn number(&mut self, base: usize) -> usize
        ensures value { result ≡ value_at_front base self.old.rest.now }
        ensures behind { self.new.rest.now ≡ behind_number base self.old.rest.now }
    {
        let n = number(self.rest, 0, base);
        self.rest = after(self.rest, n.next);
        n.value
    }

    /// The decimal number here, which may have a minus sign; its place is that behind it in what
    /// was left.
    pub fn signed(&mut self) -> Signed
        ensures value { result ≡ signed_at_front self.old.rest.now }
        ensures behind { self.new.rest.now ≡ behind_signed self.old.rest.now }
    {
        let by = signed_number(self.rest, 0);
        self.rest = after(self.rest, by.next);
        by
    }

    /// n items, into a room as far as it has places.
    pub fn fill<T: Item>(&mut self, n: usize, room: &mut [T])
        ensures items { room.new ≡ items_read T.item T.behind self.old.rest.now n room.old }
        ensures behind { self.new.rest.now ≡ behind_items T.behind self.old.rest.now n }
    {
        // What is past the end of the room is read too.
        for i in 0..n {
            let x = T::read(self);
            put(room, i, x);
        }
    }

    /// A list, which is a decimal number and so many items: as many of them as the room has places
    /// for.
    pub fn list<'r, T: Item>(&mut self, room: &'r mut [T]) -> &'r [T]
        ensures items { result.now ≡ take (value_at_front 10 self.old.rest.now)
            (items_read T.item T.behind (behind_number 10 self.old.rest.now)
            (value_at_front 10 self.old.rest.now) room.old) }
        ensures behind { self.new.rest.now
            ≡ behind_items T.behind (behind_number 10 self.old.rest.now)
            (value_at_front 10 self.old.rest.now) }
    {
        let n = self.number(10);
        self.fill(n, room);
        front(room, n)
    }

    /// Bytes by two hexadecimal digits each behind a decimal number of them: as many as the room
    /// has places for.
    pub fn bytes<'r>(&mut self, room: &'r mut [u8]) -> &'r [u8]
        ensures length { length result.now
            ≡ min (value_at_front 10 self.old.rest.now) (length room.old) }
        ensures bytes { (i : ℕ) → i < length result.now
            → slice_index result.now i ≡ hex_at (behind_number 10 self.old.rest.now) i }
        ensures behind { self.new.rest.now
            ≡ drop (2 * length result.now) (behind_number 10 self.old.rest.now) }
    {
        let n = self.number(10).min(room.len());
        let digits = self.rest;
        // By index: byte k has digits 2 k and 2 k + 1, and the text may end before them.
        for k in 0..n {
            room[k] = half(byte_at(digits, 2 * k)) * 16 + half(byte_at(digits, 2 * k + 1));
        }
        self.rest = after(digits, 2 * n);
        &room[..n]
    }
}

// Half a byte, by its digit; what is no digit counts as 0.
fn half(byte: u8) -> u8
    ensures value { result ≡ half_of byte }
    ensures bound { result < 16 }
{
    digit(byte).map_or(0, |d| d as u8)
}

/// The first n places of a room, or all of them.
pub fn front<T>(room: &[T], n: usize) -> &[T]
    ensures { result.now ≡ take n room.now }
{
    &room[..n.min(room.len())]
}

/// The same, to be written.
pub fn lend<T>(room: &mut [T], n: usize) -> &mut [T]
    ensures { result.now ≡ take n room.old }
{
    let n = n.min(room.len());
    &mut room[..n]
}

// An item at a place that a room has; nothing at one past its end.
fn put<T: Copy>(room: &mut [T], i: usize, x: T)
    ensures { room.new ≡ set room.old i x }
{
    if i < room.len() {
        room[i] = x;
    }
}

// What is left of a text behind its first n bytes.
fn after(text: &[u8], n: usize) -> &[u8]
    ensures { result.now ≡ drop n text.now }
{
    &text[n.min(text.len())..]
}
