// The programs' text on a page of N bytes: a byte, a word, a decimal, eight hexadecimal digits, one after the other. Each
// function puts as much as there is room for, so that none can fail and none asks for room: a program shows once, of its
// whole text, that it fits.
// Stays: functions of our own and no `Display`, since std's `Write` promises only what a write that succeeds has written, and
// a text that is put here can't be refused.
#![tactic(auto)]

pub mod aligned;

ghost use Rattle.std.specs.Prelude.{List, ℕ, ◌≡◌, [], ◌∷◌};
ghost use Rattle.lines.specs.Text.{with_text, decimal_of, hex_of, field_of, refused_text};

use arrayvec::ArrayVec;
use refusal::Refusal;
use std::convert::AsSlice;
use std::marker::Model;

#[derive(Drop)]
pub struct Page<const N: usize> {
    bytes: ArrayVec<u8, N>,
}

// A page is the bytes that stand on it.
impl<const N: usize> Model for Page<N> {
    ghost Value = { List ℕ };

    ghost view = { λ p. p.bytes.items };
}

impl<const N: usize> AsSlice<u8> for Page<N> {
    ghost items = { λ p. p };

    fn as_slice(&self) -> &[u8] {
        self.text()
    }
}

impl<const N: usize> Page<N> {
    pub fn new() -> Self
        ensures { result ≡ [] }
    {
        Page {
            bytes: ArrayVec::new(),
        }
    }

    pub fn text(&self) -> &[u8]
        ensures { result.now ≡ self.now }
    {
        self.bytes.as_slice()
    }

    pub fn put_byte(&mut self, b: u8)
        ensures { self.new ≡ with_text N self.old (b ∷ []) }
    {
        if !self.bytes.is_full() {
            self.bytes.push(b);
        }
    }

    pub fn put_word(&mut self, word: &[u8])
        ensures { self.new ≡ with_text N self.old word.now }
    {
        for b in word {
            self.put_byte(*b);
        }
    }

    // n in decimal digits, with no zero in front.
    pub fn put_decimal(&mut self, n: u64)
        ensures { self.new ≡ with_text N self.old (decimal_of n) }
    {
        let mut digits = [0u8; 20];
        let k = io::decimal(n, &mut digits);
        self.put_word(&digits[..k]);
    }

    // n in eight lower-case hexadecimal digits.
    pub fn put_hex(&mut self, n: u32)
        ensures { self.new ≡ with_text N self.old (hex_of n) }
    {
        let mut digits = [0u8; 16];
        let k = io::hex(n as u64, 8, &mut digits);
        self.put_word(&digits[..k]);
    }

    // A field after another: one space, then n in decimal digits.
    #[tactic(auto, using(crate::proofs::Placing::putting), unfolding(crate::specs::Text::field_of))]
    pub fn put_field(&mut self, n: u64)
        ensures { self.new ≡ with_text N self.old (field_of n) }
    {
        self.put_byte(b' ');
        self.put_decimal(n);
    }

    // All that a program prints where it turns a file away.
    #[tactic(auto, using(crate::proofs::Placing::putting), unfolding(crate::specs::Text::refused_text))]
    pub fn put_refused(&mut self, r: Refusal)
        ensures { self.new ≡ with_text N self.old (refused_text r) }
    {
        self.put_word(b"refused ");
        self.put_decimal(u64::from(u32::from(r)));
        self.put_byte(b'\n');
    }
}
