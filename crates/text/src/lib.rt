// Text over bytes: finding a byte, decimal numbers, words that are the same, and how text is put into a lent buffer.
// It must not know what any text means.
#![tactic(auto)]

ghost use Rattle.std.specs.Prelude.{◌≡◌, ◌<◌, ◌^◌, drop};
ghost use Rattle.text.specs.Numbers.{Base, is_digit, is_shaped, number_in, number_of, bits_of};
ghost use Rattle.text.specs.Fields.{same, found_in, line_end};

pub mod put;

// The most digits of a decimal number: those of the clock's last instant.
const DIGITS: usize = 13;
// The most digits of a binary number.
const BITS: usize = 32;

// The first place from `from` on that holds the byte, if any does.
pub fn find(s: &[u8], from: usize, byte: u8) -> Option<usize>
    ensures { result ≡ found_in byte from (drop from s.now) }
{
    let place = s.get(from..)?.iter().position(|b| *b == byte)?;
    Some(from + place)
}

// The first place from `from` on that holds a newline, if any does.
pub fn line_end(s: &[u8], from: usize) -> Option<usize>
    ensures { result ≡ line_end s.now from }
{
    find(s, from, b'\n')
}

#[tactic(auto, unfolding(crate::specs::Numbers::is_digit))]
fn is_digit(b: u8, base: u8) -> bool
    requires { Base base }
    ensures { result ≡ is_digit base b }
{
    b'0' <= b && b < b'0' + base
}

// From 1 byte to the most, and no 0 in front of others.
#[tactic(auto, unfolding(crate::specs::Numbers::is_shaped))]
fn is_shaped(s: &[u8], most: usize) -> bool
    ensures { result ≡ is_shaped most s.now }
{
    !s.is_empty() && s.len() <= most && (s.len() == 1 || s[0] != b'0')
}

// The field as a number of so many digits in a base from 2 to 10, if it is one.
#[tactic(auto, using(crate::proofs::Numbers::counted_room, crate::proofs::Numbers::shaped_short), unfolding(crate::specs::Numbers::is_digit, crate::specs::Numbers::all_digits, crate::specs::Numbers::counted, crate::specs::Numbers::number_in))]
fn read_in(s: &[u8], base: u8, most: usize) -> Option<u64>
    requires { Base base × (base ^ most < 2 ^ 60) }
    ensures { result ≡ number_in base most s.now }
{
    if !is_shaped(s, most) {
        return None;
    }
    let mut n = 0;
    for &b in s {
        if !is_digit(b, base) {
            return None;
        }
        n = n * u64::from(base) + u64::from(b - b'0');
    }
    Some(n)
}

// In decimal.
pub fn read_number(s: &[u8]) -> Option<u64>
    ensures { result ≡ number_of s.now }
{
    read_in(s, 10, DIGITS)
}

// In binary.
pub fn read_bits(s: &[u8]) -> Option<u64>
    ensures { result ≡ bits_of s.now }
{
    read_in(s, 2, BITS)
}

#[tactic(auto, unfolding(crate::specs::Fields::same))]
pub fn is_word(s: &[u8], word: &[u8]) -> bool
    ensures { result ≡ same s.now word.now }
{
    s == word
}
