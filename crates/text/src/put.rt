// How text goes into a lent buffer: each function puts its text at a place and hands back the place after it.
ghost use Rattle.std.specs.Prelude.{◌≡◌, ◌+◌, ◌≤◌, ◌<◌, [], ◌∷◌, ◌++◌, length};
ghost use Rattle.text.specs.Put.{Put};
ghost use Rattle.text.specs.Numbers.{Base, numeral, digits, bits};

pub fn byte(out: &mut [u8], at: usize, b: u8) -> usize
    requires { at < length out.old }
    ensures { Put out.old out.new at result (b ∷ []) }
{
    out[at] = b;
    at + 1
}

pub fn text(out: &mut [u8], at: usize, bytes: &[u8]) -> usize
    requires { at + length bytes.now ≤ length out.old }
    ensures { Put out.old out.new at result bytes.now }
{
    let mut to = at;
    for b in bytes {
        to = byte(out, to, *b);
    }
    to
}

// In a base from 2 to 10.
fn number_in(out: &mut [u8], at: usize, n: u64, base: u8) -> usize
    requires { Base base × (at + length (numeral base n) ≤ length out.old) }
    ensures { Put out.old out.new at result (numeral base n) }
{
    let times = u64::from(base);
    let last = b'0' + (n % times) as u8;
    if n < times {
        return byte(out, at, last);
    }
    let to = number_in(out, at, n / times, base);
    byte(out, to, last)
}

// In decimal.
pub fn number(out: &mut [u8], at: usize, n: u64) -> usize
    requires { at + length (digits n) ≤ length out.old }
    ensures { Put out.old out.new at result (digits n) }
{
    number_in(out, at, n, 10)
}

// A number between two words.
#[tactic(auto, using(crate::proofs::Numbers::digits_wide, crate::proofs::Texts::put_length))]
pub fn worded(out: &mut [u8], at: usize, front: &[u8], n: u64, back: &[u8]) -> usize
    requires { at + (length front.now + (20 + length back.now)) ≤ length out.old }
    ensures { Put out.old out.new at result (front.now ++ (digits n ++ back.now)) }
{
    let a = text(out, at, front);
    let b = number(out, a, n);
    text(out, b, back)
}

// In binary.
pub fn bits(out: &mut [u8], at: usize, n: u64) -> usize
    requires { at + length (bits n) ≤ length out.old }
    ensures { Put out.old out.new at result (bits n) }
{
    number_in(out, at, n, 2)
}

// How many digits a number has in a base from 2 to 10.
fn width_in(n: u64, base: u8) -> usize
    requires { Base base }
    ensures { (result ≡ length (numeral base n)) × (result ≤ 64) }
{
    n.max(1).ilog(u64::from(base)) as usize + 1
}

// How many bytes a number takes in decimal.
pub fn width(n: u64) -> usize
    ensures { (result ≡ length (digits n)) × (result ≤ 64) }
{
    width_in(n, 10)
}

// And in binary.
pub fn width_in_bits(n: u64) -> usize
    ensures { (result ≡ length (bits n)) × (result ≤ 64) }
{
    width_in(n, 2)
}
