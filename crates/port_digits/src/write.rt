// Text and numbers written into a lent buffer. Each function takes the place of the next byte and hands back the place after its own.
//
// Buffer and place go side by side: a struct that holds both would hold a lent buffer, and each contract (`paper`, `onto`) would have to name its loan.
ghost use Rattle.std.specs.Prelude.{◌≡◌, [], ◌∷◌, ◌<◌, true};
ghost use Rattle.port_digits.specs.Write.{paper, onto, digit_at, decimal, commas, commas_from};

use crate::store;

// One byte.
pub fn put(out: &mut [u8], at: usize, b: u8) -> usize
    ensures { paper out.new result ≡ onto (paper out.old at) (b ∷ []) }
{
    store(out, at, b);
    at.saturating_add(1)
}

// A text.
pub fn put_text(out: &mut [u8], at: usize, t: &[u8]) -> usize
    ensures { paper out.new result ≡ onto (paper out.old at) t.now }
{
    let mut p = at;
    for &b in t {
        p = put(out, p, b);
    }
    p
}

// The digit of v at a power of ten, where v has it.
#[tactic(auto, unfolding(crate::specs::Write::onto))]
fn put_digit(out: &mut [u8], at: usize, v: u16, power: u16) -> usize
    requires { 0 < power }
    ensures { paper out.new result ≡ onto (paper out.old at) (digit_at power v) }
{
    if v < power {
        return at;
    }
    put(out, at, (v / power % 10 + 48) as u8)
}

// A number in decimal, without leading zeros. Not by `Display`: what is promised is bytes at a place of a lent buffer, and there is no heap for a `String`.
pub fn put_number(out: &mut [u8], at: usize, v: u16) -> usize
    ensures { paper out.new result ≡ onto (paper out.old at) (decimal v) }
{
    let a = put_digit(out, at, v, 10000);
    let b = put_digit(out, a, v, 1000);
    let c = put_digit(out, b, v, 100);
    let d = put_digit(out, c, v, 10);
    put(out, d, (v % 10 + 48) as u8)
}

// Numbers with a comma before each.
fn put_others(out: &mut [u8], at: usize, vs: &[u16]) -> usize
    ensures { paper out.new result ≡ onto (paper out.old at) (commas_from true vs.now) }
{
    let mut p = at;
    for &v in vs {
        p = put(out, p, b',');
        p = put_number(out, p, v);
    }
    p
}

// Numbers with commas between.
pub fn put_list(out: &mut [u8], at: usize, vs: &[u16]) -> usize
    ensures { paper out.new result ≡ onto (paper out.old at) (commas vs.now) }
{
    match vs {
        [] => at,
        [first, others @ ..] => {
            let p = put_number(out, at, *first);
            put_others(out, p, others)
        }
    }
}
