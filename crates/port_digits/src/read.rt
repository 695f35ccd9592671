// Decimal numbers, and lists of them with commas between.
ghost use Rattle.std.specs.Prelude.{◌≡◌, false};
ghost use Rattle.port_digits.specs.Read.{is_digit, cut, longer, items_from, numbers_in, reading, reading_of, number_in};

use crate::{Listed, store};

// What stands for every number above the last word.
const LARGE: u64 = 65536;

// A number as a word, at most 65,535.
pub fn word(v: u32) -> u16
    ensures { result ≡ cut 65535 v }
{
    u16::try_from(v).unwrap_or(u16::MAX)
}

// A word as a byte, at most 255.
pub fn byte(v: u16) -> u8
    ensures { result ≡ cut 255 v }
{
    u8::try_from(v).unwrap_or(u8::MAX)
}

fn is_digit(c: u8) -> bool
    ensures { result ≡ is_digit c }
{
    c.is_ascii_digit()
}

// A number with one digit more.
fn longer(v: u32, c: u8) -> u32
    ensures { result ≡ longer v c }
{
    let x = v as u64 * 10 + c.saturating_sub(b'0') as u64;
    x.min(LARGE) as u32
}

// A text that is not empty, byte by byte: `number` is the one that has been begun, if one has.
fn items(t: &[u8], into: &mut [u16]) -> Listed
    ensures { reading into.new result ≡ reading_of into.old (items_from false 0 t.now) }
{
    let mut number: Option<u32> = None;
    let mut count: usize = 0;
    let mut largest: u32 = 0;
    for &c in t {
        match number {
            _ if is_digit(c) => number = Some(longer(number.unwrap_or(0), c)),
            Some(v) if c == b',' => {
                store(into, count, word(v));
                largest = largest.max(v);
                count += 1;
                number = None;
            }
            _ => {
                return Listed {
                    good: false,
                    count,
                    largest,
                };
            }
        }
    }
    match number {
        Some(v) => {
            store(into, count, word(v));
            Listed {
                good: true,
                count: count + 1,
                largest: largest.max(v),
            }
        }
        None => Listed {
            good: false,
            count,
            largest,
        },
    }
}

// The list of numbers that a text is. Its numbers, up to the first fault, are stored as words, as far as there is room.
pub fn numbers(t: &[u8], into: &mut [u16]) -> Listed
    ensures { reading into.new result ≡ reading_of into.old (numbers_in t.now) }
{
    if t.is_empty() {
        return Listed {
            good: true,
            count: 0,
            largest: 0,
        };
    }
    items(t, into)
}

// The number that a text is: one that stands alone, 65,536 for all above 65,535.
pub fn number(t: &[u8]) -> Option<u32>
    ensures { result ≡ number_in t.now }
{
    let l = numbers(t, &mut []);
    if l.good && l.count == 1 {
        Some(l.largest)
    } else {
        None
    }
}
