// Lines of output.
ghost use Rattle.std.specs.Prelude.{◌≡◌, take};
ghost use Rattle.port_digits.specs.Write.{paper, onto, decimal, commas};
ghost use Rattle.port_text.specs.Report.{key_text, line_text, refused_text, spoken_text, reply_text};
ghost use Rattle.frames.specs.declared.Kind.TheVariants.{Slave};

use frames::{Hearing, Kind};
use port_digits::write;

// `key=`, before a value.
fn put_key(out: &mut [u8], at: usize, key: &[u8]) -> usize
    ensures { paper out.new result ≡ onto (paper out.old at) (key_text key.now) }
{
    let a = write::put_text(out, at, key);
    write::put(out, a, b'=')
}

// A line `key=value`. Here and in the two below only what writes the value differs; one writer that takes it as a closure is no plainer, since
// its contract would have to say what any closure writes into the buffer and which place it answers.
pub fn put_line(out: &mut [u8], at: usize, key: &[u8], value: &[u8]) -> usize
    ensures { paper out.new result ≡ onto (paper out.old at) (line_text key.now value.now) }
{
    let a = put_key(out, at, key);
    let b = write::put_text(out, a, value);
    write::put(out, b, b'\n')
}

// A line whose value is a number.
pub fn put_numbered(out: &mut [u8], at: usize, key: &[u8], v: u16) -> usize
    ensures { paper out.new result ≡ onto (paper out.old at) (line_text key.now (decimal v)) }
{
    let a = put_key(out, at, key);
    let b = write::put_number(out, a, v);
    write::put(out, b, b'\n')
}

// A line whose value is a list of numbers.
pub fn put_listed(out: &mut [u8], at: usize, key: &[u8], vs: &[u16]) -> usize
    ensures { paper out.new result ≡ onto (paper out.old at) (line_text key.now (commas vs.now)) }
{
    let a = put_key(out, at, key);
    let b = write::put_list(out, a, vs);
    write::put(out, b, b'\n')
}

// `refused=N`; a number, as a line leaves it (`port_line::Stepped`).
pub fn put_refused(out: &mut [u8], at: usize, n: u16) -> usize
    ensures { paper out.new result ≡ onto (paper out.old at) (refused_text n) }
{
    put_numbered(out, at, b"refused", n)
}

// The first n words, as far as there are any.
fn front(ws: &[u16], n: usize) -> &[u16]
    ensures { result.now ≡ take n ws.now }
{
    &ws[..n.min(ws.len())]
}

// `reply=WORDS;CHECKS`.
fn put_frame(out: &mut [u8], at: usize, h: Hearing) -> usize
    ensures { paper out.new result ≡ onto (paper out.old at) (spoken_text Slave h) }
{
    let words = h.words;
    let checks = h.checks.map(u16::from);
    let a = put_key(out, at, b"reply");
    let b = write::put_list(out, a, front(&words, h.size));
    let c = write::put(out, b, b';');
    let d = write::put_list(out, c, front(&checks, h.ends));
    write::put(out, d, b'\n')
}

// A reply, where the answer is a slave frame; nothing else is said.
pub fn put_reply(out: &mut [u8], at: usize, h: Hearing) -> usize
    ensures { paper out.new result ≡ onto (paper out.old at) (reply_text h) }
{
    match h.kind {
        Kind::Silence | Kind::Noise | Kind::Master => at,
        Kind::Slave => put_frame(out, at, h),
    }
}
