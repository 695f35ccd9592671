// One line of input.
ghost use Rattle.std.specs.Prelude.{◌≡◌, Some, List, ℕ};
ghost use Rattle.port_digits.specs.Write.{paper};
ghost use Rattle.model.specs.Layout.{areas, Areas};
ghost use Rattle.port_text.specs.Line.{dir_of, write_of, line_as, line_of};
ghost use Rattle.port_line.specs.Meaning.{state_after, meaning, ended, ended_by};

use crate::{Stepped, calls};
use port_digits::{cut, read};
use port_text::{Key, line};

// As many words of a write are kept: one more than a port has.
const KEPT: usize = 17;

fn dir_line(s: Stepped, v: &[u8]) -> Stepped
    ensures { (m : Areas) (o : List ℕ) →
        ended m o result ≡ ended_by (paper o s.at) (meaning (dir_of v.now) (state_after m s)) }
{
    if cut::same(v, b"sink") {
        calls::set_dir(s, true)
    } else if cut::same(v, b"source") {
        calls::set_dir(s, false)
    } else {
        calls::misplace(s)
    }
}

fn write_line(
    index: &[u16],
    ports: &mut [u16],
    page0: &mut [u16],
    page1: &mut [u16],
    s: Stepped,
    v: &[u8],
) -> Stepped
    ensures { (o : List ℕ) →
        ended (areas index.now ports.new page0.new page1.new) o result ≡
        ended_by (paper o s.at)
        (meaning (write_of v.now) (state_after (areas index.now ports.old page0.old page1.old) s)) }
{
    let mut words = [0u16; 17];
    let l = read::numbers(cut::after(v, b';'), &mut words);
    if cut::has(v, b';') && line::is_below(l, line::LAST_WORD) {
        let a = read::number(cut::before(v, b';'));
        let n = l.count.min(KEPT);
        calls::write(index, ports, page0, page1, s, a, &words[..n])
    } else {
        calls::misplace(s)
    }
}

// The line with this key and what stands behind it.
fn by_key(
    index: &mut [u16],
    ports: &mut [u16],
    page0: &mut [u16],
    page1: &mut [u16],
    out: &mut [u8],
    s: Stepped,
    key: Key,
    v: &[u8],
) -> Stepped
    ensures { ended (areas index.new ports.new page0.new page1.new) out.new result ≡
        ended_by (paper out.old s.at)
        (meaning (line_as (Some key) v.now) (state_after (areas index.old ports.old page0.old page1.old) s)) }
{
    let n = read::number(v);
    match key {
        Key::Addr => calls::set_addr(s, n),
        Key::Fcode => calls::set_code(s, n),
        Key::Dir => dir_line(s, v),
        Key::Index => calls::open(index, ports, page0, page1, s, n),
        Key::Master => calls::hear(index, ports, page0, page1, out, s, line::master(v)),
        Key::Slave => calls::hear(index, ports, page0, page1, out, s, line::slave(v)),
        Key::Quiet => calls::quiet(index, ports, page0, page1, out, s, n),
        Key::Write => write_line(index, ports, page0, page1, s, v),
    }
}

// One line.
pub fn step(
    index: &mut [u16],
    ports: &mut [u16],
    page0: &mut [u16],
    page1: &mut [u16],
    out: &mut [u8],
    s: Stepped,
    t: &[u8],
) -> Stepped
    ensures { ended (areas index.new ports.new page0.new page1.new) out.new result ≡
        ended_by (paper out.old s.at)
        (meaning (line_of t.now) (state_after (areas index.old ports.old page0.old page1.old) s)) }
{
    match line::key_of(cut::before(t, b'=')) {
        Some(key) => by_key(index, ports, page0, page1, out, s, key, cut::after(t, b'=')),
        None => calls::misplace(s),
    }
}
