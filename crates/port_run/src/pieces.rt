// The input, piece by piece.
ghost use Rattle.std.specs.Prelude.{◌≡◌, List, [], ◌++◌, ℕ, ◌≤◌, length, take};
ghost use Rattle.port_digits.specs.Write.{paper, onto};
ghost use Rattle.model.specs.Layout.{areas, Areas};
ghost use Rattle.areas.specs.Lent.{lent};
ghost use Rattle.port_line.specs.Meaning.{state_after};
ghost use Rattle.port_text.specs.Line.{line_of};
ghost use Rattle.port_run.specs.Printed.{line_in};
ghost use Rattle.port_run.specs.Fed.{stop_text, worked, unended, part_fed, fed_with, fed, last_fed, closing, begun_feed, rewound, feeding, feeding_of, left, left_by};

use crate::Feed;
use port_digits::{cut, write};
use port_line::{Stepped, calls, step};
use port_text::{report, say};

// Before the first piece.
pub fn begin() -> Feed
    ensures { result ≡ begun_feed }
{
    Feed {
        stepped: calls::begin(),
        partial: 0,
    }
}

// After what is in the output's buffer has been printed.
pub fn rewind(f: Feed) -> Feed
    ensures { result ≡ rewound f }
{
    Feed {
        stepped: Stepped { at: 0, ..f.stepped },
        ..f
    }
}

// A line as it is read. One for which there is no room is read as an empty one: both are malformed.
fn roomy(t: &[u8], room: usize) -> &[u8]
    ensures { line_of result.now ≡ line_in room t.now }
{
    if room < t.len() { &[] } else { t }
}

// After a line: the number of its refusal is printed, if it is refused.
fn after_line(out: &mut [u8], s: Stepped) -> Feed
    ensures leaves { (m : Areas) (l : List ℕ) →
        left m l out.new result ≡
        left_by (paper out.old s.at)
        (fed_with (stop_text s.refusal) (feeding (state_after m s) [] s.refusal)) }
    ensures no_part { result.partial ≡ 0 }
{
    let at = if s.refusal == 0 {
        s.at
    } else {
        say::put_refused(out, s.at, s.refusal)
    };
    Feed {
        stepped: Stepped { at, ..s },
        partial: 0,
    }
}

// A line that has ended.
fn work(
    index: &mut [u16],
    ports: &mut [u16],
    page0: &mut [u16],
    page1: &mut [u16],
    out: &mut [u8],
    s: Stepped,
    room: usize,
    t: &[u8],
) -> Feed
    ensures leaves { (l : List ℕ) →
        left (areas index.new ports.new page0.new page1.new) l out.new result ≡
        left_by (paper out.old s.at)
        (worked room t.now (state_after (areas index.old ports.old page0.old page1.old) s)) }
    ensures no_part { result.partial ≡ 0 }
{
    let stepped = step::step(index, ports, page0, page1, out, s, roomy(t, room));
    after_line(out, stepped)
}

// A line that has not ended: its bytes go into the buffer, behind those that came before; one for which there is no room is refused.
fn put_part(line: &mut [u8], out: &mut [u8], f: Feed, t: &[u8]) -> Feed
    requires part_lies_within { f.partial ≤ length line.old }
    requires runs { f.stepped.refusal ≡ 0 }
    ensures leaves { (m : Areas) →
        left m line.new out.new result ≡
        left_by (paper out.old f.stepped.at)
        (unended (length line.old) (take f.partial line.old ++ t.now) (state_after m f.stepped)) }
    ensures part_within { result.partial ≤ length line.old }
{
    if t.len() <= line.len() - f.partial {
        Feed {
            partial: write::put_text(line, f.partial, t),
            ..f
        }
    } else {
        after_line(out, calls::misplace(f.stepped))
    }
}

// A line that ends with these bytes. Where none of it came before, it is read where it lies.
fn end_line(
    index: &mut [u16],
    ports: &mut [u16],
    page0: &mut [u16],
    page1: &mut [u16],
    line: &mut [u8],
    out: &mut [u8],
    f: Feed,
    t: &[u8],
) -> Feed
    requires part_lies_within { f.partial ≤ length line.old }
    requires runs { f.stepped.refusal ≡ 0 }
    ensures leaves { left (areas index.new ports.new page0.new page1.new) line.new out.new result ≡
        left_by (paper out.old f.stepped.at)
        (worked (length line.old) (take f.partial line.old ++ t.now)
        (state_after (areas index.old ports.old page0.old page1.old) f.stepped)) }
    ensures part_within { result.partial ≤ length line.old }
{
    let room = line.len();
    if f.partial == 0 {
        return work(index, ports, page0, page1, out, f.stepped, room, t);
    }
    let g = put_part(line, out, f, t);
    if g.stepped.refusal != 0 {
        return g;
    }
    work(
        index,
        ports,
        page0,
        page1,
        out,
        g.stepped,
        room,
        &line[..g.partial],
    )
}

// A part of a line, which ends with it or not. After a refusal nothing is worked.
fn part(
    index: &mut [u16],
    ports: &mut [u16],
    page0: &mut [u16],
    page1: &mut [u16],
    line: &mut [u8],
    out: &mut [u8],
    f: Feed,
    t: &[u8],
    ends: bool,
) -> Feed
    requires { f.partial ≤ length line.old }
    ensures leaves { left (areas index.new ports.new page0.new page1.new) line.new out.new result ≡
        left_by (paper out.old f.stepped.at)
        (part_fed (length line.old)
        (feeding_of (areas index.old ports.old page0.old page1.old) line.old f) t.now ends) }
    ensures part_within { result.partial ≤ length line.old }
{
    if f.stepped.refusal != 0 {
        f
    } else if ends {
        end_line(index, ports, page0, page1, line, out, f, t)
    } else {
        put_part(line, out, f, t)
    }
}

// The bytes of a piece, in parts: a newline ends one.
pub fn feed(
    index: &mut [u16],
    ports: &mut [u16],
    page0: &mut [u16],
    page1: &mut [u16],
    line: &mut [u8],
    out: &mut [u8],
    f: Feed,
    piece: &[u8],
) -> Feed
    ensures leaves { left (areas index.new ports.new page0.new page1.new) line.new out.new result ≡
        left_by (paper out.old f.stepped.at)
        (fed (length line.old)
        (feeding_of (areas index.old ports.old page0.old page1.old) line.old f) piece.now) }
    ensures part_within { result.partial ≤ length line.old }
    ensures same_room { length line.new ≡ length line.old }
{
    let partial = f.partial.min(line.len());
    let mut g = Feed { partial, ..f };
    for t in piece.split_inclusive(|&byte| byte == b'\n') {
        g = match t.strip_suffix(b"\n") {
            Some(text) => part(index, ports, page0, page1, line, out, g, text, true),
            None => part(index, ports, page0, page1, line, out, g, t, false),
        };
    }
    g
}

// At the end of the input the line that lacks its newline ends, if any byte of it has come.
pub fn close(
    index: &mut [u16],
    ports: &mut [u16],
    page0: &mut [u16],
    page1: &mut [u16],
    line: &mut [u8],
    out: &mut [u8],
    f: Feed,
) -> Feed
    ensures leaves { left (areas index.new ports.new page0.new page1.new) line.new out.new result ≡
        left_by (paper out.old f.stepped.at)
        (last_fed (length line.old)
        (feeding_of (areas index.old ports.old page0.old page1.old) line.old f)) }
    ensures part_within { result.partial ≤ length line.old }
    ensures same_room { length line.new ≡ length line.old }
{
    let partial = f.partial.min(line.len());
    let g = Feed { partial, ..f };
    if partial == 0 {
        return g;
    }
    part(index, ports, page0, page1, line, out, g, b"", true)
}

// Then the open ports are printed, and a port that is described in part is refused; after a refusal nothing is printed. The place after all
// that is printed comes back.
pub fn finish(
    index: &[u16],
    ports: &[u16],
    page0: &[u16],
    page1: &[u16],
    out: &mut [u8],
    f: Feed,
) -> usize
    ensures { paper out.new result ≡
        onto (paper out.old f.stepped.at)
        (closing f.stepped.refusal (state_after (lent index.entry ports.entry page0.entry page1.entry) f.stepped)) }
{
    let s = f.stepped;
    if s.refusal != 0 {
        s.at
    } else if calls::is_whole(s.setup) {
        report::put_report(index, ports, page0, page1, out, s.at)
    } else {
        say::put_refused(out, s.at, calls::TEXT)
    }
}
