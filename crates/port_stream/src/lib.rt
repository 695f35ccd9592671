// The port program over a reader and a writer: the input is read in pieces as they come, and what is said of a piece is written before the next
// one is waited for.
//
// Each function is proved to be safe and to end, given that each read and write returns; none promises which bytes were moved. What
// is printed of pieces is the promise of the crate `port_run`; here they are only handed on.
//
// A read or a write that is interrupted, or that is not ready, is tried again, and a write that is taken in part is finished. One that fails is
// told on standard error, and nothing more is printed: no report of the ports stands for an input that was not read to its end.
#![tactic(auto)]

ghost use Rattle.std.specs.Prelude.{◌≤◌, length, IfOk};

use port_run::{Feed, pieces};
use std::io::{self, ErrorKind, Read, Write};
use std::{fmt, thread};

// Why nothing more is printed.
#[derive(Drop)]
enum Fault {
    Input(io::Error),
    Output(io::Error),
    NoRoom,
}

impl fmt::Display for Fault {
    fn fmt<W: fmt::Write>(&self, f: &mut fmt::Formatter<W>) -> fmt::Result {
        match self {
            Fault::Input(error) => write!(f, "standard input: {error}"),
            Fault::Output(error) => write!(f, "standard output: {error}"),
            Fault::NoRoom => write!(f, "more was said than there is room for"),
        }
    }
}

// Whether a call moved nothing because it was interrupted, or because the other side is not ready.
fn is_passing(error: &io::Error) -> bool {
    matches!(error.kind(), ErrorKind::WouldBlock | ErrorKind::Interrupted)
}

// What a read or a write of at most `room` bytes answers. One that moved nothing is tried again, and the other side may run first. No step moves more
// than there is room for; `min` says so where the check, which knows nothing of what a step has captured after others were tried, can't.
fn settled<F: FnMut() -> io::Result<usize>>(room: usize, mut step: F) -> io::Result<usize>
    requires { F.IsAlwaysCallable step }
    ensures { IfOk result (λ n. n ≤ room) }
{
    for _ in 0..u64::MAX {
        match step() {
            Err(error) if is_passing(&error) => thread::yield_now(),
            answer => return answer.map(|moved| moved.min(room)),
        }
    }
    Err(io::Error::from(ErrorKind::WouldBlock))
}

// Reads once, as soon as there is something to read: how many bytes came, 0 at the end of the input, or why the read fails.
fn read_some(input: &mut impl Read, piece: &mut [u8]) -> io::Result<usize>
    ensures { IfOk result (λ n. n ≤ length piece.new) }
{
    settled(piece.len(), || input.read(piece))
}

// Writes once, as soon as it can: how many bytes of the text were taken, or why the write fails.
fn write_some(output: &mut impl Write, text: &[u8]) -> io::Result<usize>
    ensures { IfOk result (λ n. n ≤ length text.now) }
{
    settled(text.len(), || output.write(text))
}

// Writes all of a text. `write_all` of std gives up where the other side is not ready.
fn write_whole(output: &mut impl Write, text: &[u8]) -> io::Result<()> {
    let mut rest = text;
    while !rest.is_empty() {
        match write_some(output, rest)? {
            0 => return Err(io::Error::from(ErrorKind::WriteZero)),
            taken => rest = &rest[taken..],
        }
    }
    Ok(())
}

// One run of the program: the four areas, which are cleared at first; the line that has not ended, of at most 1,024 bytes; the output's buffer, which
// has room for what 4,096 bytes of input may say (a reply of at most 128 bytes for each master frame of at least 11) and for 255 ports of at most
// 180 bytes; and how far the input has been worked. The crate `port_run` promises of these parts one by one, so that each call there takes them so.
#[derive(Drop)]
struct Session {
    index: [u16; 4096],
    ports: [u16; 2048],
    page0: [u16; 4096],
    page1: [u16; 4096],
    line: [u8; 1024],
    out: [u8; 49152],
    feed: Feed,
}

impl Session {
    // Prints what is in the output's buffer, up to this place.
    fn print(&mut self, output: &mut impl Write, end: usize) -> Result<(), Fault> {
        let text = self.out.get(..end).ok_or(Fault::NoRoom)?;
        write_whole(output, text).map_err(Fault::Output)?;
        self.feed = pieces::rewind(self.feed);
        Ok(())
    }

    // Works a piece, and prints what is said of it.
    fn work(&mut self, output: &mut impl Write, piece: &[u8]) -> Result<(), Fault> {
        self.feed = pieces::feed(
            &mut self.index,
            &mut self.ports,
            &mut self.page0,
            &mut self.page1,
            &mut self.line,
            &mut self.out,
            self.feed,
            piece,
        );
        self.print(output, self.feed.stepped.at)
    }

    // After the last piece: what is said of a line that lacks its newline, and then the ports, but nothing after a refusal.
    fn end(&mut self, output: &mut impl Write) -> Result<(), Fault> {
        self.feed = pieces::close(
            &mut self.index,
            &mut self.ports,
            &mut self.page0,
            &mut self.page1,
            &mut self.line,
            &mut self.out,
            self.feed,
        );
        self.print(output, self.feed.stepped.at)?;
        let end = pieces::finish(
            &self.index,
            &self.ports,
            &self.page0,
            &self.page1,
            &mut self.out,
            self.feed,
        );
        self.print(output, end)
    }

    // Piece after piece, up to the end of the input or a refusal.
    fn run(&mut self, input: &mut impl Read, output: &mut impl Write) -> Result<(), Fault> {
        let mut piece = [0u8; 4096];
        for _ in 0..u64::MAX {
            match read_some(input, &mut piece).map_err(Fault::Input)? {
                0 => return self.end(output),
                n => self.work(output, &piece[..n])?,
            }
            if self.feed.stepped.refusal != 0 {
                return Ok(());
            }
        }
        Ok(())
    }
}

// Reads the input to its end and prints what is printed of it. A read or a write that fails is told on standard error; where not even that can be
// written, nothing is left to say it to.
pub fn serve(rt: &impl Eprint, input: &mut impl Read, output: &mut impl Write) {
    let mut session = Session {
        index: [0; 4096],
        ports: [0; 2048],
        page0: [0; 4096],
        page1: [0; 4096],
        line: [0; 1024],
        out: [0; 49152],
        feed: pieces::begin(),
    };
    if let Err(fault) = session.run(input, output) {
        let _ = eprintln!(rt; "port: {fault}");
    }
}
