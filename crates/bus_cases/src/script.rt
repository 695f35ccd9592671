// The script, line by line, over four areas that begin cleared.
use crate::desk::Desk;
use crate::line::Line;
use std::io;

fn answer(rt: &impl Print, desk: &mut Desk, text: &[u8]) -> io::Result<()> {
    if text.first() == Some(&b'#') {
        rt.write_all(text)?;
        return rt.write_all(b"\n");
    }
    match Line::read(text).command() {
        Some(command) => desk.run(rt, command),
        None => Ok(()),
    }
}

pub(crate) fn run(rt: &impl Print, script: &[u8]) {
    let mut desk = Desk::fresh();
    for text in script.split(|byte| *byte == b'\n') {
        // A line that can't be written is passed over: the lines that are missing show it.
        let _ = answer(rt, &mut desk, text);
    }
}
