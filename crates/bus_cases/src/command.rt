// What a line of the script commands.
use crate::line::Line;
use crate::memory::Lengths;
use frames::Hearing;
use host_controller::GroupCall;

#[derive(Clone, Copy)]
pub(crate) struct Opening {
    pub(crate) address: u16,
    pub(crate) port: u16,
    pub(crate) code: u16,
    pub(crate) is_sink: bool,
    pub(crate) interrupt: u16,
    pub(crate) limit: u16,
}

// The host's calls on a port.
#[derive(Clone, Copy)]
pub(crate) enum PortCall<'a> {
    Open(Opening),
    Close(u16),
    Write(u16, &'a [u16]),
    Ask(u16),
    Fetch(u16),
}

// The host's settings.
#[derive(Clone, Copy)]
pub(crate) enum Setting {
    Address(u16),
    Status(u16),
    ReplyTime(u16),
    SingleLine(bool),
    Switch(bool),
    ClearErrors,
    Reset,
}

// What is to be shown, of an address or of all. `Mark` shows nothing.
#[derive(Clone, Copy)]
pub(crate) enum Shown {
    State,
    Port(u16),
    Pages(u16),
    Areas,
    Mark,
    Same,
}

// Which of the two groups.
#[derive(Clone, Copy)]
pub(crate) enum Which {
    Group0,
    Group1,
}

#[derive(Clone, Copy)]
pub(crate) enum Command<'a> {
    Begin,
    Lengths(Lengths),
    Port(PortCall<'a>),
    LineA(Hearing),
    LineB(Hearing),
    BothLines(Hearing),
    Hear(u32),
    Quiet(u32),
    Set(Setting),
    Group(Which, GroupCall),
    Outgoing(Which),
    Entry(usize, u16),
    Word(usize, u16),
    Show(Shown),
}

impl Line {
    // What the line commands; none where it does nothing.
    pub(crate) fn command(&self) -> Option<Command<'_>> {
        let first = self.number(0);
        let second = self.number(1);
        Some(match self.name.as_slice() {
            b"begin" => Command::Begin,
            b"lengths" => Command::Lengths(self.lengths()),
            b"open" => Command::Port(PortCall::Open(self.opening())),
            b"close" => Command::Port(PortCall::Close(first)),
            b"write" => {
                let (address, words) = self.numbers.split_first()?;
                Command::Port(PortCall::Write(*address, words))
            }
            b"ask" => Command::Port(PortCall::Ask(first)),
            b"fetch" => Command::Port(PortCall::Fetch(first)),
            b"a" => Command::LineA(self.heard),
            b"b" => Command::LineB(self.heard),
            b"both" => Command::BothLines(self.heard),
            b"hear" => Command::Hear(self.last.unwrap_or(1)),
            b"quiet" => Command::Quiet(self.last.unwrap_or(0)),
            b"address" => Command::Set(Setting::Address(first)),
            b"status" => Command::Set(Setting::Status(first)),
            b"reply" => Command::Set(Setting::ReplyTime(first)),
            b"single" => Command::Set(Setting::SingleLine(first == 1)),
            b"switch" => Command::Set(Setting::Switch(first == 1)),
            b"clear" => Command::Set(Setting::ClearErrors),
            b"reset" => Command::Set(Setting::Reset),
            b"readstatus" => Command::Group(self.group(), GroupCall::ReadStatus),
            b"readvector" => Command::Group(self.group(), GroupCall::ReadVector),
            b"writestatus" => Command::Group(self.group(), GroupCall::WriteStatus(second)),
            b"writevector" => Command::Group(self.group(), GroupCall::WriteVector),
            b"pending" => Command::Group(self.group(), GroupCall::WritePending(second)),
            b"mask" => Command::Group(self.group(), GroupCall::WriteMask(second)),
            b"outgoing" => Command::Outgoing(self.group()),
            b"entry" => Command::Entry(usize::from(first), second),
            b"word" => Command::Word(usize::from(first), second),
            b"state" => Command::Show(Shown::State),
            b"port" => Command::Show(Shown::Port(first)),
            b"pages" => Command::Show(Shown::Pages(first)),
            b"areas" => Command::Show(Shown::Areas),
            b"mark" => Command::Show(Shown::Mark),
            b"same" => Command::Show(Shown::Same),
            _ => return None,
        })
    }

    // Group 1 by its number, and group 0 by any other.
    fn group(&self) -> Which {
        match self.number(0) {
            1 => Which::Group1,
            _ => Which::Group0,
        }
    }

    fn lengths(&self) -> Lengths {
        Lengths {
            index: usize::from(self.number(0)),
            ports: usize::from(self.number(1)),
            page0: usize::from(self.number(2)),
            page1: usize::from(self.number(3)),
        }
    }

    fn opening(&self) -> Opening {
        Opening {
            address: self.number(0),
            port: self.number(1),
            code: self.number(2),
            is_sink: self.number(3) == 1,
            interrupt: self.number(4),
            limit: self.number(5),
        }
    }
}
