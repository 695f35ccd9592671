// What is kept from line to line of the script, and what each command does with it.
use crate::command::{Command, PortCall, Setting, Which};
use crate::memory::Memory;
use crate::spaced::Spaced;
use bus::Answered;
use bus_ports::frame::SILENT;
use constants::{Refusal, told};
use frames::{Hearing, Kind};
use host_controller::{GroupCall, groups, settings};
use model::{Controller, State};
use std::io;

// The controller, what each line hears, the areas, and their sum at the last mark.
#[derive(Drop)]
pub(crate) struct Desk {
    pub(crate) controller: Controller,
    a: Hearing,
    b: Hearing,
    pub(crate) memory: Memory,
    pub(crate) mark: u64,
}

impl Desk {
    pub(crate) fn fresh() -> Desk {
        Desk {
            controller: settings::reset(),
            a: SILENT,
            b: SILENT,
            memory: Memory::cleared(),
            mark: 0,
        }
    }

    // Each answer is a line.
    pub(crate) fn run(&mut self, rt: &impl Print, command: Command<'_>) -> io::Result<()> {
        match command {
            Command::Begin => *self = Desk::fresh(),
            Command::Lengths(lengths) => self.memory.lend(lengths),
            Command::LineA(hearing) => self.a = hearing,
            Command::LineB(hearing) => self.b = hearing,
            Command::BothLines(hearing) => {
                self.a = hearing;
                self.b = hearing;
            }
            Command::Entry(at, word) => self.memory.damage_entry(at, word),
            Command::Word(at, word) => self.memory.damage_word(at, word),
            Command::Port(call) => self.call(rt, call)?,
            Command::Hear(times) => self.hear(rt, times)?,
            Command::Quiet(bit_times) => self.quiet(rt, bit_times)?,
            Command::Set(setting) => self.set(rt, setting)?,
            Command::Group(group, call) => self.call_group(rt, group, call)?,
            Command::Outgoing(group) => self.outgoing(rt, group)?,
            Command::Show(shown) => self.show(rt, shown)?,
        }
        Ok(())
    }

    fn call(&mut self, rt: &impl Print, call: PortCall<'_>) -> io::Result<()> {
        match call {
            PortCall::Open(opening) => println!(rt; "open {}", told(&self.memory.open(opening))),
            PortCall::Close(address) => println!(rt; "close {}", told(&self.memory.close(address))),
            PortCall::Write(address, words) => println!(rt;
                "write {}",
                told(&self.memory.write(address, words))
            ),
            PortCall::Ask(address) => match self.memory.ask(address) {
                Ok(State::Never) => println!(rt; "ask never"),
                Ok(State::Good) => println!(rt; "ask good"),
                Ok(State::Held) => println!(rt; "ask held"),
                Ok(State::Stale) => println!(rt; "ask stale"),
                Err(refusal) => println!(rt; "ask {}", u16::from(refusal)),
            },
            PortCall::Fetch(address) => match self.memory.fetch(address) {
                [] => println!(rt; "fetch none"),
                words => println!(rt; "fetch{}", Spaced(words)),
            },
        }
    }

    // An accepted call leaves another controller, a refused one the same.
    fn take(&mut self, answer: Result<Answered, Refusal>) -> Result<Hearing, Refusal> {
        let answered = answer?;
        self.controller = answered.controller;
        Ok(answered.reply)
    }

    // The event, so many times, and at least once. The last answer is printed, with the words and check bytes of its reply.
    fn hear(&mut self, rt: &impl Print, times: u32) -> io::Result<()> {
        let reply = self
            .memory
            .hear(&mut self.controller, self.a, self.b, times);
        match reply {
            Ok(frame) if frame.kind == Kind::Slave => {
                let words = &frame.words[..frame.size.min(16)];
                let checks = &frame.checks[..frame.ends.min(4)];
                println!(rt; "hear 0{} /{}", Spaced(words), Spaced(checks))
            }
            _ => println!(rt; "hear {} none", told(&reply)),
        }
    }

    fn quiet(&mut self, rt: &impl Print, bit_times: u32) -> io::Result<()> {
        let answer = self.memory.quiet(self.controller, bit_times);
        println!(rt; "quiet {}", told(&self.take(answer)))
    }

    fn set(&mut self, rt: &impl Print, setting: Setting) -> io::Result<()> {
        let before = self.controller;
        match setting {
            Setting::Address(address) => {
                return self.told(rt, "address", settings::set_address(before, address));
            }
            Setting::ReplyTime(time) => {
                return self.told(rt, "reply", settings::set_reply_time(before, time));
            }
            Setting::Status(word) => self.controller = settings::set_status(before, word),
            Setting::SingleLine(is_on) => self.controller = settings::set_slm(before, is_on),
            Setting::Switch(is_on) => self.controller = settings::set_ls(before, is_on),
            Setting::ClearErrors => self.controller = settings::clear_ec(before),
            Setting::Reset => self.controller = settings::reset(),
        }
        Ok(())
    }

    fn told(
        &mut self,
        rt: &impl Print,
        name: &str,
        answer: Result<Controller, Refusal>,
    ) -> io::Result<()> {
        let refusal = told(&answer);
        self.controller = answer.unwrap_or(self.controller);
        println!(rt; "{name} {refusal}")
    }

    // A call on a group. A reading is printed, a write is not.
    fn call_group(&mut self, rt: &impl Print, group: Which, call: GroupCall) -> io::Result<()> {
        let reading = match group {
            Which::Group0 => groups::on_group0(self.controller, call),
            Which::Group1 => groups::on_group1(self.controller, call),
        };
        self.controller = reading.controller;
        match call {
            GroupCall::ReadStatus => println!(rt; "readstatus {}", reading.value),
            GroupCall::ReadVector => println!(rt; "readvector {}", reading.value),
            _ => Ok(()),
        }
    }

    // Whether a group's outgoing line is active.
    fn outgoing(&self, rt: &impl Print, group: Which) -> io::Result<()> {
        let group = match group {
            Which::Group0 => self.controller.group0,
            Which::Group1 => self.controller.group1,
        };
        println!(rt; "outgoing {}", u8::from(group.line()))
    }
}
