// The four areas, and the calls over as many words of each as the script lends.
use crate::command::Opening;
use areas::layout::{get, get_port, put};
use bus::Answered;
use bus_ports::frame::SILENT;
use constants::Refusal;
use frames::Hearing;
use model::{Controller, State, Words};

// The areas have a word more than document 01's, so that one can be lent too long.
const INDEX: usize = 4097;

const PORTS: usize = 2049;

const PAGE: usize = 4097;

// How many words of each area are lent.
#[derive(Clone, Copy)]
pub(crate) struct Lengths {
    pub(crate) index: usize,
    pub(crate) ports: usize,
    pub(crate) page0: usize,
    pub(crate) page1: usize,
}

#[derive(Drop)]
pub(crate) struct Memory {
    index: [u16; INDEX],
    ports: [u16; PORTS],
    page0: [u16; PAGE],
    page1: [u16; PAGE],
    lengths: Lengths,
}

// The words that are lent.
#[derive(Drop)]
struct Lent<'a> {
    index: &'a mut [u16],
    ports: &'a mut [u16],
    page0: &'a mut [u16],
    page1: &'a mut [u16],
}

impl Memory {
    // Cleared areas, of which document 01's lengths are lent.
    pub(crate) fn cleared() -> Memory {
        Memory {
            index: [0; INDEX],
            ports: [0; PORTS],
            page0: [0; PAGE],
            page1: [0; PAGE],
            lengths: Lengths {
                index: 4096,
                ports: 2048,
                page0: 4096,
                page1: 4096,
            },
        }
    }

    pub(crate) fn lend(&mut self, lengths: Lengths) {
        self.lengths = lengths;
    }

    fn lent(&mut self) -> Lent<'_> {
        let Memory {
            index,
            ports,
            page0,
            page1,
            lengths,
        } = self;
        Lent {
            index: front(index, lengths.index),
            ports: front(ports, lengths.ports),
            page0: front(page0, lengths.page0),
            page1: front(page1, lengths.page1),
        }
    }

    pub(crate) fn open(&mut self, opening: Opening) -> Result<(), Refusal> {
        let Lent {
            index,
            ports,
            page0,
            page1,
        } = self.lent();
        host_ports::calls::open(
            index,
            ports,
            page0,
            page1,
            opening.address,
            opening.port,
            opening.code,
            opening.is_sink,
            opening.interrupt,
            opening.limit,
        )
    }

    pub(crate) fn close(&mut self, address: u16) -> Result<(), Refusal> {
        let Lent {
            index,
            ports,
            page0,
            page1,
        } = self.lent();
        host_ports::calls::close(index, ports, page0, page1, address)
    }

    pub(crate) fn write(&mut self, address: u16, words: &[u16]) -> Result<(), Refusal> {
        let Lent {
            index,
            ports,
            page0,
            page1,
        } = self.lent();
        host_ports::calls::write(index, ports, page0, page1, address, words)
    }

    pub(crate) fn ask(&mut self, address: u16) -> Result<State, Refusal> {
        let Lent { index, ports, .. } = self.lent();
        host_ports::calls::ask(index, ports, address)
    }

    pub(crate) fn fetch(&mut self, address: u16) -> &[u16] {
        let Lent {
            index,
            ports,
            page0,
            page1,
        } = self.lent();
        host_ports::calls::fetch(index, ports, page0, page1, address)
    }

    // The event, so many times, and at least once: an accepted one leaves another controller, and the reply is the last one's. Once one is refused the
    // others are too, since nothing changes any more. Called in one place alone, `bus::calls::hear` is put into the loop by the compiler.
    pub(crate) fn hear(
        &mut self,
        controller: &mut Controller,
        a: Hearing,
        b: Hearing,
        times: u32,
    ) -> Result<Hearing, Refusal> {
        let Lent {
            index,
            ports,
            page0,
            page1,
        } = self.lent();
        let mut answered = Answered {
            controller: *controller,
            reply: SILENT,
        };
        for _ in 0..times.max(1) {
            match bus::calls::hear(index, ports, page0, page1, answered.controller, a, b) {
                Ok(next) => answered = next,
                Err(refusal) => {
                    *controller = answered.controller;
                    return Err(refusal);
                }
            }
        }
        *controller = answered.controller;
        Ok(answered.reply)
    }

    pub(crate) fn quiet(
        &mut self,
        controller: Controller,
        bit_times: u32,
    ) -> Result<Answered, Refusal> {
        let Lent {
            index,
            ports,
            page0,
            page1,
        } = self.lent();
        bus::calls::quiet(index, ports, page0, page1, controller, bit_times)
    }

    // A word of the index table is replaced, as damage would.
    pub(crate) fn damage_entry(&mut self, at: usize, word: u16) {
        put(&mut self.index, at, word);
    }

    // A word of the port words is replaced, as damage would.
    pub(crate) fn damage_word(&mut self, at: usize, word: u16) {
        put(&mut self.ports, at, word);
    }

    // The entry of an address.
    pub(crate) fn entry(&self, address: u16) -> u16 {
        get(&self.index, usize::from(address))
    }

    pub(crate) fn port(&self, port: u16) -> Words {
        get_port(&self.ports, port)
    }

    // A port's part of each page, as far as there are any words.
    pub(crate) fn pages(&self, port: u16) -> [&[u16]; 2] {
        [part(&self.page0, port), part(&self.page1, port)]
    }

    pub(crate) fn areas(&self) -> [&[u16]; 4] {
        [&self.index, &self.ports, &self.page0, &self.page1]
    }
}

// The first words of an area, as many as are asked for, or all.
fn front(area: &mut [u16], length: usize) -> &mut [u16] {
    let end = length.min(area.len());
    &mut area[..end]
}

fn part(page: &[u16], port: u16) -> &[u16] {
    page.chunks(16).nth(usize::from(port)).unwrap_or(&[])
}
