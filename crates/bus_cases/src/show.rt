// What controller and areas hold.
//
// `state` is the exchange (0 idle, 1 waiting, 2 done) with the master word that is waited for, the time since the last sound master frame,
// the line count, the reply times chosen and adopted, the line state, the counts, each group (pending, mask, status, frozen) and the device
// (address, whether a status word is set, the word) and the phase. `port A` is the entry of address A and the eight words of that port,
// `pages A` its part of each page. `areas` is a sum of each area, in which each word at each place counts. `same` says whether all of that is
// as it was at the last `mark`.
use crate::command::Shown;
use crate::desk::Desk;
use crate::numbers::numbers_of;
use crate::spaced::Spaced;
use std::io;

// A sum is a remainder modulo this prime; each word before counts this factor more than the next.
const PRIME: u64 = 2147483647;

const FACTOR: u64 = 65599;

// The sum of what was summed before and the words of an area.
fn sum(before: u64, words: &[u16]) -> u64 {
    words.iter().fold(before, |sum, word| {
        (sum % PRIME * FACTOR + u64::from(*word)) % PRIME
    })
}

impl Desk {
    // The sum of controller and areas.
    fn sum_of_all(&self) -> u64 {
        let mut all = sum(0, &numbers_of(self.controller));
        for area in self.memory.areas() {
            all = sum(all, area);
        }
        all
    }

    fn show_state(&self, rt: &impl Print) -> io::Result<()> {
        let numbers = numbers_of(self.controller);
        println!(rt;
            "state exchange{} times{} lines{} counts{} group{} group{} device{} phase{}",
            Spaced(&numbers[..2]),
            Spaced(&numbers[2..6]),
            Spaced(&numbers[6..10]),
            Spaced(&numbers[10..12]),
            Spaced(&numbers[12..16]),
            Spaced(&numbers[16..20]),
            Spaced(&numbers[20..23]),
            Spaced(&numbers[23..])
        )
    }

    fn show_port(&self, rt: &impl Print, address: u16) -> io::Result<()> {
        let port = self.memory.entry(address);
        let words = self.memory.port(port);
        println!(rt;
            "port {port} {} {} {} {} {} {} {} {}",
            words.master,
            words.flags,
            words.interrupt,
            words.fills,
            words.limit,
            words.age,
            words.sixth,
            words.seventh
        )
    }

    // Shows what is wanted; `Mark` shows nothing, and sets the mark anew.
    pub(crate) fn show(&mut self, rt: &impl Print, shown: Shown) -> io::Result<()> {
        match shown {
            Shown::State => self.show_state(rt),
            Shown::Port(address) => self.show_port(rt, address),
            Shown::Pages(address) => {
                let [page0, page1] = self.memory.pages(self.memory.entry(address));
                println!(rt; "pages{} /{}", Spaced(page0), Spaced(page1))
            }
            Shown::Areas => {
                let [index, ports, page0, page1] = self.memory.areas();
                println!(rt;
                    "areas {} {} {} {}",
                    sum(0, index),
                    sum(0, ports),
                    sum(0, page0),
                    sum(0, page1)
                )
            }
            Shown::Mark => {
                self.mark = self.sum_of_all();
                Ok(())
            }
            Shown::Same if self.mark == self.sum_of_all() => println!(rt; "same"),
            Shown::Same => println!(rt; "changed"),
        }
    }
}
