// A line of the script, token by token. Whatever the bytes are, a line comes of them.
use arrayvec::ArrayVec;
use bus_ports::frame::SILENT;
use frames::{Hearing, Kind};

// A name of the script has at most eleven letters, so that one of which twelve are kept is none of them.
type Name = ArrayVec<u8, 12>;

// The name of the command, which is the line's first name. `numbers` are those before the slash, the first ones: an address, and more words than any
// port has. `heard` counts all numbers before the slash and behind it, also those that it has no room for. `last` is the line's last number.
#[derive(Drop)]
pub(crate) struct Line {
    pub(crate) name: Name,
    pub(crate) numbers: ArrayVec<u16, 20>,
    pub(crate) heard: Hearing,
    pub(crate) last: Option<u32>,
}

fn is_separator(byte: &u8) -> bool {
    !matches!(*byte, b'a'..=b'z' | b'0'..=b'9')
}

impl Line {
    pub(crate) fn read(text: &[u8]) -> Line {
        let mut line = Line {
            name: Name::new(),
            numbers: ArrayVec::new(),
            heard: SILENT,
            last: None,
        };
        let mut halves = text.splitn(2, |byte| *byte == b'/');
        if let Some(words) = halves.next() {
            for token in words.split(is_separator) {
                if let Some(number) = line.take(token) {
                    line.add_word((number % 65536) as u16);
                }
            }
        }
        if let Some(checks) = halves.next() {
            for token in checks.split(is_separator) {
                if let Some(number) = line.take(token) {
                    line.add_check((number % 256) as u8);
                }
            }
        }
        line
    }

    // The number at this place, 0 where the line has none there.
    pub(crate) fn number(&self, at: usize) -> u16 {
        self.numbers.get(at).copied().unwrap_or(0)
    }

    // Takes the name of a token, its letters, and gives its number: its digits, of which the last eight count.
    fn take(&mut self, token: &[u8]) -> Option<u32> {
        let mut name = Name::new();
        let mut number = None;
        for byte in token {
            match *byte {
                b'0'..=b'9' => {
                    let before: u32 = number.unwrap_or(0);
                    number = Some(before % 10_000_000 * 10 + u32::from(*byte - b'0'));
                }
                letter => {
                    let _ = name.try_push(letter);
                }
            }
        }
        self.add_name(name);
        self.last = number.or(self.last);
        number
    }

    // A name behind the command's is a kind or a quality mark.
    fn add_name(&mut self, name: Name) {
        if self.name.is_empty() {
            self.name = name;
            return;
        }
        match name.as_slice() {
            b"noise" => self.heard.kind = Kind::Noise,
            b"master" => self.heard.kind = Kind::Master,
            b"slave" => self.heard.kind = Kind::Slave,
            b"sqe" => self.heard.sqe = true,
            b"violation" => self.heard.violation = true,
            b"alo" => self.heard.alo = true,
            _ => {}
        }
    }

    fn add_word(&mut self, word: u16) {
        let _ = self.numbers.try_push(word);
        add(&mut self.heard.words, &mut self.heard.size, word);
    }

    fn add_check(&mut self, check: u8) {
        add(&mut self.heard.checks, &mut self.heard.ends, check);
    }
}

// One value more, where there is room; the count goes on, since a line may tell of more words than there is room for.
fn add<T: Copy>(places: &mut [T], count: &mut usize, value: T) {
    if let Some(place) = places.get_mut(*count) {
        *place = value;
    }
    *count = count.saturating_add(1);
}
