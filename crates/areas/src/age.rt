// Ageing (document 02, W-205): k milliseconds later the age of every open sink has grown by k. It goes by port words alone; the index table is
// not asked, and words that are not well formed are passed over.
ghost use Rattle.std.specs.Prelude.{◌≡◌, ◌+◌, min};
ghost use Rattle.model.specs.Layout.{words_at, with_words};
ghost use Rattle.model.specs.Ports.{oldest, aged_words, aged_to};

use crate::{layout, port};

// An age k milliseconds later: it stops at 65,535.
fn older(age: u16, k: u32) -> u16
    ensures { result ≡ min oldest (age + k) }
{
    (age as u32).saturating_add(k).min(constants::OLDEST as u32) as u16
}

// Port p, a sink, k milliseconds later.
fn age_sink(ports: &mut [u16], p: u16, k: u32)
    ensures { ports.new ≡ with_words ports.old p (aged_words k (words_at ports.old p)) }
{
    let w = layout::get_port(ports, p);
    if port::open_sink(w) {
        layout::put_age(ports, p, older(w.age, k));
    }
}

// Port p, k milliseconds later. Word 1 alone tells that a port which is no sink does not age, so it is asked first.
fn age_port(ports: &mut [u16], p: u16, k: u32)
    ensures { ports.new ≡ with_words ports.old p (aged_words k (words_at ports.old p)) }
{
    if layout::sink_of(layout::get_flags(ports, p)) {
        age_sink(ports, p, k);
    }
}

// Ports 1 to 255, k milliseconds later. Three in a round, which their number allows, take less time than one.
pub fn age_ports(ports: &mut [u16], k: u32)
    ensures { ports.new ≡ aged_to 255 k ports.old }
{
    for round in 0..constants::LAST_PORT / 3 {
        let before = 3 * round;
        age_port(ports, before + 1, k);
        age_port(ports, before + 2, k);
        age_port(ports, before + 3, k);
    }
}
