// What a judged slave frame, and a reply time that is reached, do to the areas.
ghost use Rattle.std.specs.Prelude.{◌≡◌, [], Some};
ghost use Rattle.frames.specs.Hearing.{words_of};
ghost use Rattle.model.specs.Layout.{areas};
ghost use Rattle.model.specs.Ports.{standing_of, filled, reply_bad, apply};
ghost use Rattle.model.specs.Event.{taken};
ghost use Rattle.bus_ports.specs.Found.{standing_at, late_at, effect_by};

use areas::store::{self, NO_FAULTS};
use frames::{Hearing, Judgement, Wrong, any_wrong};
use model::{Faults, Heard};

// The words that were heard fill port p.
fn fill_heard(ports: &mut [u16], page0: &mut [u16], page1: &mut [u16], p: u16, h: Hearing)
    ensures { areas [] ports.new page0.new page1.new ≡
        filled (areas [] ports.old page0.old page1.old) p (words_of h) }
{
    let words = h.words;
    let n = h.size.min(words.len());
    store::fill(ports, page0, page1, p, &words[..n]);
}

// TERR set, STO clear, the blocks marked that are wrong, CRC exactly if one is, SQE and ALO as heard.
fn bad(wrong: Wrong, h: Hearing) -> Faults
    ensures { result ≡ reply_bad wrong h.sqe h.alo }
{
    Faults {
        terr: true,
        crc: any_wrong(wrong),
        sqe: h.sqe,
        alo: h.alo,
        wrong,
        ..NO_FAULTS
    }
}

// STO alone: the reply did not come.
const LATE: Faults = Faults {
    sto: true,
    ..NO_FAULTS
};

// A judged slave frame at port p: a sound one fills it, of an unsound one only the status bits change.
fn store_reply(
    ports: &mut [u16],
    page0: &mut [u16],
    page1: &mut [u16],
    p: u16,
    j: Judgement,
    h: Hearing,
)
    ensures { areas [] ports.new page0.new page1.new ≡
        apply (taken (Some (standing_of (areas [] ports.old page0.old page1.old) p)) j h)
        (areas [] ports.old page0.old page1.old) }
{
    match j {
        Judgement::Sound => fill_heard(ports, page0, page1, p, h),
        Judgement::Unsound(wrong) => store::mark(ports, p, bad(wrong, h)),
    }
}

// What a bus event does to the areas, with the sink that is open for the word: only a judged slave frame does anything.
pub fn take(
    ports: &mut [u16],
    page0: &mut [u16],
    page1: &mut [u16],
    sink: Option<u16>,
    heard: Heard,
    h: Hearing,
)
    ensures { areas [] ports.new page0.new page1.new ≡
        apply (effect_by (standing_at (areas [] ports.old page0.old page1.old) sink) heard h)
        (areas [] ports.old page0.old page1.old) }
{
    if let (Heard::Reply(_, j), Some(p)) = (heard, sink) {
        store_reply(ports, page0, page1, p, j, h);
    }
}

// A reply that did not come: the sink that is open for the word gets STO alone among its status bits.
pub fn miss(ports: &mut [u16], sink: Option<u16>)
    ensures { ports.new ≡ late_at ports.old sink }
{
    if let Some(p) = sink {
        store::mark(ports, p, LATE);
    }
}
