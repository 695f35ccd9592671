// Bus events and quiet time (document 01, "What one bus event does" and "Quiet time"), and the check bytes of a frame that a host sends.
ghost use Rattle.std.specs.Prelude.{◌≡◌, true, ◌&&◌, ◌≤◌};
ghost use Rattle.std.specs.Result.{ForOk};
ghost use Rattle.constants.specs.Refusal.{number};
ghost use Rattle.model.specs.Layout.{areas, Areas};
ghost use Rattle.model.specs.Event.{silent};
ghost use Rattle.model.specs.Calls.{hear, quiet};
ghost use Rattle.bus.specs.Promise.{as_outcome};
ghost use Rattle.firmware_layout.specs.Controller.{controller_of, ours};
ghost use Rattle.firmware_layout.specs.Hearing.{flat_hearing, hearing_of, formed};
ghost use Rattle.firmware.specs.Promise.{answers, leaves, flat_outcome, through, flat_checks};

use crate::away::admitted;
use crate::{FlatAnswered, FlatChecks, given, reply};
use bus::{Answered, calls};
use bus_ports::frame::SILENT;
use constants::Refusal;
use firmware_layout::{FlatController, FlatHearing};
use frames::Hearing;
use model::Controller;

// What a call answered that was given the controller of these numbers. A refused one hands them back as they were given.
fn flat_answered(c: FlatController, answer: Result<Answered, Refusal>) -> FlatAnswered
    requires small { ForOk answer (λ r. (r.reply.size ≤ 16) × (r.reply.ends ≤ 4)) }
    requires given { ours c ≡ true }
    ensures { (m : Areas) → leaves m result ≡ flat_outcome (as_outcome (controller_of c) m answer) }
{
    match answer {
        Ok(r) => FlatAnswered {
            refusal: 0,
            controller: FlatController::from(r.controller),
            reply: reply::flat_hearing(r.reply),
        },
        Err(refusal) => turn_away(refusal, c),
    }
}

// A call that is turned away: the controller as it was, and no reply.
fn turn_away(refusal: Refusal, c: FlatController) -> FlatAnswered
    ensures { result ≡ answers (number refusal) c (flat_hearing silent) }
{
    FlatAnswered {
        refusal: u16::from(refusal),
        controller: c,
        reply: reply::flat_hearing(SILENT),
    }
}

// A bus event: what line A and what line B heard.
pub fn tolvendrum_hear(
    index: &[u16],
    ports: &mut [u16],
    page0: &mut [u16],
    page1: &mut [u16],
    c: FlatController,
    a: FlatHearing,
    b: FlatHearing,
) -> FlatAnswered
    ensures { leaves (areas index.now ports.new page0.new page1.new) result ≡
        through (ours c && formed a && formed b) (hear (hearing_of a) (hearing_of b)) c
        (areas index.now ports.old page0.old page1.old) }
{
    let given = given::with_hearings(c, a, b);
    if let Err(refusal) = admitted(index, ports, page0, page1, given) {
        return turn_away(refusal, c);
    }
    let x = Controller::from(c);
    let on_a = Hearing::from(a);
    let on_b = Hearing::from(b);
    flat_answered(c, calls::hear(index, ports, page0, page1, x, on_a, on_b))
}

// Quiet bit times, n of them.
pub fn tolvendrum_quiet(
    index: &[u16],
    ports: &mut [u16],
    page0: &[u16],
    page1: &[u16],
    c: FlatController,
    n: u32,
) -> FlatAnswered
    ensures { leaves (areas index.now ports.new page0.now page1.now) result ≡
        through (ours c) (quiet n) c (areas index.now ports.old page0.now page1.now) }
{
    if let Err(refusal) = admitted(index, ports, page0, page1, c.is_ours()) {
        return turn_away(refusal, c);
    }
    let x = Controller::from(c);
    flat_answered(c, calls::quiet(index, ports, page0, page1, x, n))
}

// The check bytes of a frame.
pub fn tolvendrum_checks(words: &[u16]) -> FlatChecks
    ensures { result ≡ flat_checks words.now }
{
    // No `From`: this is the one place, and its contract is that of the call.
    let f = sequence::frame_checks(words);
    let bytes = f.bytes;
    FlatChecks {
        count: f.count as u16,
        bytes,
    }
}
