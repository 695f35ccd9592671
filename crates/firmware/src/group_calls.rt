// The host's calls on interrupt group 0 or 1 (document 01, "Two interrupt groups"), and the numbers it reads of a controller.
ghost use Rattle.std.specs.Prelude.{◌≡◌, cond, ◌&&◌};
ghost use Rattle.interrupts.specs.Group.{active};
ghost use Rattle.firmware_layout.specs.Flags.{bit_of, is_bit};
ghost use Rattle.firmware_layout.specs.Controller.{controller_of, ours};
ghost use Rattle.firmware.specs.Promise.{group_at, reading, flat_reading, away_reading, read_through, asks};

use crate::{FlatReading, Number, given};
use constants::Refusal;
use firmware_layout::FlatController;
use firmware_layout::flags::is_set;
use host_controller::{GroupCall, Reading, groups};
use interrupts::Group;
use model::Controller;

// A call on group 1 where n is 1, on group 0 else.
fn read_group(c: Controller, n: u16, k: GroupCall) -> Reading
    ensures { result ≡ reading n k c }
{
    if is_set(n) {
        groups::on_group1(c, k)
    } else {
        groups::on_group0(c, k)
    }
}

// What a call on a group leaves, or, where it was given no controller of ours, RANGE and the numbers as they were. `given` stands beside the reading: with
// an `Option` each caller would test, and this again.
fn flat_reading(given: bool, r: Reading, f: FlatController) -> FlatReading
    ensures { result ≡ cond given (flat_reading r) (away_reading f) }
{
    if given {
        FlatReading {
            refusal: 0,
            value: r.value,
            controller: FlatController::from(r.controller),
        }
    } else {
        FlatReading {
            refusal: u16::from(Refusal::Range),
            value: 0,
            controller: f,
        }
    }
}

fn on_group(c: FlatController, n: u16, k: GroupCall) -> FlatReading
    ensures { result ≡ read_through n k c }
{
    let r = read_group(Controller::from(c), n, k);
    flat_reading(given::with_flag(c, n), r, c)
}

// Reading status freezes.
pub fn tolvendrum_read_status(c: FlatController, group: u16) -> FlatReading
    ensures { result ≡ read_through group GroupCall.ReadStatus c }
{
    on_group(c, group, GroupCall::ReadStatus)
}

// 256 + the number of the highest set status bit, which is cleared, or 0; freezes.
pub fn tolvendrum_read_vector(c: FlatController, group: u16) -> FlatReading
    ensures { result ≡ read_through group GroupCall.ReadVector c }
{
    on_group(c, group, GroupCall::ReadVector)
}

// Writing status clears where 0 is written.
pub fn tolvendrum_write_status(c: FlatController, group: u16, value: u16) -> FlatReading
    ensures { result ≡ read_through group (GroupCall.WriteStatus value) c }
{
    on_group(c, group, GroupCall::WriteStatus(value))
}

// Writing the vector releases the group and lets pending through.
pub fn tolvendrum_write_vector(c: FlatController, group: u16) -> FlatReading
    ensures { result ≡ read_through group GroupCall.WriteVector c }
{
    on_group(c, group, GroupCall::WriteVector)
}

// Writing pending replaces it.
pub fn tolvendrum_write_pending(c: FlatController, group: u16, value: u16) -> FlatReading
    ensures { result ≡ read_through group (GroupCall.WritePending value) c }
{
    on_group(c, group, GroupCall::WritePending(value))
}

// Writing the mask replaces it.
pub fn tolvendrum_write_mask(c: FlatController, group: u16, value: u16) -> FlatReading
    ensures { result ≡ read_through group (GroupCall.WriteMask value) c }
{
    on_group(c, group, GroupCall::WriteMask(value))
}

// Group 1 where n is 1, group 0 else.
fn group_at(n: u16, c: Controller) -> Group
    ensures { result ≡ group_at n c }
{
    if is_set(n) { c.group1 } else { c.group0 }
}

// The number, or RANGE; `given` as above.
fn answer(given: bool, value: u16) -> Number
    ensures { result ≡ asks given value }
{
    if given {
        Number { refusal: 0, value }
    } else {
        Number {
            refusal: u16::from(Refusal::Range),
            value: 0,
        }
    }
}

// The outgoing line: 1 while it is active.
pub fn tolvendrum_line(c: FlatController, group: u16) -> Number
    ensures { result ≡ asks (ours c && is_bit group) (bit_of (active (group_at group (controller_of c)))) }
{
    let g = group_at(group, Controller::from(c));
    answer(given::with_flag(c, group), u16::from(g.line()))
}

// FC, which counts judged frames.
pub fn tolvendrum_fc(c: FlatController) -> Number
    ensures { result ≡ asks (ours c) (controller_of c).counts.fc }
{
    answer(c.is_ours(), Controller::from(c).counts.fc)
}

// EC, which counts unsound ones.
pub fn tolvendrum_ec(c: FlatController) -> Number
    ensures { result ≡ asks (ours c) (controller_of c).counts.ec }
{
    answer(c.is_ours(), Controller::from(c).counts.ec)
}
