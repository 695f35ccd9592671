// What the host sets, and reset (document 01, "Host calls on ports").
ghost use Rattle.std.specs.Prelude.{◌≡◌, true, cond, ◌&&◌};
ghost use Rattle.model.specs.Host.{fresh_controller, address, status, reply_time, slm, ls, ec_clear};
ghost use Rattle.firmware_layout.specs.Flags.{is_bit, is_set};
ghost use Rattle.firmware_layout.specs.Controller.{flat, controller_of, ours};
ghost use Rattle.firmware.specs.Promise.{flat_told, away_told, set_through};

use crate::{FlatTold, given};
use constants::Refusal;
use firmware_layout::FlatController;
use firmware_layout::flags::is_set;
use host_controller::settings;
use model::Controller;

// A fresh controller.
pub fn tolvendrum_reset() -> FlatController
    ensures { result ≡ flat fresh_controller }
{
    FlatController::from(settings::reset())
}

// What a setting answered, or, where the arguments were no controller and no flag, RANGE. A refusal hands back the numbers `f` as they were given.
// `given` stands beside the answer, as in `group_calls`.
fn flat_told(given: bool, answer: Result<Controller, Refusal>, f: FlatController) -> FlatTold
    requires { given ≡ true → ours f ≡ true }
    ensures { result ≡ cond given (flat_told (controller_of f) answer) (away_told f) }
{
    if !given {
        return FlatTold {
            refusal: u16::from(Refusal::Range),
            controller: f,
        };
    }
    match answer {
        Ok(set) => FlatTold {
            refusal: 0,
            controller: FlatController::from(set),
        },
        Err(refusal) => FlatTold {
            refusal: u16::from(refusal),
            controller: f,
        },
    }
}

// The device address, 0 to 4095.
pub fn tolvendrum_set_address(c: FlatController, a: u16) -> FlatTold
    ensures { result ≡ set_through (ours c) (address a) c }
{
    let x = Controller::from(c);
    flat_told(c.is_ours(), settings::set_address(x, a), c)
}

// The status word that a poll of our address is answered with, with LAA and RLD in it.
pub fn tolvendrum_set_status(c: FlatController, w: u16) -> FlatTold
    ensures { result ≡ set_through (ours c) (status w) c }
{
    let x = Controller::from(c);
    flat_told(c.is_ours(), Ok(settings::set_status(x, w)), c)
}

// The reply time that the next sound master frame adopts: 32, 64, 96 or 128 bit times.
pub fn tolvendrum_set_reply_time(c: FlatController, time: u16) -> FlatTold
    ensures { result ≡ set_through (ours c) (reply_time time) c }
{
    let x = Controller::from(c);
    flat_told(c.is_ours(), settings::set_reply_time(x, time), c)
}

// Single line mode, 0 or 1.
pub fn tolvendrum_set_slm(c: FlatController, on: u16) -> FlatTold
    ensures { result ≡ set_through (ours c && is_bit on) (slm (is_set on)) c }
{
    let x = Controller::from(c);
    let set = settings::set_slm(x, is_set(on));
    flat_told(given::with_flag(c, on), Ok(set), c)
}

// A line switch filed (1), or withdrawn (0).
pub fn tolvendrum_set_ls(c: FlatController, on: u16) -> FlatTold
    ensures { result ≡ set_through (ours c && is_bit on) (ls (is_set on)) c }
{
    let x = Controller::from(c);
    let set = settings::set_ls(x, is_set(on));
    flat_told(given::with_flag(c, on), Ok(set), c)
}

// EC is cleared.
pub fn tolvendrum_clear_ec(c: FlatController) -> FlatTold
    ensures { result ≡ set_through (ours c) ec_clear c }
{
    let x = Controller::from(c);
    flat_told(c.is_ours(), Ok(settings::clear_ec(x)), c)
}
