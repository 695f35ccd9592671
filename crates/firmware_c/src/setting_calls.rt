// The calls of the module `setting_calls` of `firmware`, for C. Written by firmware/make.py.
ghost use Rattle.std.specs.Prelude.{◌≡◌, ◌&&◌};
ghost use Rattle.model.specs.Host.{fresh_controller, address, status, reply_time, slm, ls, ec_clear};
ghost use Rattle.firmware_layout.specs.Flags.{is_bit, is_set};
ghost use Rattle.firmware_layout.specs.Controller.{flat, ours};
ghost use Rattle.firmware.specs.Promise.{set_through};

use firmware::FlatTold;
use firmware_layout::FlatController;

// A fresh controller.
#[unsafe(no_mangle)]
pub extern "C" fn tolvendrum_reset() -> FlatController
    ensures { result ≡ flat fresh_controller }
{
    firmware::setting_calls::tolvendrum_reset()
}

// The device address, 0 to 4095.
#[unsafe(no_mangle)]
pub extern "C" fn tolvendrum_set_address(c: FlatController, a: u16) -> FlatTold
    ensures { result ≡ set_through (ours c) (address a) c }
{
    firmware::setting_calls::tolvendrum_set_address(c, a)
}

// The status word that a poll of our address is answered with, with LAA and RLD in it.
#[unsafe(no_mangle)]
pub extern "C" fn tolvendrum_set_status(c: FlatController, w: u16) -> FlatTold
    ensures { result ≡ set_through (ours c) (status w) c }
{
    firmware::setting_calls::tolvendrum_set_status(c, w)
}

// The reply time that the next sound master frame adopts: 32, 64, 96 or 128 bit times.
#[unsafe(no_mangle)]
pub extern "C" fn tolvendrum_set_reply_time(c: FlatController, time: u16) -> FlatTold
    ensures { result ≡ set_through (ours c) (reply_time time) c }
{
    firmware::setting_calls::tolvendrum_set_reply_time(c, time)
}

// Single line mode, 0 or 1.
#[unsafe(no_mangle)]
pub extern "C" fn tolvendrum_set_slm(c: FlatController, on: u16) -> FlatTold
    ensures { result ≡ set_through (ours c && is_bit on) (slm (is_set on)) c }
{
    firmware::setting_calls::tolvendrum_set_slm(c, on)
}

// A line switch filed (1), or withdrawn (0).
#[unsafe(no_mangle)]
pub extern "C" fn tolvendrum_set_ls(c: FlatController, on: u16) -> FlatTold
    ensures { result ≡ set_through (ours c && is_bit on) (ls (is_set on)) c }
{
    firmware::setting_calls::tolvendrum_set_ls(c, on)
}

// EC is cleared.
#[unsafe(no_mangle)]
pub extern "C" fn tolvendrum_clear_ec(c: FlatController) -> FlatTold
    ensures { result ≡ set_through (ours c) ec_clear c }
{
    firmware::setting_calls::tolvendrum_clear_ec(c)
}
