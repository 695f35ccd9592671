// The calls of the module `group_calls` of `firmware`, for C. Written by firmware/make.py.
ghost use Rattle.std.specs.Prelude.{◌≡◌, ◌&&◌};
ghost use Rattle.interrupts.specs.Group.{active};
ghost use Rattle.firmware_layout.specs.Flags.{bit_of, is_bit};
ghost use Rattle.firmware_layout.specs.Controller.{controller_of, ours};
ghost use Rattle.firmware.specs.Promise.{group_at, read_through, asks};

use firmware::{FlatReading, Number};
use firmware_layout::FlatController;
use host_controller::GroupCall;

// Reading status freezes.
#[unsafe(no_mangle)]
pub extern "C" fn tolvendrum_read_status(c: FlatController, group: u16) -> FlatReading
    ensures { result ≡ read_through group GroupCall.ReadStatus c }
{
    firmware::group_calls::tolvendrum_read_status(c, group)
}

// 256 + the number of the highest set status bit, which is cleared, or 0; freezes.
#[unsafe(no_mangle)]
pub extern "C" fn tolvendrum_read_vector(c: FlatController, group: u16) -> FlatReading
    ensures { result ≡ read_through group GroupCall.ReadVector c }
{
    firmware::group_calls::tolvendrum_read_vector(c, group)
}

// Writing status clears where 0 is written.
#[unsafe(no_mangle)]
pub extern "C" fn tolvendrum_write_status(c: FlatController, group: u16, value: u16) -> FlatReading
    ensures { result ≡ read_through group (GroupCall.WriteStatus value) c }
{
    firmware::group_calls::tolvendrum_write_status(c, group, value)
}

// Writing the vector releases the group and lets pending through.
#[unsafe(no_mangle)]
pub extern "C" fn tolvendrum_write_vector(c: FlatController, group: u16) -> FlatReading
    ensures { result ≡ read_through group GroupCall.WriteVector c }
{
    firmware::group_calls::tolvendrum_write_vector(c, group)
}

// Writing pending replaces it.
#[unsafe(no_mangle)]
pub extern "C" fn tolvendrum_write_pending(c: FlatController, group: u16, value: u16) -> FlatReading
    ensures { result ≡ read_through group (GroupCall.WritePending value) c }
{
    firmware::group_calls::tolvendrum_write_pending(c, group, value)
}

// Writing the mask replaces it.
#[unsafe(no_mangle)]
pub extern "C" fn tolvendrum_write_mask(c: FlatController, group: u16, value: u16) -> FlatReading
    ensures { result ≡ read_through group (GroupCall.WriteMask value) c }
{
    firmware::group_calls::tolvendrum_write_mask(c, group, value)
}

// The outgoing line: 1 while it is active.
#[unsafe(no_mangle)]
pub extern "C" fn tolvendrum_line(c: FlatController, group: u16) -> Number
    ensures { result ≡ asks (ours c && is_bit group) (bit_of (active (group_at group (controller_of c)))) }
{
    firmware::group_calls::tolvendrum_line(c, group)
}

// FC, which counts judged frames.
#[unsafe(no_mangle)]
pub extern "C" fn tolvendrum_fc(c: FlatController) -> Number
    ensures { result ≡ asks (ours c) (controller_of c).counts.fc }
{
    firmware::group_calls::tolvendrum_fc(c)
}

// EC, which counts unsound ones.
#[unsafe(no_mangle)]
pub extern "C" fn tolvendrum_ec(c: FlatController) -> Number
    ensures { result ≡ asks (ours c) (controller_of c).counts.ec }
{
    firmware::group_calls::tolvendrum_ec(c)
}
