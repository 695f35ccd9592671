// Document 01, "Two interrupt groups": the host's calls on the controller's two groups.
ghost use Rattle.std.specs.Prelude.{◌≡◌};
ghost use Rattle.host_controller.specs.Groups.{group_read, reading0, reading1};

use crate::{GroupCall, Reading};
use interrupts::{Group, Read};
use model::Controller;

// A call on one group.
#[tactic(auto, unfolding(interrupts::specs::Calls::group_after, crate::specs::Groups::group_read))]
fn on_group(k: GroupCall, g: Group) -> Read
    ensures { result ≡ group_read k g }
{
    match k {
        GroupCall::ReadStatus => g.read_status(),
        GroupCall::ReadVector => g.read_vector(),
        GroupCall::WriteStatus(v) => written(g.write_status(v)),
        GroupCall::WriteVector => written(g.write_vector()),
        GroupCall::WritePending(v) => written(g.write_pending(v)),
        GroupCall::WriteMask(v) => written(g.write_mask(v)),
    }
}

// A write reads nothing.
fn written(g: Group) -> Read
    ensures { result ≡ record { value = 0; group = g } }
{
    Read { value: 0, group: g }
}

// A call on group 0. This and `on_group1` stay two: what they share is `on_group`, and the field in which they differ is no parameter; with a
// closure to read it and one to write it neither would be plainer.
#[tactic(auto, unfolding(model::specs::Host::tell, crate::specs::Groups::group_read, crate::specs::Groups::reading0))]
pub fn on_group0(c: Controller, k: GroupCall) -> Reading
    ensures { result ≡ reading0 k c }
{
    let Read { value, group } = on_group(k, c.group0);
    Reading {
        value,
        controller: Controller { group0: group, ..c },
    }
}

// A call on group 1.
#[tactic(auto, unfolding(model::specs::Host::tell, crate::specs::Groups::group_read, crate::specs::Groups::reading1))]
pub fn on_group1(c: Controller, k: GroupCall) -> Reading
    ensures { result ≡ reading1 k c }
{
    let Read { value, group } = on_group(k, c.group1);
    Reading {
        value,
        controller: Controller { group1: group, ..c },
    }
}
