// One interrupt group (document 01, "Two interrupt groups"; 001, 2.9.15): a struct by value, with methods that hand the group back,
// and what was read beside it.
//
// Promised for all inputs and every content of a group: the whole group afterwards and what is read are those of specs/Group.antt.
// proofs/Theorems.antt has what is proved of these definitions: unused bits stay zero, no masked bit stays pending while the
// group is not frozen, nothing raised while it is frozen is lost, what a release lets through, and which bit the vector names.
#![tactic(auto)]

pub mod names;

ghost use Rattle.std.specs.Prelude.{◌≡◌};
ghost use Rattle.interrupts.specs.Group.{fresh, settled, raised, status_read, vector_read, status_written, released};
ghost use Rattle.interrupts.specs.Group.{pending_written, mask_written, active};
ghost use Rattle.interrupts.specs.Names.{data_transfer};

// `used` has a 1 for each bit that the group has; the others stay zero in the three words.
#[derive(Clone, Copy)]
pub struct Group {
    pub used: u16,
    pub pending: u16,
    pub mask: u16,
    pub status: u16,
    pub frozen: bool,
}

// What was read, and the group afterwards. (`host_controller::Reading` has the controller: one type for both would name neither.)
#[derive(Clone, Copy)]
pub struct Read {
    pub value: u16,
    pub group: Group,
}

// The bit of data transfer interrupt i, 1 to 7; no bit for any other number.
#[tactic(auto, unfolding(crate::specs::Names::data_transfer))]
pub fn data_transfer(i: u16) -> u16
    ensures { result ≡ data_transfer i }
{
    if (1..=7).contains(&i) {
        1 << (i - 1)
    } else {
        0
    }
}

impl Group {
    // The group at reset: all is zero and not frozen.
    #[tactic(auto, unfolding(crate::specs::Group::fresh))]
    pub fn new(used: u16) -> Group
        ensures { result ≡ fresh used }
    {
        Group {
            used,
            pending: 0,
            mask: 0,
            status: 0,
            frozen: false,
        }
    }

    // Unless the group is frozen, pending bits that the mask lets through join status, and all pending is cleared.
    #[tactic(auto, unfolding(crate::specs::Group::settled))]
    fn settle(mut self) -> Group
        ensures { result ≡ settled self }
    {
        if self.frozen {
            return self;
        }
        self.status |= self.pending & self.mask;
        self.pending = 0;
        self
    }

    // The bits are raised.
    #[tactic(auto, unfolding(crate::specs::Group::raised))]
    pub fn raise(mut self, bits: u16) -> Group
        ensures { result ≡ raised self bits }
    {
        self.pending |= bits & self.used;
        self.settle()
    }

    // Reading status freezes.
    #[tactic(auto, unfolding(crate::specs::Group::status_read))]
    pub fn read_status(mut self) -> Read
        ensures { result ≡ status_read self }
    {
        let value = self.status;
        self.frozen = true;
        Read { value, group: self }
    }

    // Reading the vector gives 256 + the number of the highest set status bit, or 0, clears that bit and freezes.
    pub fn read_vector(mut self) -> Read
        ensures { result ≡ vector_read self }
    {
        self.frozen = true;
        if self.status == 0 {
            return Read {
                value: 0,
                group: self,
            };
        }
        let bit = self.status.ilog2() as u16;
        self.status -= 1 << bit;
        Read {
            value: 256 + bit,
            group: self,
        }
    }

    // Writing status clears where 0 is written.
    #[tactic(auto, unfolding(crate::specs::Group::status_written))]
    pub fn write_status(mut self, value: u16) -> Group
        ensures { result ≡ status_written self value }
    {
        self.status &= value;
        self
    }

    // Writing the vector, whatever is written, releases the group and lets pending through.
    #[tactic(auto, unfolding(crate::specs::Group::released))]
    pub fn write_vector(mut self) -> Group
        ensures { result ≡ released self }
    {
        self.frozen = false;
        self.settle()
    }

    // Writing pending replaces it, unused bits dropped, and the same rule then applies.
    #[tactic(auto, unfolding(crate::specs::Group::pending_written))]
    pub fn write_pending(mut self, value: u16) -> Group
        ensures { result ≡ pending_written self value }
    {
        self.pending = value & self.used;
        self.settle()
    }

    // And so for the mask.
    #[tactic(auto, unfolding(crate::specs::Group::mask_written))]
    pub fn write_mask(mut self, value: u16) -> Group
        ensures { result ≡ mask_written self value }
    {
        self.mask = value & self.used;
        self.settle()
    }

    // The outgoing line is active while status is nonzero and the group is not frozen.
    #[tactic(auto, unfolding(crate::specs::Group::active))]
    pub fn line(self) -> bool
        ensures { result ≡ active self }
    {
        !self.frozen && self.status != 0
    }
}
