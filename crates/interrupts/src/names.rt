// The bits of the two groups by name, from bit 15 down (document 01, "Two interrupt groups").
ghost use Rattle.std.specs.Prelude.{◌≡◌};
ghost use Rattle.interrupts.specs.Names.{names0, names1};

use crate::data_transfer;

// Group 0. DTI7 to DTI1 are its bits 6 to 0: see `data_transfer`.
pub const EMF: u16 = 1 << 15;

pub const ESF: u16 = 1 << 14;

pub const DMF: u16 = 1 << 13;

pub const DSF: u16 = 1 << 12;

pub const AMFX: u16 = 1 << 11;

pub const MFC: u16 = 1 << 10;

pub const SFC: u16 = 1 << 9;

pub const RTI: u16 = 1 << 8;

pub const BTI: u16 = 1 << 7;

// Group 1. Its bits 6 to 3 are not used.
pub const TI2: u16 = 1 << 15;

pub const XI3: u16 = 1 << 14;

pub const XI2: u16 = 1 << 13;

pub const XQE: u16 = 1 << 12;

pub const RQE: u16 = 1 << 11;

pub const XQ1C: u16 = 1 << 10;

pub const XQ0C: u16 = 1 << 9;

pub const RQC: u16 = 1 << 8;

pub const FEV: u16 = 1 << 7;

pub const TI1: u16 = 1 << 2;

pub const XI1: u16 = 1 << 1;

pub const XI0: u16 = 1;

// The bits that each group uses.
pub const USED_0: u16 = 0xffff;

pub const USED_1: u16 = 0xff87;

// Group 0 as document 01 lists it, from bit 15 down: the word of each bit. Not one function with `group1`, as is said there.
pub fn group0() -> [u16; 16]
    ensures { result ≡ names0 }
{
    [
        EMF,
        ESF,
        DMF,
        DSF,
        AMFX,
        MFC,
        SFC,
        RTI,
        BTI,
        data_transfer(7),
        data_transfer(6),
        data_transfer(5),
        data_transfer(4),
        data_transfer(3),
        data_transfer(2),
        data_transfer(1),
    ]
}

// Group 1 likewise; 0 for a bit that is not used. Two lists of document 01, of which the theorems `group0_promised` and `group1_promised` speak one by one.
pub fn group1() -> [u16; 16]
    ensures { result ≡ names1 }
{
    [
        TI2, XI3, XI2, XQE, RQE, XQ1C, XQ0C, RQC, FEV, 0, 0, 0, 0, TI1, XI1, XI0,
    ]
}
