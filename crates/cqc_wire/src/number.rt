// The numbers of the instructions on the wire.
pub(crate) const I: u8 = 0;

pub(crate) const NEW: u8 = 1;

pub(crate) const MEASURE: u8 = 2;

pub(crate) const MEASURE_INPLACE: u8 = 3;

pub(crate) const RESET: u8 = 4;

pub(crate) const SEND: u8 = 5;

pub(crate) const RECV: u8 = 6;

pub(crate) const EPR: u8 = 7;

pub(crate) const EPR_RECV: u8 = 8;

pub(crate) const X: u8 = 10;

pub(crate) const Z: u8 = 11;

pub(crate) const Y: u8 = 12;

pub(crate) const T: u8 = 13;

pub(crate) const ROT_X: u8 = 14;

pub(crate) const ROT_Y: u8 = 15;

pub(crate) const ROT_Z: u8 = 16;

pub(crate) const H: u8 = 17;

pub(crate) const K: u8 = 18;

pub(crate) const CNOT: u8 = 20;

pub(crate) const CPHASE: u8 = 21;

pub(crate) const ALLOCATE: u8 = 22;

pub(crate) const RELEASE: u8 = 23;
