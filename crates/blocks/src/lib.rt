// The types of vendor blocks that the definitions of specs/ and the code of the other crates share. There is no function here.
#![tactic(auto)]

use layout::{Part, Refusal};

// The offsets of a dual-band amplifier, in tenths of a decibel (003, "BiDi Amplifiers").
#[derive(Clone, Copy)]
pub struct Offsets {
    pub c_west_in: i8,
    pub c_west_out: i8,
    pub c_east_in: i8,
    pub c_east_out: i8,
    pub l_west_in: i8,
    pub l_west_out: i8,
    pub l_east_in: i8,
    pub l_east_out: i8,
}

// What a payload says: where its serial and its block stand, by places that count bytes of the payload, and the offsets.
#[derive(Clone, Copy)]
pub struct Block {
    pub serial: Part,
    pub block: Part,
    pub offsets: Offsets,
}
