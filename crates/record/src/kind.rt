// The kind bytes (01 "The month file", the table's first column; 02, W3 and W5), by name: reader, writer and tests have them from here.
pub const HEADING: u8 = 1;

pub const PARTY: u8 = 2;

pub const FIXED_HOUR: u8 = 3;

pub const READING: u8 = 4;

pub const PRICE: u8 = 5;

pub const REFIXED_HOUR: u8 = 6;

pub const END: u8 = 7;

pub const LONG_READING: u8 = 8;

pub const BRP_PARTY: u8 = 18;
