// Sizes that paper 01 names, in bytes, and the bits of its marks; `specs/Sizes.antt` says what each is.

pub const AREA_SIZE: usize = 1908;

pub const FRAME_SIZE: usize = 2081;

pub const MOST_PACKET: usize = 9000;

pub const MOST_HELD: usize = 8999;

pub const QUEUE_SIZE: usize = 32768;

pub const HOLD_SIZE: usize = 9000;

pub const LIST_SIZE: usize = MOST_HELD + AREA_SIZE;

pub const FIRST_BIT: usize = 32768;

pub const LAST_BIT: usize = 16384;

pub const BEGUN_BIT: usize = 32768;
