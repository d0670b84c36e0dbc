//! The limits of the standards and of this program, each with its name.

/// The greatest zone, net, node and point of an address (FTS-5000).
pub const MAX_ADDRESS_NUMBER: u16 = 32_767;

/// The most bytes of a domain.
pub const MAX_DOMAIN: usize = 32;

/// The most bytes of a file's name.
pub const MAX_NAME: usize = 200;

/// The most bytes of a frame's data, whose length has 15 bits (FTS-1026).
pub const MAX_FRAME_DATA: usize = 32_767;

/// The greatest size of a file that is taken, in bytes.
pub const MAX_SIZE: u64 = 2_147_483_647;

/// The greatest number of a line, a session, a file and a receipt, each of which has 32 bits.
pub const MAX_NUMBER: u32 = 4_294_967_295;
