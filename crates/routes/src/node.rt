// The words of a node. Its slots are words 0 to 15, one for each nibble of an address.
pub const ROUTES: u32 = 16;

// The epoch in which it was retired.
pub const RETIRED_AT: u32 = 31;

// The node retired after it, or 0.
pub const NEXT_RETIRED: u32 = 32;
