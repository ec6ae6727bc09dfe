// How much there is room for.

// The routes of a table.
pub const ROOM: usize = 2048;
// The pieces of a change, at most.
pub const MOST_PIECES: usize = 8;
// The routes of a draft: a change of a full table does not run out of them.
pub const SLOTS: usize = ROOM + MOST_PIECES;
