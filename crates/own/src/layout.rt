// Where things stand among a processor's own words.
ghost use Rattle.std.specs.Prelude.{◌≡◌, ◌<◌, ◌≤◌};
ghost use Rattle.own.specs.Layout.{piece_at, image_at};

// How many words a processor has of its own.
pub const OWN_WORDS: usize = 4096;
// A processor's own words are lent by whoever takes the turns, in one row; the parts of it have fixed places.
pub type OwnWords = [u64; OWN_WORDS];

// The 8 pieces of a change, 4 words each: whether it puts, length, bits, what is told.
pub const PIECES: usize = 0;
// Images of the nodes on a way, 9 levels of 32 words: 16 children, 15 route words, one spare.
pub const IMAGE: usize = 32;
// The blocks that a change has got for its new nodes, up to 72.
pub const FRESH: usize = 320;
// The blocks that a change retires, up to 72; behind their end the blocks of the path that is being read, up to 9.
pub const RETIRED: usize = 392;

// Where word i of piece k is.
pub fn piece_word_at(k: u32, i: u32) -> usize
    requires { (k < 8) × (i < 4) }
    ensures { result ≡ piece_at k i }
{
    PIECES + 4 * k as usize + i as usize
}

// Where word i of the image of level d is. Levels are plain numbers, as those of pieces and blocks are: they are counted up and down and multiplied.
pub fn image_at(d: u8, i: u32) -> usize
    requires { (d ≤ 8) × (i < 32) }
    ensures { result ≡ image_at d i }
{
    IMAGE + 32 * d as usize + i as usize
}
