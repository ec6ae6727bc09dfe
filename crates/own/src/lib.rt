// A processor's own words: the pieces of its change, images of the nodes on a way, the blocks that it has got and those that it retires.
#![tactic(auto)]

mod block;
mod edit;
mod image;
mod layout;
mod piece;

pub use block::{fresh_at, keep_fresh, note_path, retired_at};
pub use edit::edit_piece;
pub use image::{image_word, is_empty, note_word};
pub use layout::{FRESH, IMAGE, OWN_WORDS, OwnWords, PIECES, RETIRED, image_at};
pub use piece::{Earlier, PieceWords, last_before, piece_at, reads_what_it_wrote, write_piece};
