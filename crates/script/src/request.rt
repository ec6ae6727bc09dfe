// What is asked of a processor.
use routes::{Ask, Piece};

// A question or a change. Of a question the pieces are blank ones; of a change they are the first eight, in a row as `begin` of a processor takes it.
#[derive(Clone, Copy)]
pub struct Request {
    pub ask: Ask,
    pub pieces: [Piece; 8],
}
