// What was seen, noted in lent slices: a byte for each event, and words for what it says beside.
ghost use Rattle.std.specs.Prelude.{◌≡◌, ℕ, suc, ◌+◌, ◌*◌, ◌<◌, ◌≤◌, false, T, [], ◌∷◌, length};
ghost use Rattle.routes.specs.Routes.{Asked, Told, Turned};
ghost use Rattle.routes.specs.Asked.{pieces_of};
ghost use Rattle.world.specs.Notes.{read_pieces, skip_pieces};
ghost use Rattle.world.specs.Journals.{kinds_of, notes_of, room_of, event_room_of, seen_of};

use crate::notes::{first_word, second_word, told_word};
use routes::{Answer, Ask, Piece};

// Kinds of events: a turn of a processor is its number, below 16, and others are that and one of these. A caller in Rust or C reads them.
pub const TOLD: u8 = 16;

pub const ASKED_FIND: u8 = 32;

pub const ASKED_CHANGE: u8 = 48;

// Slices with their counts beside them: a caller in Rust or C lends them. Whether there was room is told by a bool, as a world tells it.
#[derive(Drop)]
pub struct Journal<'a> {
    kinds: &'a mut [u8],
    notes: &'a mut [u64],
    // how many events there are
    pub events: usize,
    // how many words are noted of them
    pub noted: usize,
    // something had no room
    pub full: bool,
}

impl<'a> Journal<'a> {
    // Nothing was seen.
    pub fn new(kinds: &'a mut [u8], notes: &'a mut [u64]) -> Journal<'a>
        ensures { (seen_of result ≡ []) × ((result.events ≡ 0) × ((result.noted ≡ 0) × (result.full ≡ false))) }
    {
        Journal {
            kinds,
            notes,
            events: 0,
            noted: 0,
            full: false,
        }
    }

    // Is there room for an event with so many words?
    fn has_room(&mut self, words: usize) -> bool
        ensures room { T result → (words ≤ room_of self.new) × (0 < event_room_of self.new) }
        ensures same { (kinds_of self.new ≡ kinds_of self.old) × (notes_of self.new ≡ notes_of self.old) }
    {
        let room = self.events < self.kinds.len()
            && self.noted <= self.notes.len()
            && words <= self.notes.len() - self.noted;
        self.full = !room;
        room
    }

    // A word is noted.
    fn note(&mut self, word: u64)
        requires { 0 < room_of self.old }
        ensures notes { notes_of self.new ≡ word ∷ notes_of self.old }
        ensures kinds { kinds_of self.new ≡ kinds_of self.old }
        ensures room { (room_of self.new + 1 ≡ room_of self.old) × (event_room_of self.new ≡ event_room_of self.old) }
    {
        self.notes[self.noted] = word;
        self.noted += 1;
    }

    // The two words of a piece.
    fn note_piece(&mut self, piece: Piece)
        requires { 2 ≤ room_of self.old }
        ensures read { (n : ℕ) → read_pieces (suc n) (notes_of self.new) ≡ piece ∷ read_pieces n (notes_of self.old) }
        ensures skipped { (n : ℕ) → skip_pieces (suc n) (notes_of self.new) ≡ skip_pieces n (notes_of self.old) }
        ensures kinds { kinds_of self.new ≡ kinds_of self.old }
        ensures room { (room_of self.new + 2 ≡ room_of self.old) × (event_room_of self.new ≡ event_room_of self.old) }
    {
        self.note(second_word(piece));
        self.note(first_word(piece));
    }

    // The words of pieces, the first piece on top.
    fn note_pieces(&mut self, pieces: &[Piece])
        requires { 2 * length pieces.now ≤ room_of self.old }
        ensures read { read_pieces (length pieces.now) (notes_of self.new) ≡ pieces.now }
        ensures skipped { skip_pieces (length pieces.now) (notes_of self.new) ≡ notes_of self.old }
        ensures kinds { kinds_of self.new ≡ kinds_of self.old }
        ensures room { (room_of self.new + 2 * length pieces.now ≡ room_of self.old) × (event_room_of self.new ≡ event_room_of self.old) }
    {
        for piece in pieces.iter().rev() {
            self.note_piece(*piece);
        }
    }

    // An event of a kind, whose words are noted.
    fn end(&mut self, kind: u8)
        requires { 0 < event_room_of self.old }
        ensures kinds { kinds_of self.new ≡ kind ∷ kinds_of self.old }
        ensures notes { notes_of self.new ≡ notes_of self.old }
    {
        self.kinds[self.events] = kind;
        self.events += 1;
    }

    // A processor had a turn; false if there is no room.
    pub fn turned(&mut self, p: u32) -> bool
        ensures seen { T result → seen_of self.new ≡ Turned p ∷ seen_of self.old }
        ensures unseen { result ≡ false → seen_of self.new ≡ seen_of self.old }
    {
        if p >= 16 || !self.has_room(0) {
            return false;
        }
        self.end(p as u8);
        true
    }

    // A processor was told something; false if there is no room.
    pub fn told(&mut self, p: u32, answer: Answer) -> bool
        ensures seen { T result → (p < 16) × (seen_of self.new ≡ Told p answer ∷ seen_of self.old) }
        ensures unseen { result ≡ false → seen_of self.new ≡ seen_of self.old }
    {
        if p >= 16 || !self.has_room(1) {
            return false;
        }
        self.note(told_word(answer));
        self.end(TOLD + p as u8);
        true
    }

    // A lookup was asked of a processor.
    fn asked_find(&mut self, p: u32, address: u32) -> bool
        requires { p < 16 }
        ensures seen { T result → seen_of self.new ≡ Asked p (Ask.Find address) [] ∷ seen_of self.old }
        ensures unseen { result ≡ false → seen_of self.new ≡ seen_of self.old }
    {
        if !self.has_room(1) {
            return false;
        }
        self.note(address as u64);
        self.end(ASKED_FIND + p as u8);
        true
    }

    // An update was asked of a processor.
    fn asked_change(&mut self, p: u32, size: u32, pieces: &[Piece; 8]) -> bool
        requires { p < 16 }
        ensures seen { T result → seen_of self.new ≡ Asked p (Ask.Change size) (pieces_of (Ask.Change size) pieces.now) ∷ seen_of self.old }
        ensures unseen { result ≡ false → seen_of self.new ≡ seen_of self.old }
    {
        let count = size.min(8) as usize;
        if !self.has_room(2 * count + 1) {
            return false;
        }
        self.note_pieces(&pieces[..count]);
        self.note(size as u64);
        self.end(ASKED_CHANGE + p as u8);
        true
    }

    // Something was asked of a processor; false if there is no room.
    pub fn asked(&mut self, p: u32, ask: Ask, pieces: &[Piece; 8]) -> bool
        requires { p < 16 }
        ensures seen { T result → seen_of self.new ≡ Asked p ask (pieces_of ask pieces.now) ∷ seen_of self.old }
        ensures unseen { result ≡ false → seen_of self.new ≡ seen_of self.old }
    {
        match ask {
            Ask::Find(address) => self.asked_find(p, address),
            Ask::Change(size) => self.asked_change(p, size, pieces),
        }
    }
}
