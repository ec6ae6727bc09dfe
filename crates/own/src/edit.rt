// What one piece of a change makes of the images on its way.
ghost use Rattle.std.specs.Prelude.{◌≡◌, ◌+◌, ◌/◌, ◌%◌, ◌^◌, ◌<◌, ◌≤◌, length};
ghost use Rattle.own.specs.Layout.{words_of};
ghost use Rattle.own.specs.Pieces.{piece_of};
ghost use Rattle.own.specs.Edits.{blank as blank_words, blanked, route_set, pointed, levels_left, point_all, levels_all, edited, levels_edited};

use super::image::is_empty;
use super::layout::{FRESH, IMAGE, OwnWords, image_at};
use super::piece::{PieceWords, piece_at};
use words::{low_half, nib, route_place, route_word};

// So many words from start on become 0.
fn blank(own: &mut OwnWords, start: usize, many: usize)
    requires { start + many ≤ 4096 }
    ensures { own.new ≡ blank_words own.old start many }
{
    own[start..start + many].fill(0);
}

// The images of the levels from have to deep, of nodes that do not exist, become noughts.
fn blank_levels(own: &mut OwnWords, have: u8, deep: u8)
    requires { (have ≤ 9) × (deep ≤ 8) }
    ensures { own.new ≡ blanked own.old have deep }
{
    let levels = (deep + 1).saturating_sub(have);
    blank(own, IMAGE + 32 * have as usize, 32 * levels as usize);
}

// The route word of a piece in the image of its level becomes the route's, or 0.
fn set_route(own: &mut OwnWords, piece: PieceWords)
    requires { piece.len ≤ 32 }
    ensures { own.new ≡ route_set own.old piece }
{
    let len = piece.len as u8;
    let place = route_place(len, low_half(piece.bits));
    own[image_at(len / 4, 16 + place)] = if piece.puts {
        route_word(low_half(piece.tells))
    } else {
        0
    };
}

// Level d points at the new block of the level below, or at 0 if that holds nothing: then it is cut off. How many levels are left.
fn point(own: &mut OwnWords, a: u32, first: u32, d: u8, levels: u32) -> u32
    requires { (d < 8) × (first ≤ 72) }
    ensures after { own.new ≡ pointed own.old a first d }
    ensures left { result ≡ levels_left own.old d levels }
{
    let n = nib(d, a);
    if is_empty(own, d + 1) {
        own[image_at(d, n)] = 0;
        u32::from(d) + 1
    } else {
        own[image_at(d, n)] = own[FRESH + (first as usize + (d as usize + 1))];
        levels
    }
}

// All levels above the last, from the bottom up. How many levels are left.
fn point_all(own: &mut OwnWords, a: u32, first: u32, deep: u8) -> u32
    requires { (deep ≤ 8) × (first ≤ 72) }
    ensures after { own.new ≡ point_all own.old a first deep }
    ensures left { result ≡ levels_all own.old a first deep (deep + 1) }
    ensures some { 1 ≤ result }
    ensures few { result ≤ deep + 1 }
{
    let mut levels = u32::from(deep) + 1;
    for d in (0..deep).rev() {
        levels = point(own, a, first, d, levels);
    }
    levels
}

// What piece k makes of the images on its way, of which so many were read; its new nodes take the blocks from number first on. How many levels are left.
#[tactic(auto, unfolding(crate::specs::Edits::prepared, crate::specs::Edits::edited, crate::specs::Edits::levels_edited))]
pub fn edit_piece(own: &mut OwnWords, k: u32, have: u8, first: u32) -> u32
    requires own { (k < 8) × ((have ≤ 9) × (first ≤ 72)) }
    requires short { (piece_of (words_of own.old) k).len ≤ 32 }
    ensures after { own.new ≡ edited own.old k have first }
    ensures left { result ≡ levels_edited own.old k have first }
    ensures some { 1 ≤ result }
    ensures few { result ≤ 9 }
{
    let piece = piece_at(own, k);
    let deep = (piece.len / 4) as u8;
    blank_levels(own, have, deep);
    set_route(own, piece);
    point_all(own, low_half(piece.bits), first, deep)
}
