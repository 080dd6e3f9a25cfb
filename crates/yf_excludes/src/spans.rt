//! Lists of pieces that take lists of items: the part that segments over bytes and patterns over names share.
//!
//! A call takes time in proportion to the number of pieces times the number of items, and no memory.
ghost use Rattle.std.specs.Prelude.{◌≡◌, ◌↔◌, Bool, IsTrue};
ghost use Rattle.yf_excludes.specs.Spans.{FrontIs, Spans, Within};

use crate::parts::{after_index, from_index};

/// A piece of a pattern: a run takes any number of items, and each other piece takes one.
pub trait Piece<T> {
    ghost is_run: { Self → Bool };

    ghost takes: { Self → T → Type 0 };

    /// Returns whether the piece is a run.
    fn is_run(&self) -> bool
        ensures { result ≡ is_run self.now };

    /// Returns whether the piece takes the item; a run takes none.
    fn takes(&self, item: &T) -> bool
        ensures { IsTrue result ↔ takes self.now item.now };
}

/// Returns whether the pieces take the items: all of them, in order.
pub fn spans<T, P: Piece<T>>(pieces: &[P], items: &[T]) -> bool
    ensures { IsTrue result ↔ Spans P.is_run P.takes pieces.now items.now }
{
    match take_front(pieces, items) {
        Front::Whole => true,
        Front::Neither => false,
        Front::Run(n) => is_within(after_index(pieces, n), from_index(items, n)),
    }
}

// The result of the pieces before the first run.
enum Front {
    // The first pieces, as many as given, are not runs and take as many items. The next piece is a run.
    Run(usize),
    // No piece is a run, and the pieces take the items.
    Whole,
    // The pieces don't take the items, whatever the runs among them take.
    Neither,
}

// Compares the pieces before the first run with the items.
fn take_front<T, P: Piece<T>>(pieces: &[P], items: &[T]) -> Front
    ensures { FrontIs P.is_run P.takes pieces.now items.now result }
{
    for n in 0..pieces.len() {
        let piece = &pieces[n];
        if piece.is_run() {
            return Front::Run(n);
        }
        if n == items.len() {
            return Front::Neither;
        }
        if !piece.takes(&items[n]) {
            return Front::Neither;
        }
    }
    if pieces.len() == items.len() {
        Front::Whole
    } else {
        Front::Neither
    }
}

// Returns whether the pieces take the items from some item on, to the end.
fn is_within<T, P: Piece<T>>(all_pieces: &[P], all_items: &[T]) -> bool
    ensures { IsTrue result ↔ Within P.is_run P.takes all_pieces.now all_items.now }
{
    let mut pieces = all_pieces;
    let mut items = all_items;
    loop {
        match take_front(pieces, items) {
            Front::Whole => return true,
            Front::Run(n) => {
                pieces = after_index(pieces, n);
                items = from_index(items, n);
            }
            Front::Neither => {
                if items.is_empty() {
                    return false;
                }
                items = from_index(items, 1);
            }
        }
    }
}
