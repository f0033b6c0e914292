// Boards: working tables with an entry for each span and each part.
ghost use Rattle.std.specs.Prelude.{◌≡◌, ◌+◌, ◌-◌, ◌*◌, ◌<◌, ◌≤◌, length, slice_index_or, slice_set};
ghost use Rattle.book.specs.BookSaid.{parts_of};
ghost use Rattle.scale.specs.Ops.{lesser_of};
ghost use Rattle.planner.specs.Boards.{board_entries, entry_index, entry_of};

use crate::spans::Span;
use book::Book;
use scale::Scale;
use sheet::Sheet;

// How many entries a board has for so many places and parts.
pub(crate) fn entries(places: usize, parts: u8) -> usize
    requires { places ≤ 24 }
    ensures { result ≡ board_entries places parts }
{
    places * (places + 1) / 2 * parts as usize
}

/// How many entries a board needs for a sheet and a book: one for each span of its places and each part, n(n + 1)/2 × k at n places
/// and k parts.
pub fn board_entries<H: Sheet>(sheet: &H, book: &Book) -> usize
    ensures { result ≡ board_entries (H.places sheet.now) (parts_of book.now) }
{
    entries(sheet.length(), book.parts())
}

// The index of the entry of the part over the span.
fn index(parts: u8, span: Span, part: u8) -> usize
    requires { part < parts }
    ensures { result ≡ entry_index parts span.before span.len part }
{
    let last = span.before + span.len - 1;
    (last * (last + 1) / 2 + (span.len - 1)) * parts as usize + part as usize
}

// The entry at the index.
pub(crate) fn entry_at<T: Copy>(board: &[T], index: usize) -> T
    requires { index < length board.now }
    ensures { (d : T) → result ≡ slice_index_or board.now index d }
{
    board[index]
}

// The entry of the part over the span.
pub(crate) fn entry<T: Copy>(board: &[T], parts: u8, span: Span, part: u8) -> T
    requires part { part < parts }
    requires room { entry_index parts span.before span.len part < length board.now }
    ensures { (d : T) → result ≡ entry_of d parts board.now part span.before span.len }
{
    entry_at(board, index(parts, span, part))
}

// Writes the entry of the part over the span.
pub(crate) fn put<T: Copy>(board: &mut [T], parts: u8, span: Span, part: u8, value: T)
    requires part { part < parts }
    requires room { entry_index parts span.before span.len part < length board.old }
    ensures { board.new ≡ slice_set board.old (entry_index parts span.before span.len part) value }
{
    board[index(parts, span, part)] = value;
}

// Lowers the entry at the index to a weight, if that is less.
pub(crate) fn lower_at<S: Scale>(board: &mut [S], index: usize, weight: S)
    requires { index < length board.old }
    ensures { board.new ≡ slice_set board.old index (lesser_of S.ops (slice_index_or board.old index S.ops.barred) weight) }
{
    if !board[index].at_most(weight) {
        board[index] = weight;
    }
}

// Lowers the entry of the part over the span to a weight, if that is less.
pub(crate) fn lower_to<S: Scale>(board: &mut [S], parts: u8, span: Span, part: u8, weight: S)
    requires part { part < parts }
    requires room { entry_index parts span.before span.len part < length board.old }
    ensures { board.new ≡ slice_set board.old (entry_index parts span.before span.len part) (lesser_of S.ops (entry_of S.ops.barred parts board.old part span.before span.len) weight) }
{
    lower_at(board, index(parts, span, part), weight);
}

// The indices of the entries of two parts over the halves of a span, from one split to the next: the left half's entry stands
// further on at each split, by one row more than at the split before, and the right half's one row further back. A row is the entries
// of a span. The span, the two parts and the split are there for the contracts: no code goes by them.
#[derive(Drop)]
pub(crate) struct HalfIndices {
    parts: u8,
    span: Span,
    left: u8,
    right: u8,
    // the split that comes next
    split: usize,
    // the index of the left half's entry there, and by how much further on it stands at the split after
    left_index: usize,
    left_step: usize,
    // the index of the right half's entry at the split before; at the first split, of the entry over the whole span
    last_right_index: usize,
    ghost left_named: { left < parts },
    ghost right_named: { right < parts },
    ghost some: { 1 ≤ split },
    ghost few: { split ≤ span.len },
    ghost left_is: { left_index ≡ entry_index parts span.before split left },
    ghost step_is: { left_step ≡ (span.before + split + 1) * parts },
    ghost right_is: { last_right_index + split * parts ≡ entry_index parts span.before span.len right + parts },
}

impl HalfIndices {
    // At the first split, after one place.
    pub(crate) fn new(parts: u8, span: Span, left: u8, right: u8) -> HalfIndices
        requires left { left < parts }
        requires right { right < parts }
        ensures parts { result.parts ≡ parts }
        ensures span { result.span ≡ span }
        ensures left { result.left ≡ left }
        ensures right { result.right ≡ right }
        ensures split { result.split ≡ 1 }
    {
        HalfIndices {
            parts,
            span,
            left,
            right,
            split: 1,
            left_index: index(parts, Span::new(span.before, 1), left),
            left_step: (span.before + 2) * parts as usize,
            last_right_index: index(parts, span, right),
        }
    }

    // The indices of both entries at the next split.
    pub(crate) fn next(&mut self) -> (usize, usize)
        requires { self.old.split < self.old.span.len }
        ensures left { result.0 ≡ entry_index self.old.parts self.old.span.before self.old.split self.old.left }
        ensures right { result.1 ≡ entry_index self.old.parts (self.old.span.before + self.old.split) (self.old.span.len - self.old.split) self.old.right }
        ensures parts { self.new.parts ≡ self.old.parts }
        ensures span { self.new.span ≡ self.old.span }
        ensures left_same { self.new.left ≡ self.old.left }
        ensures right_same { self.new.right ≡ self.old.right }
        ensures split { self.new.split ≡ self.old.split + 1 }
    {
        let row = self.parts as usize;
        let left = self.left_index;
        let right = self.last_right_index - row;
        *self = HalfIndices {
            parts: self.parts,
            span: self.span,
            left: self.left,
            right: self.right,
            split: self.split + 1,
            left_index: left + self.left_step,
            left_step: self.left_step + row,
            last_right_index: right,
        };
        (left, right)
    }
}
