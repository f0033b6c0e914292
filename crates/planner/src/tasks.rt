// What the engine works on.
ghost use Rattle.std.specs.Prelude.{All, ◌≡◌, ◌≤◌, length};
ghost use Rattle.book.specs.BookSaid.{rules_of, parts_of};
ghost use Rattle.book.specs.Ranges.{InRange};

use book::{Book, Rule};
use std::alloc::AllocError;

// The rules of a book, what each costs where it is used, and a sheet.
pub(crate) struct Task<'a, H, W> {
    pub rules: &'a [Rule],
    pub parts: u8,
    pub prices: &'a W,
    pub sheet: &'a H,
    ghost some_parts: { 1 ≤ parts },
    ghost few_parts: { parts ≤ 32 },
    ghost few_rules: { length rules.now ≤ 128 },
    ghost ranged: { All (InRange parts) rules.now },
}

// By hand: derived, it would ask that the sheet and the prices can be copied too.
impl<'a, H, W> Clone for Task<'a, H, W> {
    ghost is_clone = { λ x y. y ≡ x };

    ghost is_infallible = { λ _. Unit {0} };

    fn clone(&self) -> Result<Task<'a, H, W>, AllocError> {
        Ok(*self)
    }
}

impl<'a, H, W> Copy for Task<'a, H, W> {}

impl<'a, H, W> Task<'a, H, W> {
    pub(crate) fn new(book: &'a Book, prices: &'a W, sheet: &'a H) -> Task<'a, H, W>
        ensures rules { result.rules.now ≡ rules_of book.now }
        ensures parts { result.parts ≡ parts_of book.now }
        ensures prices { result.prices.now ≡ prices.now }
        ensures sheet { result.sheet.now ≡ sheet.now }
    {
        Task {
            rules: book.rules(),
            parts: book.parts(),
            prices,
            sheet,
        }
    }
}
