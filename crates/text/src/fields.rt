// The fields of a line, taken from its front one by one.
ghost use Rattle.std.specs.Prelude.{◌≡◌, ℕ, ◌<◌, ◌≤◌, List, ◌∷◌, MatchOption, MatchResult, ◌≢◌};
ghost use Rattle.refusal.specs.declared.Refusal.TheVariants.{OutOfRange};
ghost use Rattle.text.specs.Fields.{Writes, Field, NumberField, StrokeField, Numbered};

use crate::lines::place;
use refusal::Refusal;

/// The number that a field writes: one to six decimal digits, without a leading zero save `0` itself. None where it writes
/// none.
pub fn number(field: &[u8]) -> Option<u32>
    ensures { MatchOption result ((n : ℕ) → Writes field.now n → ⊥) (λ n. Writes field.now n) }
{
    let (first, others) = field.split_first()?;
    if field.len() > 6 {
        return None;
    }
    if *first == b'0' && !others.is_empty() {
        return None;
    }
    // One walk over the digits: `from_utf8` and then `parse` are two, and a book takes twice the time to read.
    let mut n: u32 = 0;
    for byte in field {
        n = n * 10 + char::from(*byte).to_digit(10)?;
    }
    Some(n)
}

/// The blade grade that a number of a text says. Refused with 15 (docs/REFUSALS.md) above 254.
pub fn grade(number: u32) -> Result<u8, Refusal>
    ensures { MatchResult result (λ grade. (grade ≡ number) × (number ≤ 254)) (λ r. (OutOfRange ≡ r) × (254 < number)) }
{
    let grade = u8::try_from(number).map_err(|_| Refusal::OutOfRange)?;
    if grade == u8::MAX {
        return Err(Refusal::OutOfRange);
    }
    Ok(grade)
}

/// The field in front of `rest`, after its space, and what follows it: the field ends before the next space, or with `rest`. It
/// may be empty. None where `rest` does not begin with a space.
pub fn field(rest: &[u8]) -> Option<(&[u8], &[u8])>
    ensures { MatchOption result ((x : List ℕ) → 32 ∷ x ≢ rest.now) (λ x. Field rest.now x.0.now x.1.now) }
{
    let tail = rest.strip_prefix(b" ")?;
    Some(tail.split_at(place(tail, b' ')))
}

/// The number in front of `rest`, after its space, and what follows it; none where no field stands there, or one that writes
/// none.
pub fn number_field(rest: &[u8]) -> Option<(u32, &[u8])>
    ensures { MatchOption result ((n : ℕ) (more : List ℕ) → NumberField rest.now n more → ⊥) (λ x. NumberField rest.now x.0 x.1.now) }
{
    let (word, more) = field(rest)?;
    let n = number(word)?;
    Some((n, more))
}

/// The stroke in front of `rest`, a letter A to Z after its space, and what follows it; none where no such field stands there.
pub fn stroke_field(rest: &[u8]) -> Option<(u8, &[u8])>
    ensures { MatchOption result ((s : ℕ) (more : List ℕ) → StrokeField rest.now s more → ⊥) (λ x. StrokeField rest.now x.0 x.1.now) }
{
    let (word, more) = field(rest)?;
    let (s, others) = word.split_first()?;
    if !others.is_empty() {
        return None;
    }
    if !s.is_ascii_uppercase() {
        return None;
    }
    Some((*s, more))
}

/// The numbers that `rest` is made of, if it has just that many fields and each writes a number.
pub fn numbers<const N: usize>(rest: &[u8]) -> Option<[u32; N]>
    ensures { MatchOption result ((ns : List ℕ) → Numbered N rest.now ns → ⊥) (λ ns. Numbered N rest.now ns) }
{
    let mut found = [0u32; N];
    let mut rest = rest;
    for slot in found.iter_mut() {
        let (n, more) = number_field(rest)?;
        *slot = n;
        rest = more;
    }
    if !rest.is_empty() {
        return None;
    }
    Some(found)
}
