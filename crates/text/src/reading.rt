// A text read line by line, for any form of lines.
ghost use Rattle.std.specs.Prelude.{◌≡◌, ◌<◌, length, OnErr, MatchResult};
ghost use Rattle.text.specs.Reading.{Form, continued, Leads, LineRefused, Refused};
ghost use Rattle.text.specs.Readings.{Takes, Finishes, ReadAs};

use crate::lines::first_line;
use refusal::{Fault, Refusal, Source};

/// What the lines so far of a text state together, while the text is read.
pub trait Draft: Drop {
    /// What a whole text states, as a value.
    type Whole;

    /// What a line can state.
    ghost Said: { Type 0 };

    /// What lines state together.
    ghost Sum: { Type 0 };

    /// The form of the texts: how each line is spelled, and in which order it is tested.
    ghost form: { Form Said Sum };

    /// What the lines so far state.
    ghost stated: { Self → Sum };

    /// What the whole text states.
    ghost whole: { Self.Whole → Sum };

    /// Takes what one more line states; the line is without its byte 10. Where it is refused, the draft states what it stated.
    fn take(&mut self, line: &[u8]) -> Result<(), Refusal>
        ensures answer { MatchResult result (λ _. Takes form (stated self.old) line.now (stated self.new)) (LineRefused form (stated self.old) line.now) }
        ensures refused { OnErr result (stated self.new ≡ stated self.old) };

    /// What the text states that ends here, or why it is refused.
    fn finish(self) -> Result<Self::Whole, Refusal>
        ensures { Finishes form whole (stated self) result };
}

// Takes the first line of `rest`, and gives what follows it.
fn take_line<'a, D: Draft>(draft: &mut D, rest: &'a [u8]) -> Result<&'a [u8], Refusal>
    requires { 0 < length rest.now }
    ensures { MatchResult result (λ after. (said : D.Said) × Leads D.form (D.stated draft.old) rest.now said after.now × (D.stated draft.new ≡ D.form.adds (D.stated draft.old) said)) (Refused D.form (D.stated draft.old) rest.now) }
{
    let (line, after) = first_line(rest).ok_or(Refusal::UnknownLine)?;
    draft.take(line)?;
    Ok(after)
}

/// What the text states besides what the draft states already; or the first refusal in the order of the tests, with its line.
///
/// Refused with 11 at line 0 where the text is longer than 8,192 bytes; then with 12 where no byte 10 ends a line, or as the
/// draft refuses it; and one past the last line as the draft refuses the whole text (docs/REFUSALS.md).
pub fn read<D: Draft>(draft: D, source: Source, text: &[u8]) -> Result<D::Whole, Fault>
    ensures { ReadAs (continued D.form (D.stated draft)) D.whole source text.now result }
{
    if text.len() > 8192 {
        return Err(Fault::in_text(source, Refusal::TextTooLong, 0));
    }
    let mut draft = draft;
    let mut rest = text;
    // Counted by hand: the number of the line past the last is wanted after the loop too, where `enumerate` has let it go.
    let mut number: usize = 1;
    while !rest.is_empty() {
        // A `match`, here and at the end: with `map_err` and `?` the proof did not close.
        match take_line(&mut draft, rest) {
            Ok(after) => rest = after,
            Err(refusal) => return Err(Fault::in_text(source, refusal, number)),
        }
        number += 1;
    }
    match draft.finish() {
        Ok(whole) => Ok(whole),
        Err(refusal) => Err(Fault::in_text(source, refusal, number)),
    }
}
