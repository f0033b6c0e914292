// The word that a line of an event begins with.
ghost use Rattle.std.specs.Prelude.{◌≡◌, ◌≢◌, ℕ, List, MatchOption};
ghost use Rattle.text.specs.Places.{FirstAt};
ghost use Rattle.answers.specs.Words.{word_text, FirstWord, Begins};

// What kind of event a line is.
#[derive(Clone, Copy, PartialEq, Eq, Debug)]
pub(crate) enum Word {
    Strike,
    Mark,
    Keep,
    Back,
    Prune,
    Quote,
}

// The kind of event that a word names.
fn word_of(word: &[u8]) -> Option<Word>
    ensures { MatchOption result ((w : Word) → word_text w ≢ word.now) (λ w. word_text w ≡ word.now) }
{
    match word {
        b"strike" => Some(Word::Strike),
        b"mark" => Some(Word::Mark),
        b"keep" => Some(Word::Keep),
        b"back" => Some(Word::Back),
        b"prune" => Some(Word::Prune),
        b"quote" => Some(Word::Quote),
        _ => None,
    }
}

// Where the first space of a line stands, or the line's length where there is none.
fn word_end(line: &[u8]) -> usize
    ensures { FirstAt 32 line.now result }
{
    line.iter().position(|b| *b == b' ').unwrap_or(line.len())
}

// The first word of a line, up to a space, and what follows it.
fn first_word(line: &[u8]) -> (&[u8], &[u8])
    ensures { FirstWord line.now result.0.now result.1.now }
{
    line.split_at(word_end(line))
}

// The word of an event in front of a line, and what follows it; none where the first word names no event.
pub(crate) fn line_word(line: &[u8]) -> Option<(Word, &[u8])>
    ensures { MatchOption result ((w : Word) (rest : List ℕ) → Begins line.now w rest → ⊥) (λ x. Begins line.now x.0 x.1.now) }
{
    let (word, rest) = first_word(line);
    Some((word_of(word)?, rest))
}
