// The kind of a line.
ghost use Rattle.std.specs.Prelude.{◌≡◌, ℕ, List, ◌∷◌, MatchOption, ◌≢◌};
ghost use Rattle.text.specs.Kinds.{letter_of};

/// What a line is about, in a book or in an order, by its first letter.
#[derive(Clone, Copy, PartialEq, Eq, Debug)]
pub enum Kind {
    /// `k`: the number of parts of a book
    Parts,
    /// `c`: a cut rule of a book
    Cut,
    /// `p`: a pair rule of a book
    Pair,
    /// `n`: a note in a book
    Note,
    /// `t`: an order's limit, a time
    TimeLimit,
    /// `g`: an order's limit, a blade grade
    GradeLimit,
    /// `b`: an order's limit, a time and at equal time a blade grade
    BothLimit,
    /// `o`: a place of an order, by its open strokes
    Place,
}

/// The kind that the first letter of a line says; none where it is no letter of a kind. No `TryFrom`: the letters as cases of a
/// small function of a `char` are a form that this project keeps to.
pub fn kind_of(letter: char) -> Option<Kind>
    ensures { MatchOption result ((k : Kind) → letter_of k ≢ letter) (λ k. letter_of k ≡ letter) }
{
    match letter {
        'k' => Some(Kind::Parts),
        'c' => Some(Kind::Cut),
        'p' => Some(Kind::Pair),
        'n' => Some(Kind::Note),
        't' => Some(Kind::TimeLimit),
        'g' => Some(Kind::GradeLimit),
        'b' => Some(Kind::BothLimit),
        'o' => Some(Kind::Place),
        _ => None,
    }
}

/// The kind of a line and what follows its letter; none where the line is empty or of no kind.
pub fn line_kind(line: &[u8]) -> Option<(Kind, &[u8])>
    ensures { MatchOption result ((k : Kind) (rest : List ℕ) → letter_of k ∷ rest ≢ line.now) (λ x. letter_of x.0 ∷ x.1.now ≡ line.now) }
{
    let (letter, rest) = line.split_first()?;
    let kind = kind_of(char::from(*letter))?;
    Some((kind, rest))
}
