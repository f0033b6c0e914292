// Why a call is refused, and where: one case for each refusal, the layer it belongs to and the line at fault.
#![tactic(auto)]

ghost use Rattle.std.specs.Prelude.{◌≡◌};
ghost use Rattle.refusal.specs.Numbers.{number_of};
ghost use Rattle.refusal.specs.Layers.{layer_of, layer_name, source_layer};
ghost use Rattle.refusal.specs.Faults.{on_sheet, in_text};

/// Why a call is refused: one case for each reason, with its number (docs/REFUSALS.md).
#[derive(Clone, Copy, PartialEq, Eq, Debug)]
pub enum Refusal {
    /// 1: place 0, or above the length of the sheet
    NoSuchPlace,
    /// 2: a stroke byte that is not A to Z
    NotAStroke,
    /// 3: a stroke that is not open at its place
    NotOpen,
    /// 4: eight marks stand
    MarksFull,
    /// 5: a slip of another sheet, or of another level than the last mark that stands
    WrongSlip,
    /// 6: no place at all, or a run to price of more than 24 places
    BadLength,
    /// 7: a limit that is barred
    LimitBarred,
    /// 8: a lent board with too few entries
    BoardTooShort,
    /// 9: a lent run, sheet memory or book output that is too short
    LentTooShort,
    /// 10: no run within the limit; for a price, a run that is not lawful
    NoRun,
    /// 11: a text of more than 8,192 bytes
    TextTooLong,
    /// 12: a line that is empty, of no known kind, or not ended by byte 10
    UnknownLine,
    /// 13: a field that is missing, extra or malformed
    MalformedField,
    /// 14: a rule before the number of parts, or a second number of parts
    PartsMisplaced,
    /// 15: a number out of its range
    OutOfRange,
    /// 16: a 129th rule
    TooManyRules,
    /// 17: a book without a rule
    NoRule,
    /// 18: an order that does not begin with its limit, or has two
    LimitMisplaced,
    /// 19: a 17th place
    TooManyPlaces,
}

/// What a refusal is of: a sheet (with its run and lent memory), the text of a book or the text of an order.
#[derive(Clone, Copy, PartialEq, Eq, Debug)]
pub enum Source {
    /// no text: a sheet, with its run and lent memory
    Sheet,
    /// a book's text
    Book,
    /// an order's text
    Order,
}

/// The part of the planner that refuses, as it is printed.
#[derive(Clone, Copy, PartialEq, Eq, Debug)]
pub enum Layer {
    /// what a call on a sheet, a run or lent memory refuses
    Sheet,
    /// what any text is refused for
    Reader,
    /// what a book's text is refused for
    Book,
    /// what an order's text is refused for
    Order,
}

/// A refusal, what it is of, and the line at fault: counted from 1, and 0 where no line is. It is no `Option`, since the line is
/// printed as it stands, 0 too.
#[derive(Clone, Copy, PartialEq, Eq, Debug)]
pub struct Fault {
    /// why it is refused
    pub refusal: Refusal,
    /// what it is of
    pub source: Source,
    /// the line at fault, counted from 1, or 0
    pub line: usize,
}

impl Source {
    /// The layer of what was read, asked for by name like that of a refusal.
    pub fn layer(self) -> Layer
        ensures { result ≡ source_layer self }
    {
        match self {
            Source::Sheet => Layer::Sheet,
            Source::Book => Layer::Book,
            Source::Order => Layer::Order,
        }
    }
}

impl Layer {
    /// The layer as it is printed: `sheet`, `reader`, `book` or `order`.
    pub fn name(self) -> &'static [u8]
        ensures { result.now ≡ layer_name self }
    {
        match self {
            Layer::Sheet => b"sheet",
            Layer::Reader => b"reader",
            Layer::Book => b"book",
            Layer::Order => b"order",
        }
    }
}

impl Refusal {
    /// The number that is printed. It is asked for by name: a `u8::from` would not say what it is.
    pub fn number(self) -> u8
        ensures { result ≡ number_of self }
    {
        match self {
            Refusal::NoSuchPlace => 1,
            Refusal::NotAStroke => 2,
            Refusal::NotOpen => 3,
            Refusal::MarksFull => 4,
            Refusal::WrongSlip => 5,
            Refusal::BadLength => 6,
            Refusal::LimitBarred => 7,
            Refusal::BoardTooShort => 8,
            Refusal::LentTooShort => 9,
            Refusal::NoRun => 10,
            Refusal::TextTooLong => 11,
            Refusal::UnknownLine => 12,
            Refusal::MalformedField => 13,
            Refusal::PartsMisplaced => 14,
            Refusal::OutOfRange => 15,
            Refusal::TooManyRules => 16,
            Refusal::NoRule => 17,
            Refusal::LimitMisplaced => 18,
            Refusal::TooManyPlaces => 19,
        }
    }

    /// The layer of the refusal, where the source tells the two texts apart.
    pub fn layer(self, source: Source) -> Layer
        ensures { result ≡ layer_of self source }
    {
        match self {
            Refusal::NoSuchPlace
            | Refusal::NotAStroke
            | Refusal::NotOpen
            | Refusal::MarksFull
            | Refusal::WrongSlip
            | Refusal::BadLength
            | Refusal::LimitBarred
            | Refusal::BoardTooShort
            | Refusal::LentTooShort
            | Refusal::NoRun => Layer::Sheet,
            Refusal::TextTooLong | Refusal::UnknownLine | Refusal::MalformedField => Layer::Reader,
            Refusal::PartsMisplaced
            | Refusal::OutOfRange
            | Refusal::TooManyRules
            | Refusal::NoRule
            | Refusal::LimitMisplaced
            | Refusal::TooManyPlaces => source.layer(),
        }
    }
}

/// Where the line is not asked for, `?` answers the refusal of a fault.
impl From<Fault> for Refusal {
    ghost from_gives = { λ fault r. r ≡ fault.refusal };

    fn from(fault: Fault) -> Refusal {
        fault.refusal
    }
}

impl Fault {
    /// A refusal of a call on a sheet, a run or lent memory: no line is at fault.
    pub fn of_sheet(refusal: Refusal) -> Fault
        ensures { result ≡ on_sheet refusal }
    {
        Fault {
            refusal,
            source: Source::Sheet,
            line: 0,
        }
    }

    /// A refusal of a text at a line, counted from 1; 0 where no line is at fault.
    pub fn in_text(source: Source, refusal: Refusal, line: usize) -> Fault
        ensures { result ≡ in_text source refusal line }
    {
        Fault {
            refusal,
            source,
            line,
        }
    }

    /// The number of the refusal.
    pub fn number(self) -> u8
        ensures { result ≡ number_of self.refusal }
    {
        self.refusal.number()
    }

    /// The layer of the refusal, by what was read.
    pub fn layer(self) -> Layer
        ensures { result ≡ layer_of self.refusal self.source }
    {
        self.refusal.layer(self.source)
    }
}
