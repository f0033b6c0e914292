// A marked sheet: marks are set on a sheet, and each is kept or gone back to.
ghost use Rattle.std.specs.Prelude.{◌≡◌, OnErr, IfOk, IfErr, length};
ghost use Rattle.sheet.specs.LentLaws.{lent_laws};
ghost use Rattle.events.specs.States.{LeadsTo, born, after_mark, after_keep, after_back};
ghost use Rattle.marks.specs.Copies.{copied};
ghost use Rattle.marks.specs.Marks.{SameSheet, lender, sheet_below, sheet_number, standing_marks, state};
ghost use Rattle.sheet.specs.Masks.{mask_places, mask_shown};

use crate::copies::copy;
use crate::slips::{Returned, Slip};
use crate::standing::StandingMarks;
use refusal::Refusal;
use sheet::{MaskSheet, Sheet};

/// A sheet with marks. It means the open pairs of the sheet below, and for each mark that stands the open pairs as they were when
/// it was set; at most eight stand. It is born with no mark.
#[derive(Drop)]
pub struct Marked<'a, H> {
    pub(crate) below: &'a mut H,
    pub(crate) marks: StandingMarks,
}

impl<'a, H: Sheet> Marked<'a, H> {
    /// A marked sheet over the sheet, which stays as it is. Users give a sheet number to one sheet only.
    pub fn new(below: &'a mut H, number: u16) -> Marked<'a, H>
        ensures lender { lender result ≡ below.entry.ghost_name }
        ensures content { sheet_below result ≡ below.old }
        ensures number { sheet_number result ≡ number }
        ensures born { state H.places H.shown result ≡ born (H.shown below.old) }
    {
        Marked {
            below,
            marks: StandingMarks::new(number),
        }
    }

    /// Sets a mark, and hands out its slip; the open pairs stay. Refused with 4 where eight stand, and in no other case; the marked
    /// sheet is then as it was.
    pub fn mark(&mut self) -> Result<Slip, Refusal>
        ensures state { LeadsTo (λ e. e) (after_mark (state H.places H.shown self.old)) result (state H.places H.shown self.new) }
        ensures refused { OnErr result (self.new ≡ self.old) }
        ensures below { sheet_below self.new ≡ sheet_below self.old }
        ensures slip { IfOk result (λ s. (s.number ≡ sheet_number self.old) × (s.level ≡ length (state H.places H.shown self.new).saved)) }
        ensures sheet { SameSheet H.kept self.old self.new }
    {
        let level = self.set_mark()?;
        Ok(Slip {
            number: self.marks.number,
            level,
        })
    }

    // Sets a mark, and answers its level.
    pub(crate) fn set_mark(&mut self) -> Result<usize, Refusal>
        ensures state { LeadsTo (λ e. e) (after_mark (state H.places H.shown self.old)) result (state H.places H.shown self.new) }
        ensures refused { OnErr result (self.new ≡ self.old) }
        ensures below { sheet_below self.new ≡ sheet_below self.old }
        ensures level { IfOk result (λ l. l ≡ length (state H.places H.shown self.new).saved) }
        ensures sheet { SameSheet H.kept self.old self.new }
    {
        if self.marks.rows.is_full() {
            return Err(Refusal::MarksFull);
        }
        let row = row_of(&*self.below);
        self.marks.rows.push(row);
        Ok(self.marks.rows.len())
    }

    /// Ends the latest mark and leaves the open pairs alone. Refused with 5, and with the slip, where that is of another sheet or not
    /// of the latest mark; the marked sheet is then as it was.
    pub fn keep(&mut self, slip: Slip) -> Result<(), Returned>
        ensures state { LeadsTo (λ r. r.refusal) (after_keep (sheet_number self.old) (state H.places H.shown self.old) slip.number slip.level) result (state H.places H.shown self.new) }
        ensures slip { IfErr result (λ r. r.slip ≡ slip) }
        ensures refused { OnErr result (self.new ≡ self.old) }
        ensures below { sheet_below self.new ≡ sheet_below self.old }
        ensures sheet { SameSheet H.kept self.old self.new }
    {
        match self.keep_numbered(slip.number, slip.level) {
            Ok(()) => {
                slip.spend();
                Ok(())
            }
            Err(refusal) => Err(Returned { refusal, slip }),
        }
    }

    // The keep, by the two numbers of the slip.
    pub(crate) fn keep_numbered(&mut self, number: u16, level: usize) -> Result<(), Refusal>
        ensures state { LeadsTo (λ e. e) (after_keep (sheet_number self.old) (state H.places H.shown self.old) number level) result (state H.places H.shown self.new) }
        ensures refused { OnErr result (self.new ≡ self.old) }
        ensures below { sheet_below self.new ≡ sheet_below self.old }
        ensures sheet { SameSheet H.kept self.old self.new }
    {
        let _ = self.marks.end(number, level)?;
        Ok(())
    }

    /// Ends the latest mark and restores its open pairs. Refused with 5, and with the slip, where that is of another sheet or not of
    /// the latest mark; the marked sheet is then as it was.
    pub fn back(&mut self, slip: Slip) -> Result<(), Returned>
        ensures state { LeadsTo (λ r. r.refusal) (after_back (sheet_number self.old) (state H.places H.shown self.old) slip.number slip.level) result (state H.places H.shown self.new) }
        ensures slip { IfErr result (λ r. r.slip ≡ slip) }
        ensures refused { OnErr result (self.new ≡ self.old) }
        ensures sheet { SameSheet H.kept self.old self.new }
    {
        match self.back_numbered(slip.number, slip.level) {
            Ok(()) => {
                slip.spend();
                Ok(())
            }
            Err(refusal) => Err(Returned { refusal, slip }),
        }
    }

    // The back, by the two numbers of the slip.
    pub(crate) fn back_numbered(&mut self, number: u16, level: usize) -> Result<(), Refusal>
        ensures state { LeadsTo (λ e. e) (after_back (sheet_number self.old) (state H.places H.shown self.old) number level) result (state H.places H.shown self.new) }
        ensures refused { OnErr result (self.new ≡ self.old) }
        ensures sheet { SameSheet H.kept self.old self.new }
    {
        let mut row = self.marks.end(number, level)?;
        restore(self.below, &mut row);
        Ok(())
    }
}

// The open pairs of the sheet, as masks.
fn row_of<H: Sheet>(sheet: &H) -> [u32; 24]
    ensures { mask_shown result ≡ H.shown sheet.now }
{
    let mut row = [0; 24];
    save(sheet, &mut row);
    row
}

// Makes the open pairs of the masks those of the sheet, as far as there are masks.
fn save<H: Sheet>(sheet: &H, row: &mut [u32])
    ensures { mask_shown row.new ≡ copied (mask_places row.old) (H.shown sheet.now) }
{
    let mut saved = MaskSheet::new(row);
    copy(sheet, &mut saved);
}

// Makes the open pairs of the sheet those of the masks.
fn restore<H: Sheet>(sheet: &mut H, row: &mut [u32; 24])
    ensures pairs { H.shown sheet.new ≡ copied (H.places sheet.old) (mask_shown row.old) }
    ensures memory { H.kept sheet.old sheet.new }
{
    let saved = MaskSheet::new(row);
    copy(&saved, sheet);
}

// A marked sheet is a sheet again: the calls go to the sheet below, and touch no mark.
impl<'a, H: Sheet> Sheet for Marked<'a, H> {
    ghost places = { λ m. H.places (sheet_below m) };

    ghost shown = { λ m. H.shown (sheet_below m) };

    // the marks stand, and the sheet below is of the same lender, and is kept
    ghost kept = { λ s t. (standing_marks t ≡ standing_marks s) × ((lender t ≡ lender s) × H.kept (sheet_below s) (sheet_below t)) };

    ghost laws = { lent_laws (λ m. m) standing_marks (lent_laws sheet_below lender H.laws) };

    fn length(&self) -> usize {
        self.below.length()
    }

    fn look(&self, place: usize, stroke: u8) -> bool {
        self.below.look(place, stroke)
    }

    fn close(&mut self, place: usize, stroke: u8) -> bool {
        self.below.close(place, stroke)
    }

    fn open(&mut self, place: usize, stroke: u8) -> bool {
        self.below.open(place, stroke)
    }
}
