// A text under construction, in memory of its own.
ghost use Rattle.std.specs.Prelude.{◌≤◌, length};

use arrayvec::ArrayVec;
use itoa::Buffer;
use refusal::Fault;

/// A text of at most 8,192 bytes, the longest that is ever read. What is put at its end beyond that is lost. It is put there by
/// calls, and not by `write!` of a `Display`: they take no heap and cannot fail, where `write!` answers a `Result`.
#[derive(Drop)]
pub struct Page {
    bytes: ArrayVec<u8, 8192>,
    ghost within: { length bytes.items ≤ 8192 },
}

impl Page {
    ghost use Rattle.std.specs.Prelude.{◌≡◌, [], ◌∷◌, decimal};
    ghost use Rattle.refusal.specs.Faults.{fault_line};
    ghost use Rattle.text.specs.Pages.{page_text, Appended};

    /// A page with nothing on it.
    pub fn new() -> Page
        ensures { page_text result ≡ [] }
    {
        Page {
            bytes: ArrayVec::new(),
        }
    }

    /// The text so far.
    pub fn text(&self) -> &[u8]
        ensures { result.now ≡ page_text self.now }
    {
        self.bytes.as_slice()
    }

    /// Puts one byte more at the end.
    pub fn push(&mut self, b: u8)
        ensures { Appended self.old (b ∷ []) self.new }
    {
        if !self.bytes.is_full() {
            self.bytes.push(b);
        }
    }

    /// Puts the bytes at the end.
    pub fn put(&mut self, bytes: &[u8])
        ensures { Appended self.old bytes.now self.new }
    {
        let room = bytes.len().min(self.bytes.remaining_capacity());
        // Cut to the room, it fits.
        let _ = self.bytes.try_extend_from_slice(&bytes[..room]);
    }

    /// Puts a number in base ten, which is at most 20 digits.
    pub fn number(&mut self, n: u64)
        ensures text { Appended self.old (decimal n) self.new }
        ensures short { length (decimal n) ≤ 20 }
    {
        // One by one, which for so few bytes is quicker than `put`.
        for digit in Buffer::new().format(n).as_bytes() {
            self.push(*digit);
        }
    }

    /// Puts a number as a field: a space before it.
    pub fn field(&mut self, n: u64)
        ensures { Appended self.old (32 ∷ decimal n) self.new }
    {
        self.push(b' ');
        self.number(n);
    }

    /// Puts a fault as it is printed, `refused number layer line`, which is at most 64 bytes.
    pub fn fault(&mut self, fault: Fault)
        ensures text { Appended self.old (fault_line fault) self.new }
        ensures short { length (fault_line fault) ≤ 64 }
    {
        self.put(b"refused ");
        self.number(u64::from(fault.number()));
        self.push(b' ');
        self.put(fault.layer().name());
        self.push(b' ');
        self.number(fault.line as u64);
    }
}
