//! The lines of answers in a text, byte by byte.
ghost use Rattle.std.specs.Prelude.{◌≡◌};
ghost use Rattle.made_drive.specs.Scan.{byte_taken, ends_in, line_ended, place_behind, raised_if};

/// Where in a line a text ends.
#[derive(Clone, Copy, Debug, PartialEq, Eq)]
pub enum Place {
    /// At the begin of one.
    Begin,
    /// In one that begins with `A`.
    Answer,
    /// In another.
    Other,
}

/// What was seen of a text.
#[derive(Clone, Copy, Debug, PartialEq, Eq)]
pub struct Scan {
    /// The answers that ended good, up to 2^32 - 1.
    pub good: u32,
    /// The answers that were cut, up to 2^32 - 1.
    pub cut: u32,
    /// Where the text ends.
    pub place: Place,
    /// The last byte of the line but one, or 0.
    pub before: u8,
    /// The last byte of the line, or 0.
    pub last: u8,
}

impl Scan {
    /// One more byte.
    pub(crate) fn take(&mut self, byte: u8)
        ensures { self.new ≡ byte_taken self.old byte }
    {
        if byte == b'\n' {
            self.end_line();
        } else {
            self.place = place_behind(self.place, byte);
            self.before = self.last;
            self.last = byte;
        }
    }

    /// The end of a line.
    fn end_line(&mut self)
        ensures { self.new ≡ line_ended self.old }
    {
        self.good = raised_if(self.ends_in(b'o', b'd'), self.good);
        self.cut = raised_if(self.ends_in(b'u', b't'), self.cut);
        self.place = Place::Begin;
        self.before = 0;
        self.last = 0;
    }

    /// Whether the text ends in an answer and in these two bytes.
    fn ends_in(&self, before: u8, last: u8) -> bool
        ensures { result ≡ ends_in before last self.now }
    {
        matches!(self.place, Place::Answer) && self.before == before && self.last == last
    }
}

/// Where a text ends with one more byte that ends no line.
fn place_behind(place: Place, byte: u8) -> Place
    ensures { result ≡ place_behind place byte }
{
    match place {
        Place::Begin if byte == b'A' => Place::Answer,
        Place::Begin => Place::Other,
        place => place,
    }
}

/// One more where the test holds, up to 2^32 - 1.
fn raised_if(test: bool, count: u32) -> u32
    ensures { result ≡ raised_if test count }
{
    if test { count.saturating_add(1) } else { count }
}
