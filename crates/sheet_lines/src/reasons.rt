// Why a line is refused with 10, said of the bytes of the line that broke.
ghost use Rattle.std.specs.Prelude.{◌≡◌, not};
ghost use Rattle.sheet_lines.specs.Reason.{no_feed, reason_number};

// The first that applies of: another line length; a field that is no decimal number, from the left; another rule;
// more bars than the program keeps; a price that is no decimal number; and an input that ends inside a request.
#[derive(Clone, Copy)]
pub enum Reason {
    LineLength = 1,
    DeskField = 2,
    RuleField = 3,
    NField = 4,
    MField = 5,
    BarsField = 6,
    OtherRule = 7,
    TooManyBars = 8,
    PriceField = 9,
    InputEnds = 10,
}

// Whether a line feed is among the bytes.
pub fn has_feed(bytes: &[u8]) -> bool
    ensures { result ≡ not (no_feed bytes.now) }
{
    bytes.contains(&b'\n')
}

// The number of a reason.
pub fn number_of(reason: Reason) -> u32
    ensures { result ≡ reason_number reason }
{
    reason as u32
}
