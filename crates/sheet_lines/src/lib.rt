// A request's lines read, on byte slices.
#![tactic(auto)]

pub mod columns;
pub mod reasons;
pub mod rule;
pub mod text;

ghost use Rattle.std.specs.Prelude.{◌≡◌, length};
ghost use Rattle.sheet_lines.specs.Header.{
  header_bytes,
  price_bytes,
  request_of,
  read_fields,
  read_header,
  read_price_line,
};

use reasons::{Reason, has_feed};
use rule::Rule;

// The most bars of one request.
pub const MOST_BARS: usize = 512;

// The bytes of a request's first line and of a price's line, each with its line feed.
pub const HEADER_BYTES: usize = 27;

pub const PRICE_BYTES: usize = 13;

// What a request's first line asks. The rule is a number, as the definitions of specs/ have it.
#[derive(Clone, Copy)]
pub struct Request {
    pub desk: u64,
    pub rule: u64,
    pub n: usize,
    pub m: usize,
    pub bars: usize,
}

// The five fields of a request's first line, each a number where it is one.
#[derive(Clone, Copy)]
pub struct Fields {
    pub desk: Option<u64>,
    pub rule: Option<u64>,
    pub n: Option<u64>,
    pub m: Option<u64>,
    pub bars: Option<u64>,
}

// The fields of a request's first line.
fn read_fields(line: &[u8]) -> Fields
    requires { length line.now ≡ header_bytes }
    ensures { result ≡ read_fields line.now }
{
    Fields {
        desk: columns::read_field(&line[..4]),
        rule: columns::read_field(&line[4..8]),
        n: columns::read_field(&line[8..14]),
        m: columns::read_field(&line[14..20]),
        bars: columns::read_field(&line[20..26]),
    }
}

// The request that its five numbers make, or why they make none.
#[tactic(auto, unfolding(crate::specs::Header::request_of))]
fn request_of(fields: Fields) -> Result<Request, Reason>
    ensures { result ≡ request_of fields }
{
    let desk = fields.desk.ok_or(Reason::DeskField)?;
    let rule = fields.rule.ok_or(Reason::RuleField)?;
    let n = fields.n.ok_or(Reason::NField)?;
    let m = fields.m.ok_or(Reason::MField)?;
    let bars = fields.bars.ok_or(Reason::BarsField)?;
    Rule::of_number(rule).ok_or(Reason::OtherRule)?;
    if bars > MOST_BARS as u64 {
        return Err(Reason::TooManyBars);
    }
    Ok(Request {
        desk,
        rule,
        n: n as usize,
        m: m as usize,
        bars: bars as usize,
    })
}

// The request that its first line asks, or why the line is refused.
pub fn read_header(line: &[u8]) -> Result<Request, Reason>
    requires { length line.now ≡ header_bytes }
    ensures { result ≡ read_header line.now }
{
    if line[26] != b'\n' || has_feed(&line[..26]) {
        return Err(Reason::LineLength);
    }
    request_of(read_fields(line))
}

// The price in its line, or why the line is refused: a line feed among the columns is looked for only where they are
// no price.
pub fn read_price_line(line: &[u8]) -> Result<f64, Reason>
    requires { length line.now ≡ price_bytes }
    ensures { result ≡ read_price_line line.now }
{
    if line[12] != b'\n' {
        return Err(Reason::LineLength);
    }
    let columns = &line[..12];
    match columns::read_price(columns) {
        Some(price) => Ok(price),
        None if has_feed(columns) => Err(Reason::LineLength),
        None => Err(Reason::PriceField),
    }
}
