// Why a call is refused, and the tests of a call one behind the other.
ghost use Rattle.std.specs.Prelude.{◌≡◌};
ghost use Rattle.refusals.specs.Outcome.{number_of, answer_of, Required};

use std::error::Error;
use std::fmt;

// Why a call is refused: document 01's refusals, and those that later requests add.
#[derive(Clone, Copy, Debug, PartialEq, Eq)]
pub enum Refusal {
    // A list is too long, or the point lists of one outline differ in length.
    TooLong,
    // A number or a list that is passed beside the tables breaks its rule.
    BadParameter,
    // A contour end or an index breaks its rule.
    BadIndex,
    // A coordinate, position, score, len or delta is outside the table.
    OutOfRange,
    // Building calls for one edge more than there is room for.
    NoRoom,
    // An edge has no segment, or a ring that is not sound (requests #107 and #113).
    BrokenRing,
    // A line of a log is no frame.
    NotFrame,
    // A point between its references needs a quotient that is too steep (request #109).
    TooSteep,
    // A list of references does not match touch marks and contours (request #110).
    Unmatched,
    // An order of edges is asked for that is retired (request #114).
    Retired,
    // A length is not of whole records, or words are not those of their fields.
    NotWords,
}

impl From<Refusal> for u8 {
    ghost from_gives = { λ refusal number. number ≡ number_of refusal };

    fn from(refusal: Refusal) -> u8 {
        match refusal {
            Refusal::TooLong => 1,
            Refusal::BadParameter => 2,
            Refusal::BadIndex => 3,
            Refusal::OutOfRange => 4,
            Refusal::NoRoom => 5,
            Refusal::NotFrame => 6,
            Refusal::BrokenRing => 7,
            Refusal::TooSteep => 8,
            Refusal::Unmatched => 9,
            Refusal::Retired => 10,
            Refusal::NotWords => 255,
        }
    }
}

impl fmt::Display for Refusal {
    fn fmt<W: fmt::Write>(&self, f: &mut fmt::Formatter<W>) -> fmt::Result {
        f.write_str(match self {
            Refusal::TooLong => "a list is too long, or lists differ in length",
            Refusal::BadParameter => "a parameter breaks its rule",
            Refusal::BadIndex => "an index breaks its rule",
            Refusal::OutOfRange => "a number is out of range",
            Refusal::NoRoom => "there is no room for an edge",
            Refusal::NotFrame => "a line is no frame",
            Refusal::BrokenRing => "the segments of an edge are no ring",
            Refusal::TooSteep => "a point is too steep",
            Refusal::Unmatched => "the references do not match",
            Refusal::Retired => "the order is retired",
            Refusal::NotWords => "words are not those of their fields",
        })
    }
}

impl Error for Refusal {}

// One test of a call: it holds, or the call is refused.
pub fn require(holds: bool, refusal: Refusal) -> Result<(), Refusal>
    ensures { Required holds refusal result }
{
    if holds { Ok(()) } else { Err(refusal) }
}

// The answer as C has it: 0, or the number of the refusal.
pub fn answer_of(outcome: Result<(), Refusal>) -> u8
    ensures { result ≡ answer_of outcome }
{
    match outcome {
        Ok(()) => 0,
        Err(refusal) => u8::from(refusal),
    }
}
