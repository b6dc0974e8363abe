// What can be wrong with the text of a card.
ghost use Rattle.std.specs.Prelude.{◌≡◌};
ghost use Rattle.card.specs.Codes.{code_of};

use joint::fault::FaultCode;

#[derive(Clone, Copy, PartialEq, Eq, Debug)]
pub enum TextFault {
    // No line feed is left for this line.
    NoLineFeed(usize),
    // Line 1 names no kind of joint.
    NotJoint,
    // This line does not start with its key and `=`.
    NotKey(usize),
    // The value on this line is not 1 to 8 digits without a leading zero.
    NotNumber(usize),
}

impl TextFault {
    // By its numbers: the place is the line.
    pub fn code(self) -> FaultCode
        ensures { result ≡ code_of self }
    {
        let (number, at) = match self {
            TextFault::NoLineFeed(line) => (12, line),
            TextFault::NotJoint => (11, 1),
            TextFault::NotKey(line) => (13, line),
            TextFault::NotNumber(line) => (14, line),
        };
        FaultCode {
            layer: 1,
            number,
            at,
        }
    }
}
