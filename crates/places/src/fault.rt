// Why a rail refuses a call.
ghost use Rattle.std.specs.Prelude.{◌≡◌};
ghost use Rattle.places.specs.Codes.{rail_code};
ghost use Rattle.places.specs.declared.fault.RailFault.TheVariants.{Joint};

use joint::fault::{FaultCode, JointFault};

#[derive(Clone, Copy, PartialEq, Eq, Debug)]
pub enum RailFault {
    // the kind does not admit the joint
    Joint(JointFault),
    // a rail has 1 to 4096 places, and not so many
    Length(usize),
    // the rail has no such place
    NoPlace(usize),
    // the place is not in the state that the call needs
    WrongState(usize),
    // the slip is of another rail's number, or its place is absent or not lifted
    BadSlip(usize),
    // the kind has no such mode
    NoMode(u32),
}

impl RailFault {
    // By its numbers; of a joint's fault its own.
    pub fn code(self) -> FaultCode
        ensures { result ≡ rail_code self }
    {
        let (number, at) = match self {
            RailFault::Joint(fault) => return fault.code(),
            RailFault::Length(size) => (31, size),
            RailFault::NoPlace(place) => (32, place),
            RailFault::WrongState(place) => (33, place),
            RailFault::BadSlip(place) => (34, place),
            RailFault::NoMode(mode) => (35, mode as usize),
        };
        FaultCode {
            layer: 3,
            number,
            at,
        }
    }
}

impl From<JointFault> for RailFault {
    ghost from_gives = { λ f r. r ≡ Joint f };

    fn from(fault: JointFault) -> RailFault {
        RailFault::Joint(fault)
    }
}
