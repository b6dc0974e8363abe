// Why a kind does not admit a joint. Each case names the field by its number on the card, from 1.
ghost use Rattle.std.specs.Prelude.{◌≡◌};
ghost use Rattle.joint.specs.Codes.{joint_code};

// A fault by the three numbers that it is reported with.
#[derive(Clone, Copy, PartialEq, Eq, Debug)]
pub struct FaultCode {
    // 1 of a card's text, 2 of the joint that it describes, 3 of the rail
    pub layer: u32,
    pub number: u32,
    // where: a line, a field, or what the rail was asked for
    pub at: usize,
}

#[derive(Clone, Copy, PartialEq, Eq, Debug)]
pub enum JointFault {
    // the value is not one that the sheet allows
    NotAllowed(u32),
    // an end or edge distance, a pitch or a gauge is under its least
    TooClose(u32),
    // the plate is too thin for its lever arm
    PlateTooThin(u32),
    // there is no gap at the beam end
    NoGap(u32),
    // the section is used up by holes
    UsedUp(u32),
}

impl JointFault {
    pub fn code(self) -> FaultCode
        ensures { result ≡ joint_code self }
    {
        let (number, field) = match self {
            JointFault::NotAllowed(field) => (21, field),
            JointFault::TooClose(field) => (22, field),
            JointFault::PlateTooThin(field) => (23, field),
            JointFault::NoGap(field) => (24, field),
            JointFault::UsedUp(field) => (25, field),
        };
        FaultCode {
            layer: 2,
            number,
            at: field as usize,
        }
    }
}
