// The fault of any layer, as the program reports it.
ghost use Rattle.std.specs.Prelude.{◌≡◌, Some};
ghost use Rattle.account.specs.Faults.{fault_code, fault_text};
ghost use Rattle.account.specs.declared.fault.Fault.TheVariants.{Text, Joint};

use card::fault::TextFault;
use joint::fault::{FaultCode, JointFault};
use std::fmt;

#[derive(Clone, Copy, PartialEq, Eq, Debug)]
pub enum Fault {
    // of the card's text
    Text(TextFault),
    // of the joint that it describes
    Joint(JointFault),
}

impl From<TextFault> for Fault {
    ghost from_gives = { λ f r. r ≡ Text f };

    fn from(fault: TextFault) -> Fault {
        Fault::Text(fault)
    }
}

impl From<JointFault> for Fault {
    ghost from_gives = { λ f r. r ≡ Joint f };

    fn from(fault: JointFault) -> Fault {
        Fault::Joint(fault)
    }
}

impl Fault {
    // The layer, the number and the place, as the layer itself gives them.
    pub fn code(self) -> FaultCode
        ensures { result ≡ fault_code self }
    {
        match self {
            Fault::Text(fault) => fault.code(),
            Fault::Joint(fault) => fault.code(),
        }
    }
}

// The three lines of a fault.
impl fmt::Display for Fault {
    ghost output = { λ f. Some (fault_text (fault_code f)) };

    fn fmt<W: fmt::Write>(&self, f: &mut fmt::Formatter<W>) -> fmt::Result {
        let FaultCode { layer, number, at } = self.code();
        write!(f, "layer={layer}\nfault={number}\nat={at}\n")
    }
}
