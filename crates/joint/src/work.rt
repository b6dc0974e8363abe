// The sheet of an admitted joint.
ghost use Rattle.std.specs.Prelude.{◌≡◌};
ghost use Rattle.joint.specs.Sheets.{sheet_of, judged, Quoted, QuotedCard};

use crate::fault::JointFault;
use crate::govern::{shear_governed, tying_governed};
use crate::kind::Kind;
use crate::sheet::Sheet;

// The sheet: governing modes and figures, class, unmet number and count. Its governing figures may be quoted:
// each is at or below every binding mode's exact resistance, and less than the margin under that of the mode it names.
pub fn worked_sheet<K: Kind>(joint: &K) -> Sheet
    ensures value { result ≡ sheet_of K.Kind joint.now }
    ensures quoted { Quoted K.Kind joint.now result }
{
    let shear = shear_governed(joint);
    let tying = tying_governed(joint);
    let tie = tying.map_or(0, |t| t.figure);
    let unmet = joint.unmet_number(shear.figure, tie);
    Sheet {
        shear,
        tying,
        class: (shear.figure / 50000).min(255) as u8,
        unmet,
        count: unmet.count_ones(),
    }
}

// The sheet of what a card says, or the first fault of its joint. What a sheet quotes holds of the joint that the card describes.
pub fn judged_sheet<K: Kind>(given: K::Joint) -> Result<Sheet, JointFault>
    ensures value { result ≡ judged K.Kind given }
    ensures quoted { QuotedCard K.Kind given result }
{
    let joint = K::admit(given)?;
    Ok(worked_sheet(&joint))
}
