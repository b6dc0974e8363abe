// Admission of a header plate: one function for each group of fields, in the order of the card, then the least distances.
ghost use Rattle.std.specs.Prelude.{◌≡◌};
ghost use Rattle.components.specs.Tabled.{hole_of};
ghost use Rattle.joint.specs.Checked.{of_list};
ghost use Rattle.header.specs.FieldChecks.{steel_checks, layout_checks, part_checks, demand_checks, distance_checks};
ghost use Rattle.header.specs.HeaderAdmission.{outcomes};

use crate::header_joint::{Demands, HeaderJoint, Layout, Parts, Steels};
use components::tables::is_steel;
use joint::checks::{allowed, apart, check_bolts, is_within};
use joint::fault::JointFault;

fn check_steels(s: Steels) -> Result<(), JointFault>
    ensures { result ≡ of_list (steel_checks s) }
{
    allowed(is_steel(s.plate), 1)?;
    allowed(is_steel(s.web), 2)?;
    allowed(is_steel(s.supp), 3)
}

fn check_layout(l: Layout) -> Result<(), JointFault>
    ensures { result ≡ of_list (layout_checks l) }
{
    allowed(is_within(1, 150, l.e1), 8)?;
    allowed(is_within(1, 200, l.p1), 9)?;
    allowed(is_within(1, 150, l.e2), 10)?;
    allowed(is_within(1, 200, l.p2), 11)
}

fn check_parts(p: Parts) -> Result<(), JointFault>
    ensures { result ≡ of_list (part_checks p) }
{
    allowed(is_within(30, 250, p.tp), 12)?;
    allowed(is_within(30, 250, p.tw), 13)?;
    allowed(is_within(30, 400, p.ts), 14)?;
    allowed(is_within(0, 150, p.es), 15)?;
    allowed(is_within(1, 250, p.a), 16)
}

fn check_demands(d: Demands) -> Result<(), JointFault>
    ensures { result ≡ of_list (demand_checks d) }
{
    allowed(is_within(0, 500, d.he), 17)?;
    allowed(is_within(1, 2000, d.db), 18)?;
    allowed(is_within(0, 100000, d.phi), 19)?;
    allowed(is_within(0, 10000000, d.v), 20)
}

fn check_distances(j: HeaderJoint) -> Result<(), JointFault>
    ensures { result ≡ of_list (distance_checks (hole_of j.bolts.bolt) j.layout j.parts) }
{
    let d0 = j.bolts.hole();
    let l = j.layout;
    let p = j.parts;
    apart(12, d0, l.e1, 8)?;
    apart(22, d0, l.p1, 9)?;
    apart(12, d0, l.e2, 10)?;
    apart(24, d0, l.p2, 11)?;
    if p.es == 0 {
        return Ok(());
    }
    apart(12, d0, p.es, 15)
}

// All checks in their order: the first fault is the answer.
pub(crate) fn check_all(j: HeaderJoint) -> Result<(), JointFault>
    ensures { result ≡ outcomes j }
{
    check_steels(j.steels)?;
    check_bolts(j.bolts, 4)?;
    check_layout(j.layout)?;
    check_parts(j.parts)?;
    check_demands(j.demands)?;
    check_distances(j)
}
