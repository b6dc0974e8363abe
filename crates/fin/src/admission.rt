// Admission of a fin plate: one function for each group of fields, in the order of the card, then the least distances, then the joint as a whole.
ghost use Rattle.std.specs.Prelude.{◌≡◌};
ghost use Rattle.components.specs.Tabled.{hole_of};
ghost use Rattle.joint.specs.Checked.{of_list};
ghost use Rattle.fin.specs.FieldChecks.{steel_checks, layout_checks, part_checks, demand_checks, distance_checks, whole_checks};
ghost use Rattle.fin.specs.FinAdmission.{outcomes};

use crate::fin_joint::{Demands, FinJoint, Layout, Parts, Steels};
use components::tables::is_steel;
use joint::checks::{allowed, apart, check_bolts, is_within};
use joint::fault::JointFault;

fn check_steels(s: Steels) -> Result<(), JointFault>
    ensures { result ≡ of_list (steel_checks s) }
{
    allowed(is_steel(s.plate), 1)?;
    allowed(is_steel(s.web), 2)
}

fn check_layout(l: Layout) -> Result<(), JointFault>
    ensures { result ≡ of_list (layout_checks l) }
{
    allowed(is_within(1, 150, l.e1), 7)?;
    allowed(is_within(1, 200, l.p1), 8)?;
    allowed(is_within(1, 150, l.e2), 9)?;
    allowed(is_within(1, 166, l.z), 10)
}

fn check_parts(p: Parts) -> Result<(), JointFault>
    ensures { result ≡ of_list (part_checks p) }
{
    allowed(is_within(30, 250, p.tp), 11)?;
    allowed(is_within(30, 250, p.tw), 12)?;
    allowed(is_within(1, 150, p.e1b), 13)?;
    allowed(is_within(1, 150, p.e2b), 14)?;
    allowed(is_within(1, 100000, p.av), 15)?;
    allowed(is_within(1, 250, p.a), 16)
}

fn check_demands(d: Demands) -> Result<(), JointFault>
    ensures { result ≡ of_list (demand_checks d) }
{
    allowed(is_within(0, 500, d.he), 17)?;
    allowed(is_within(1, 2000, d.db), 18)?;
    allowed(is_within(0, 100000, d.phi), 19)?;
    allowed(is_within(0, 10000000, d.v), 20)?;
    allowed(is_within(0, 10000000, d.n), 21)
}

fn check_distances(j: FinJoint) -> Result<(), JointFault>
    ensures { result ≡ of_list (distance_checks (hole_of j.bolts.bolt) j.layout j.parts) }
{
    let d0 = j.bolts.hole();
    let l = j.layout;
    let p = j.parts;
    apart(12, d0, l.e1, 7)?;
    apart(22, d0, l.p1, 8)?;
    apart(12, d0, l.e2, 9)?;
    apart(12, d0, p.e1b, 13)?;
    apart(12, d0, p.e2b, 14)
}

// The joint as a whole.
fn check_whole(j: FinJoint) -> Result<(), JointFault>
    ensures { result ≡ of_list (whole_checks (hole_of j.bolts.bolt) j.bolts.rows j.layout j.parts j.demands) }
{
    let l = j.layout;
    let p = j.parts;
    if 3 * l.z as u64 > 2 * p.tp as u64 {
        return Err(JointFault::PlateTooThin(11));
    }
    if p.e2b >= l.z {
        return Err(JointFault::NoGap(14));
    }
    let holes = j.bolts.rows as u64 * j.bolts.hole() as u64;
    if holes as u128 * p.tw as u128 >= 10 * p.av as u128 {
        return Err(JointFault::UsedUp(15));
    }
    if holes >= j.demands.db as u64 {
        return Err(JointFault::UsedUp(18));
    }
    Ok(())
}

// All checks in their order: the first fault is the answer.
pub(crate) fn check_all(j: FinJoint) -> Result<(), JointFault>
    ensures { result ≡ outcomes j }
{
    check_steels(j.steels)?;
    check_bolts(j.bolts, 3)?;
    check_layout(j.layout)?;
    check_parts(j.parts)?;
    check_demands(j.demands)?;
    check_distances(j)?;
    check_whole(j)
}
