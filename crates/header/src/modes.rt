// The eight modes of a header plate, each as the expression of its resistance.
ghost use Rattle.std.specs.Prelude.{◌≡◌, ◌≤◌, Some};
ghost use Rattle.components.specs.Bears.{on_part};
ghost use Rattle.components.specs.Tabled.{hole_of};
ghost use Rattle.header.specs.HeaderModes.{bolts_of, depth_of, shallow, sides_of, support_edge, bolt_shear, plate_bearing, support_bearing, gross_plate, net_plate, block_tearing, plate_bending, beam_web, header_mode};

use crate::header::Header;
use components::bearing::{Bearing, Factors, MOST, edge_factor, end_factor, pitch_factor};
use components::column::Column;
use components::part::Part;
use resistance::expression::Expression;
use resistance::ratio::Ratio;

impl Header {
    // m: all bolts, in two columns.
    fn bolt_count(&self) -> u32
        ensures value { result ≡ bolts_of self.now.joint }
        ensures bound { result ≤ 20 }
    {
        2 * self.joint.bolts.rows
    }

    // The bolts of one column.
    fn column(&self) -> Column
        ensures rows { result.rows ≡ self.now.joint.bolts.rows }
        ensures end { result.e1 ≡ self.now.joint.layout.e1 }
        ensures pitch { result.p1 ≡ self.now.joint.layout.p1 }
        ensures hole { result.hole ≡ hole_of self.now.joint.bolts.bolt }
    {
        Column {
            rows: self.joint.bolts.rows,
            e1: self.joint.layout.e1,
            p1: self.joint.layout.p1,
            hole: self.joint.bolts.hole(),
        }
    }

    // hp: the depth of the plate.
    pub(crate) fn depth(&self) -> u32
        ensures value { result ≡ depth_of self.now.joint }
        ensures bound { result ≤ 2100 }
    {
        self.column().depth()
    }

    // The plate is shallow for its gauge, so that it bends.
    pub(crate) fn is_shallow(&self) -> bool
        ensures { result ≡ shallow self.now.joint }
    {
        25 * self.depth() < 34 * self.joint.layout.p2
    }

    pub(crate) fn plate(&self) -> Part
        ensures thickness { result.thickness ≡ self.now.joint.parts.tp }
        ensures steel { result.steel ≡ self.now.joint.steels.plate }
    {
        Part {
            thickness: self.joint.parts.tp,
            steel: self.joint.steels.plate,
        }
    }

    fn web(&self) -> Part
        ensures thickness { result.thickness ≡ self.now.joint.parts.tw }
        ensures steel { result.steel ≡ self.now.joint.steels.web }
    {
        Part {
            thickness: self.joint.parts.tw,
            steel: self.joint.steels.web,
        }
    }

    pub(crate) fn support(&self) -> Part
        ensures thickness { result.thickness ≡ self.now.joint.parts.ts }
        ensures steel { result.steel ≡ self.now.joint.steels.supp }
    {
        Part {
            thickness: self.joint.parts.ts,
            steel: self.joint.steels.supp,
        }
    }

    // All bolts, bearing on a part.
    fn bolts_on(&self, part: Part) -> Bearing
        ensures { result ≡ on_part self.now.joint.bolts (bolts_of self.now.joint) part.thickness part.steel }
    {
        self.joint.bolts.on_part(self.bolt_count(), part)
    }

    // k of the support: a supporting web, which has no edge, has the most.
    fn support_factor(&self) -> Ratio
        ensures { result ≡ support_edge self.now.joint }
    {
        if self.joint.parts.es == 0 {
            return MOST;
        }
        edge_factor(self.joint.bolts.hole(), self.joint.parts.es)
    }

    fn bolts_in_shear(&self) -> Expression
        ensures { result ≡ bolt_shear self.now.joint }
    {
        Expression::Whole(self.joint.bolts.in_shear(self.bolt_count(), 8, 125))
    }

    fn plate_in_bearing(&self) -> Expression
        ensures { result ≡ plate_bearing self.now.joint }
    {
        let d0 = self.joint.bolts.hole();
        let l = self.joint.layout;
        let factors = Factors {
            k: edge_factor(d0, l.e2),
            alpha: end_factor(d0, l.e1).lesser(pitch_factor(d0, l.p1)),
        };
        let total = self.bolts_on(self.plate()).total(factors);
        Expression::Whole(total.unwrap())
    }

    fn support_in_bearing(&self) -> Expression
        ensures { result ≡ support_bearing self.now.joint }
    {
        let d0 = self.joint.bolts.hole();
        let factors = Factors {
            k: self.support_factor(),
            alpha: pitch_factor(d0, self.joint.layout.p1),
        };
        let total = self.bolts_on(self.support()).total(factors);
        Expression::Whole(total.unwrap())
    }

    fn gross_section(&self) -> Expression
        ensures { result ≡ gross_plate self.now.joint }
    {
        Expression::Root(self.plate().at_yield(20 * self.depth(), 127))
    }

    fn net_section(&self) -> Expression
        ensures { result ≡ net_plate self.now.joint }
    {
        let net = self.column().net_depth();
        Expression::Root(self.plate().at_rupture(4 * net, 25))
    }

    // How many sides of the block carry tension: both, unless the plate bends.
    fn torn_sides(&self) -> u32
        ensures value { result ≡ sides_of self.now.joint }
        ensures bound { result ≤ 2 }
    {
        if self.is_shallow() { 1 } else { 2 }
    }

    fn tearing_block(&self) -> Expression
        ensures { result ≡ block_tearing self.now.joint }
    {
        let torn = 2 * self.joint.layout.e2 - self.joint.bolts.hole();
        Expression::Sum(
            self.plate().at_rupture(self.torn_sides() * torn, 25),
            self.plate().at_yield(self.column().torn_length(), 10),
        )
    }

    fn bending(&self) -> Expression
        ensures { result ≡ plate_bending self.now.joint }
    {
        let hp = self.depth();
        let gap = 10 * self.joint.layout.p2 - self.joint.parts.tw;
        Expression::Whole(self.plate().at_yield(hp * hp, 3 * gap as u64))
    }

    fn web_in_shear(&self) -> Expression
        ensures { result ≡ beam_web self.now.joint }
    {
        Expression::Root(self.web().at_yield(self.depth(), 10))
    }

    // The expression of a mode, and nothing where it does not bind.
    #[tactic(auto, using(std::proofs::lemmas::Bool::Decides::nat_tests), unfolding(crate::specs::HeaderModes::shear_modes))]
    pub(crate) fn expression(&self, mode: u32) -> Option<Expression>
        ensures { result ≡ header_mode self.now mode }
    {
        match mode {
            1 => Some(self.bolts_in_shear()),
            2 => Some(self.plate_in_bearing()),
            3 => Some(self.support_in_bearing()),
            4 => Some(self.gross_section()),
            5 => Some(self.net_section()),
            6 => Some(self.tearing_block()),
            7 => self.is_shallow().then_some(self.bending()),
            8 => Some(self.web_in_shear()),
            _ => None,
        }
    }
}
