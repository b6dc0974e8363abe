// The modes of a fin plate, each as the expression of its resistance.
ghost use Rattle.std.specs.Prelude.{◌≡◌, ◌-◌, ◌*◌, ◌≤◌, Some, None};
ghost use Rattle.components.specs.Bears.{on_part};
ghost use Rattle.components.specs.Tabled.{fu, hole_of};
ghost use Rattle.fin.specs.FinModes.{depth_of, length_of, shallow, bolt_total, plate_down, plate_across, web_down, web_across, group_by, bolt_group, plate_bearing, gross_plate, net_plate, plate_tearing, plate_bending, web_bearing, gross_web, net_web, web_tearing, bolt_tying, plate_bearing_tying, gross_plate_tying, net_plate_tying, web_bearing_tying, gross_web_tying, net_web_tying, plate_k, plate_α, plate_k_across, plate_α_across, web_k, web_α, web_k_across, web_α_across, shear_modes, tying_modes, fin_mode};
ghost use Rattle.joint.specs.Modes.{numbered};
ghost use Rattle.resistance.specs.Fractions.{◌÷◌};
ghost use Rattle.resistance.specs.declared.expression.Expression.TheVariants.{Sum, Group};

use crate::fin::Fin;
use components::bearing::{
    Bearing, Factors, edge_factor, end_factor, pitch_factor, spacing_factor,
};
use components::column::Column;
use components::part::Part;
use components::tables::ultimate_strength;
use resistance::expression::Expression;
use resistance::group::BoltGroup;
use resistance::ratio::Ratio;

impl Fin {
    // The bolts of the column, in a part that ends so far above and below them.
    fn column_from(&self, e1: u32) -> Column
        requires spaced { 12 * hole_of self.now.joint.bolts.bolt ≤ 10 * e1 }
        requires near { e1 ≤ 150 }
        ensures rows { result.rows ≡ self.now.joint.bolts.rows }
        ensures end { result.e1 ≡ e1 }
        ensures pitch { result.p1 ≡ self.now.joint.layout.p1 }
        ensures hole { result.hole ≡ hole_of self.now.joint.bolts.bolt }
    {
        Column {
            rows: self.joint.bolts.rows,
            e1,
            p1: self.joint.layout.p1,
            hole: self.joint.bolts.hole(),
        }
    }

    // In the plate.
    fn column(&self) -> Column
        ensures rows { result.rows ≡ self.now.joint.bolts.rows }
        ensures end { result.e1 ≡ self.now.joint.layout.e1 }
        ensures pitch { result.p1 ≡ self.now.joint.layout.p1 }
        ensures hole { result.hole ≡ hole_of self.now.joint.bolts.bolt }
    {
        self.column_from(self.joint.layout.e1)
    }

    // In the beam web, which ends above the top bolt.
    fn web_column(&self) -> Column
        ensures rows { result.rows ≡ self.now.joint.bolts.rows }
        ensures end { result.e1 ≡ self.now.joint.parts.e1b }
        ensures pitch { result.p1 ≡ self.now.joint.layout.p1 }
        ensures hole { result.hole ≡ hole_of self.now.joint.bolts.bolt }
    {
        self.column_from(self.joint.parts.e1b)
    }

    // hp: the depth of the plate.
    pub(crate) fn depth(&self) -> u32
        ensures value { result ≡ depth_of self.now.joint }
        ensures bound { result ≤ 2100 }
    {
        self.column().depth()
    }

    // L: the length by which the bolts of the column resist turning.
    fn turning_length(&self) -> u64
        ensures value { result ≡ length_of self.now.joint }
        ensures bound { result ≤ 2200 }
    {
        (self.joint.bolts.rows as u64 + 1) * self.joint.layout.p1 as u64
    }

    // The plate is shallow for its lever arm, so that it bends.
    pub(crate) fn is_shallow(&self) -> bool
        ensures { result ≡ shallow self.now.joint }
    {
        100 * self.depth() < 273 * self.joint.layout.z
    }

    fn plate(&self) -> Part
        ensures thickness { result.thickness ≡ self.now.joint.parts.tp }
        ensures steel { result.steel ≡ self.now.joint.steels.plate }
    {
        Part {
            thickness: self.joint.parts.tp,
            steel: self.joint.steels.plate,
        }
    }

    fn web(&self) -> Part
        ensures thickness { result.thickness ≡ self.now.joint.parts.tw }
        ensures steel { result.steel ≡ self.now.joint.steels.web }
    {
        Part {
            thickness: self.joint.parts.tw,
            steel: self.joint.steels.web,
        }
    }

    // All bolts, bearing on a part.
    fn bolts_on(&self, part: Part) -> Bearing
        ensures { result ≡ on_part self.now.joint.bolts self.now.joint.bolts.rows part.thickness part.steel }
    {
        self.joint.bolts.on_part(self.joint.bolts.rows, part)
    }

    // k and α of the plate, of a load down the column.
    fn plate_factors(&self) -> Factors
        ensures k { result.k ≡ plate_k self.now.joint }
        ensures alpha { result.alpha ≡ plate_α self.now.joint }
    {
        let d0 = self.joint.bolts.hole();
        let l = self.joint.layout;
        Factors {
            k: edge_factor(d0, l.e2),
            alpha: end_factor(d0, l.e1).lesser(pitch_factor(d0, l.p1)),
        }
    }

    // The same of a load across it.
    fn plate_factors_across(&self) -> Factors
        ensures k { result.k ≡ plate_k_across self.now.joint }
        ensures alpha { result.alpha ≡ plate_α_across self.now.joint }
    {
        let d0 = self.joint.bolts.hole();
        let l = self.joint.layout;
        Factors {
            k: edge_factor(d0, l.e1).lesser(spacing_factor(d0, l.p1)),
            alpha: end_factor(d0, l.e2),
        }
    }

    fn web_factors(&self) -> Factors
        ensures k { result.k ≡ web_k self.now.joint }
        ensures alpha { result.alpha ≡ web_α self.now.joint }
    {
        let d0 = self.joint.bolts.hole();
        Factors {
            k: edge_factor(d0, self.joint.parts.e2b),
            alpha: pitch_factor(d0, self.joint.layout.p1),
        }
    }

    fn web_factors_across(&self) -> Factors
        ensures k { result.k ≡ web_k_across self.now.joint }
        ensures alpha { result.alpha ≡ web_α_across self.now.joint }
    {
        let d0 = self.joint.bolts.hole();
        Factors {
            k: spacing_factor(d0, self.joint.layout.p1),
            alpha: end_factor(d0, self.joint.parts.e2b),
        }
    }

    // P and Q of the plate.
    pub(crate) fn plate_totals(&self) -> (Ratio, Ratio)
        ensures { result ≡ (plate_down self.now.joint, plate_across self.now.joint) }
    {
        let bolts = self.bolts_on(self.plate());
        let down = bolts.total(self.plate_factors()).unwrap();
        let across = bolts.total(self.plate_factors_across()).unwrap();
        (down, across)
    }

    // P and Q of the beam web.
    pub(crate) fn web_totals(&self) -> (Ratio, Ratio)
        ensures { result ≡ (web_down self.now.joint, web_across self.now.joint) }
    {
        let bolts = self.bolts_on(self.web());
        let down = bolts.total(self.web_factors()).unwrap();
        let across = bolts.total(self.web_factors_across()).unwrap();
        (down, across)
    }

    // T: all bolts in shear.
    pub(crate) fn bolts_total(&self) -> Ratio
        ensures { result ≡ bolt_total self.now.joint }
    {
        self.joint.bolts.in_shear(self.joint.bolts.rows, 2, 25)
    }

    // The group of the bolts, of these totals down and across.
    fn group(&self, vertical: Ratio, horizontal: Ratio) -> Expression
        ensures { result ≡ Group (group_by self.now.joint vertical horizontal) }
    {
        let length = self.turning_length();
        Expression::Group(BoltGroup {
            vertical,
            horizontal,
            scale: 100000,
            shear: length,
            down: length,
            across: 6 * self.joint.layout.z as u64,
        })
    }

    fn bolts_in_shear(&self) -> Expression
        ensures { result ≡ bolt_group self.now.joint }
    {
        let all = self.bolts_total();
        self.group(all, all)
    }

    fn plate_in_bearing(&self) -> Expression
        ensures { result ≡ plate_bearing self.now.joint }
    {
        let (down, across) = self.plate_totals();
        self.group(down, across)
    }

    fn web_in_bearing(&self) -> Expression
        ensures { result ≡ web_bearing self.now.joint }
    {
        let (down, across) = self.web_totals();
        self.group(down, across)
    }

    fn gross_section(&self) -> Expression
        ensures { result ≡ gross_plate self.now.joint }
    {
        Expression::Root(self.plate().at_yield(10 * self.depth(), 127))
    }

    fn net_section(&self) -> Expression
        ensures { result ≡ net_plate self.now.joint }
    {
        let net = self.column().net_depth();
        Expression::Root(self.plate().at_rupture(2 * net, 25))
    }

    // A block torn out of a part: across, to an edge at this distance from the bolts, and along a net length that counts both sides.
    fn torn_block(&self, part: Part, edge: u32, length: u32) -> Expression
        requires spaced { 12 * hole_of self.now.joint.bolts.bolt ≤ 10 * edge }
        requires near { edge ≤ 150 }
        ensures { result ≡ Sum ((part.thickness * (2 * edge - hole_of self.now.joint.bolts.bolt) * fu part.steel) ÷ 50) ((part.thickness * part.steel * length) ÷ 20) }
    {
        let torn = 2 * edge - self.joint.bolts.hole();
        Expression::Sum(part.at_rupture(torn, 50), part.at_yield(length, 20))
    }

    fn tearing_block(&self) -> Expression
        ensures { result ≡ plate_tearing self.now.joint }
    {
        let length = self.column().torn_length();
        self.torn_block(self.plate(), self.joint.layout.e2, length)
    }

    fn bending(&self) -> Expression
        ensures { result ≡ plate_bending self.now.joint }
    {
        let hp = self.depth();
        let divisor = 60 * self.joint.layout.z as u64;
        Expression::Whole(self.plate().at_yield(hp * hp, divisor))
    }

    fn gross_web_section(&self) -> Expression
        ensures { result ≡ gross_web self.now.joint }
    {
        Expression::Root(Ratio {
            over: self.joint.parts.av as u64 * self.joint.steels.web as u64,
            under: 1,
        })
    }

    fn net_web_section(&self) -> Expression
        ensures { result ≡ net_web self.now.joint }
    {
        let b = self.joint.bolts;
        let p = self.joint.parts;
        let fu = ultimate_strength(self.joint.steels.web) as u64;
        let holes = b.rows as u64 * b.hole() as u64 * p.tw as u64;
        Expression::Root(Ratio {
            over: 2 * (10 * p.av as u64 - holes) * fu,
            under: 25,
        })
    }

    fn tearing_web_block(&self) -> Expression
        ensures { result ≡ web_tearing self.now.joint }
    {
        self.torn_block(
            self.web(),
            self.joint.parts.e2b,
            self.web_column().torn_length(),
        )
    }

    // Tying modes carry no partial factor.
    fn bolts_tied(&self) -> Expression
        ensures { result ≡ bolt_tying self.now.joint }
    {
        Expression::Whole(self.joint.bolts.in_shear(self.joint.bolts.rows, 1, 10))
    }

    fn plate_bearing_tied(&self) -> Expression
        ensures { result ≡ plate_bearing_tying self.now.joint }
    {
        let factors = self.plate_factors_across();
        let total = self.bolts_on(self.plate()).ultimate(factors);
        Expression::Whole(total.unwrap())
    }

    fn gross_section_tied(&self) -> Expression
        ensures { result ≡ gross_plate_tying self.now.joint }
    {
        Expression::Whole(self.plate().at_rupture(self.depth(), 10))
    }

    fn net_section_tied(&self) -> Expression
        ensures { result ≡ net_plate_tying self.now.joint }
    {
        let net = self.column().net_depth();
        Expression::Whole(self.plate().at_rupture(9 * net, 100))
    }

    fn web_bearing_tied(&self) -> Expression
        ensures { result ≡ web_bearing_tying self.now.joint }
    {
        let factors = self.web_factors_across();
        let total = self.bolts_on(self.web()).ultimate(factors);
        Expression::Whole(total.unwrap())
    }

    fn gross_web_tied(&self) -> Expression
        ensures { result ≡ gross_web_tying self.now.joint }
    {
        Expression::Whole(self.web().at_rupture(self.joint.demands.db, 10))
    }

    fn net_web_tied(&self) -> Expression
        ensures { result ≡ net_web_tying self.now.joint }
    {
        let b = self.joint.bolts;
        let net = self.joint.demands.db - b.rows * b.hole();
        Expression::Whole(self.web().at_rupture(9 * net, 100))
    }

    // The expression of a shear mode, and nothing where it does not bind.
    #[tactic(auto, using(std::proofs::lemmas::Bool::Decides::nat_tests), unfolding(crate::specs::FinModes::shear_modes))]
    fn shear_expression(&self, mode: u32) -> Option<Expression>
        ensures { result ≡ numbered None 1 (shear_modes self.now.joint) mode }
    {
        match mode {
            1 => Some(self.bolts_in_shear()),
            2 => Some(self.plate_in_bearing()),
            3 => Some(self.gross_section()),
            4 => Some(self.net_section()),
            5 => Some(self.tearing_block()),
            6 => self.is_shallow().then_some(self.bending()),
            // buckling of a long fin plate: no such plate is admitted
            7 => None,
            8 => Some(self.web_in_bearing()),
            9 => Some(self.gross_web_section()),
            10 => Some(self.net_web_section()),
            11 => Some(self.tearing_web_block()),
            _ => None,
        }
    }

    // The expression of a tying mode.
    #[tactic(auto, using(std::proofs::lemmas::Bool::Decides::nat_tests), unfolding(crate::specs::FinModes::tying_modes))]
    fn tying_expression(&self, mode: u32) -> Option<Expression>
        ensures { result ≡ numbered None 21 (tying_modes self.now.joint) mode }
    {
        match mode {
            21 => Some(self.bolts_tied()),
            22 => Some(self.plate_bearing_tied()),
            23 => Some(self.gross_section_tied()),
            24 => Some(self.net_section_tied()),
            25 => Some(self.web_bearing_tied()),
            26 => Some(self.gross_web_tied()),
            27 => Some(self.net_web_tied()),
            _ => None,
        }
    }

    // The expression of a mode, and nothing where it does not bind.
    pub(crate) fn expression(&self, mode: u32) -> Option<Expression>
        ensures { result ≡ fin_mode self.now mode }
    {
        if mode < 21 {
            self.shear_expression(mode)
        } else {
            self.tying_expression(mode)
        }
    }
}
