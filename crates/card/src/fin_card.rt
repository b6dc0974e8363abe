// The card of a fin plate joint.
ghost use Rattle.std.proofs.Common.{ap, refl, rules};
ghost use Rattle.card.specs.Fins.{fin_keys, fin_fields, fin_of};

use crate::kind::CardKind;
use components::bolts::Bolts;
use fin::fin_joint::{Demands, FinJoint, Layout, Parts, Steels};

const FIN_KEYS: [&[u8]; 21] = [
    b"plate", b"web", b"bolt", b"grade", b"plane", b"rows", b"e1", b"p1", b"e2", b"z", b"tp",
    b"tw", b"e1b", b"e2b", b"av", b"a", b"he", b"db", b"phi", b"v", b"n",
];

impl CardKind<21> for FinJoint {
    ghost initial = { 70 };

    ghost keys = { fin_keys };

    ghost fields = { fin_fields };

    ghost sized = { refl };

    ghost plain = { Prim.search rules };

    ghost clean = { refl };

    ghost counted = { λ j. refl };

    ghost only = { λ i j e. ap fin_of e };

    fn letter() -> u8 {
        b'F'
    }

    fn key_table() -> &'static [&'static [u8]] {
        &FIN_KEYS
    }

    fn of_values(values: &[u32; 21]) -> FinJoint {
        let [
            plate,
            web,
            bolt,
            grade,
            plane,
            rows,
            e1,
            p1,
            e2,
            z,
            tp,
            tw,
            e1b,
            e2b,
            av,
            a,
            he,
            db,
            phi,
            v,
            n,
        ] = *values;
        FinJoint {
            steels: Steels { plate, web },
            bolts: Bolts {
                bolt,
                grade,
                plane,
                rows,
            },
            layout: Layout { e1, p1, e2, z },
            parts: Parts {
                tp,
                tw,
                e1b,
                e2b,
                av,
                a,
            },
            demands: Demands { he, db, phi, v, n },
        }
    }
}
