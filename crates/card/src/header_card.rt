// The card of a header plate joint.
ghost use Rattle.std.proofs.Common.{ap, refl, rules};
ghost use Rattle.card.specs.Headers.{header_keys, header_fields, header_of};

use crate::kind::CardKind;
use components::bolts::Bolts;
use header::header_joint::{Demands, HeaderJoint, Layout, Parts, Steels};

const HEADER_KEYS: [&[u8]; 20] = [
    b"plate", b"web", b"supp", b"bolt", b"grade", b"plane", b"rows", b"e1", b"p1", b"e2", b"p2",
    b"tp", b"tw", b"ts", b"es", b"a", b"he", b"db", b"phi", b"v",
];

impl CardKind<20> for HeaderJoint {
    ghost initial = { 72 };

    ghost keys = { header_keys };

    ghost fields = { header_fields };

    ghost sized = { refl };

    ghost plain = { Prim.search rules };

    ghost clean = { refl };

    ghost counted = { λ j. refl };

    ghost only = { λ i j e. ap header_of e };

    fn letter() -> u8 {
        b'H'
    }

    fn key_table() -> &'static [&'static [u8]] {
        &HEADER_KEYS
    }

    fn of_values(values: &[u32; 20]) -> HeaderJoint {
        let [
            plate,
            web,
            supp,
            bolt,
            grade,
            plane,
            rows,
            e1,
            p1,
            e2,
            p2,
            tp,
            tw,
            ts,
            es,
            a,
            he,
            db,
            phi,
            v,
        ] = *values;
        HeaderJoint {
            steels: Steels { plate, web, supp },
            bolts: Bolts {
                bolt,
                grade,
                plane,
                rows,
            },
            layout: Layout { e1, p1, e2, p2 },
            parts: Parts { tp, tw, ts, es, a },
            demands: Demands { he, db, phi, v },
        }
    }
}
