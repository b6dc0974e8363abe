// The cards of the trials.
use components::bolts::Bolts;
use fin::fin_joint;
use fin::fin_joint::FinJoint;
use header::header_joint::{Demands, HeaderJoint, Layout, Parts, Steels};
use std::alloc::{AllocError, Global};

// Three bolts M20 of class 8.8 in a column, with the thread in the shear plane.
const BOLTS: Bolts = Bolts {
    bolt: 20,
    grade: 88,
    plane: 1,
    rows: 3,
};

// The worked example of the trade.
pub(crate) fn trade_card() -> HeaderJoint {
    HeaderJoint {
        steels: Steels {
            plate: 235,
            web: 235,
            supp: 235,
        },
        bolts: BOLTS,
        layout: Layout {
            e1: 45,
            p1: 70,
            e2: 50,
            p2: 100,
        },
        parts: Parts {
            tp: 100,
            tw: 71,
            ts: 100,
            es: 50,
            a: 40,
        },
        demands: Demands {
            he: 35,
            db: 248,
            phi: 0,
            v: 200000,
        },
    }
}

// The reference card, with this end distance and this distance from the plate's foot to the underside of the beam.
pub(crate) fn reference_card(e1: u32, he: u32) -> HeaderJoint {
    HeaderJoint {
        steels: Steels {
            plate: 275,
            web: 275,
            supp: 275,
        },
        bolts: BOLTS,
        layout: Layout {
            e1,
            p1: 70,
            e2: 30,
            p2: 90,
        },
        parts: Parts {
            tp: 80,
            tw: 71,
            ts: 140,
            es: 50,
            a: 40,
        },
        demands: Demands {
            he,
            db: 300,
            phi: 20000,
            v: 0,
        },
    }
}

// The reference card of fin plates.
pub(crate) fn fin_card() -> FinJoint {
    FinJoint {
        steels: fin_joint::Steels {
            plate: 275,
            web: 275,
        },
        bolts: BOLTS,
        layout: fin_joint::Layout {
            e1: 40,
            p1: 70,
            e2: 50,
            z: 60,
        },
        parts: fin_joint::Parts {
            tp: 100,
            tw: 60,
            e1b: 80,
            e2b: 50,
            av: 2500,
            a: 48,
        },
        demands: fin_joint::Demands {
            he: 40,
            db: 280,
            phi: 22000,
            v: 120000,
            n: 75000,
        },
    }
}

// The text of the reference card, with this end distance.
pub(crate) fn reference_text(heap: Global, e1: u32) -> Result<String, AllocError> {
    let front = "joint=H\nplate=275\nweb=275\nsupp=275\nbolt=20\ngrade=88\nplane=1\nrows=3\n";
    let back =
        "p1=70\ne2=30\np2=90\ntp=80\ntw=71\nts=140\nes=50\na=40\nhe=0\ndb=300\nphi=20000\nv=0\n";
    format!(in heap; "{front}e1={e1}\n{back}")
}
