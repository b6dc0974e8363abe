use crate::cards::{fin_card, reference_card, reference_text, trade_card};
use account::account::account;
use card::card::{Card, read_card};
use card::fault::TextFault;
use fin::fin::Fin;
use header::header::Header;
use joint::fault::{FaultCode, JointFault};
use joint::kind::Kind;
use joint::sheet::{Governing, Sheet};
use joint::work::judged_sheet;
use std::test::Fail;

// What the account says of the reference card, and of the same card with end distance 26.
const WORKED: &str = "joint=H\nshear=248000\nmode=8\ntie=0\ntiemode=0\nclass=4\nunmet=0\ncount=0\n";

const TOO_CLOSE: &str = "layer=2\nfault=22\nat=8\n";

// The numbers that a fault is reported with.
fn code(layer: u32, number: u32, at: usize) -> FaultCode {
    FaultCode { layer, number, at }
}

// A sheet of class 4, governed by the beam web.
fn web_sheet(figure: u64, unmet: u32, count: u32) -> Sheet {
    Sheet {
        shear: Governing { mode: 8, figure },
        tying: None,
        class: 4,
        unmet,
        count,
    }
}

#[test]
fn trade_figures(rt: HostRuntime) -> Result<(), Fail> {
    let joint = Header::admit(trade_card())?;
    assert_eq!(rt; joint.figure(1), Some(451584));
    assert_eq!(rt; joint.figure(2), Some(589090));
    assert_eq!(rt; joint.figure(3), Some(700363));
    assert_eq!(rt; joint.figure(4), Some(491429));
    assert_eq!(rt; joint.figure(5), Some(545388));
    assert_eq!(rt; joint.figure(6), Some(577401));
    assert_eq!(rt; joint.figure(7), None);
    assert_eq!(rt; joint.figure(8), Some(221561));
    Ok(())
}

// Modes that a header plate does not have, and the first of tying.
#[test]
fn no_such_modes(rt: HostRuntime) -> Result<(), Fail> {
    let joint = Header::admit(trade_card())?;
    assert_eq!(rt; joint.figure(0), None);
    assert_eq!(rt; joint.figure(9), None);
    assert_eq!(rt; joint.figure(21), None);
    Ok(())
}

#[test]
fn trade_sheet(rt: HostRuntime) -> Result<(), Fail> {
    assert_eq!(rt;
        judged_sheet::<Header>(trade_card())?,
        web_sheet(221561, 0, 0)
    );
    Ok(())
}

#[test]
fn reference_figures(rt: HostRuntime) -> Result<(), Fail> {
    let joint = Header::admit(reference_card(40, 0))?;
    assert_eq!(rt; joint.figure(1), Some(451584));
    assert_eq!(rt; joint.figure(2), Some(423944));
    assert_eq!(rt; joint.figure(3), Some(1171163));
    assert_eq!(rt; joint.figure(4), Some(440058));
    assert_eq!(rt; joint.figure(6), Some(422118));
    assert_eq!(rt; joint.figure(8), Some(248000));
    Ok(())
}

// The joint still turns as far as is required with the plate's foot 399 mm above the underside of the beam, not with 400.
#[test]
fn rotation_edge(rt: HostRuntime) -> Result<(), Fail> {
    assert_eq!(rt;
        judged_sheet::<Header>(reference_card(40, 399))?,
        web_sheet(248000, 0, 0)
    );
    assert_eq!(rt;
        judged_sheet::<Header>(reference_card(40, 400))?,
        web_sheet(248000, 2, 1)
    );
    Ok(())
}

// Why a joint of this kind is not admitted.
fn refusal<K: Kind>(given: K::Joint) -> Option<JointFault> {
    K::admit(given).err()
}

// The least end distance of an M20 is 27 mm.
#[test]
fn end_distance_edge(rt: HostRuntime) -> Result<(), Fail> {
    assert_eq!(rt; refusal::<Header>(reference_card(27, 0)), None);
    let fault = refusal::<Header>(reference_card(26, 0)).ok_or("admitted")?;
    assert_eq!(rt; fault, JointFault::TooClose(8));
    assert_eq!(rt; fault.code(), code(2, 22, 8));
    Ok(())
}

// The sheet of the fin plate, with the requirements that it does not meet.
fn known_fin_sheet(unmet: u32, count: u32) -> Sheet {
    Sheet {
        shear: Governing {
            mode: 8,
            figure: 147559,
        },
        tying: Some(Governing {
            mode: 25,
            figure: 293181,
        }),
        class: 2,
        unmet,
        count,
    }
}

// A weld of 4.7 mm is too thin for this plate.
#[test]
fn fin_sheets(rt: HostRuntime) -> Result<(), Fail> {
    let mut card = fin_card();
    assert_eq!(rt; judged_sheet::<Fin>(card)?, known_fin_sheet(0, 0));
    card.parts.a = 47;
    assert_eq!(rt; judged_sheet::<Fin>(card)?, known_fin_sheet(8, 1));
    Ok(())
}

// The modes that a fin plate has, and those around them that it has not.
#[test]
fn fin_modes(rt: HostRuntime) -> Result<(), Fail> {
    let joint = Fin::admit(fin_card())?;
    assert_eq!(rt; joint.figure(0), None);
    assert_eq!(rt; joint.figure(1), Some(173278));
    assert_eq!(rt; joint.figure(6), None);
    assert_eq!(rt; joint.figure(11), Some(197431));
    assert_eq!(rt; joint.figure(12), None);
    assert_eq!(rt; joint.figure(20), None);
    assert_eq!(rt; joint.figure(21), Some(352800));
    assert_eq!(rt; joint.figure(27), Some(496908));
    assert_eq!(rt; joint.figure(28), None);
    Ok(())
}

#[test]
fn fin_end_distance_edge(rt: HostRuntime) {
    let mut card = fin_card();
    card.layout.e1 = 27;
    assert_eq!(rt; refusal::<Fin>(card), None);
    card.layout.e1 = 26;
    assert_eq!(rt; refusal::<Fin>(card), Some(JointFault::TooClose(7)));
}

// The plate is at least 0.15 times as thick as the lever arm is long.
#[test]
fn fin_thickness_edge(rt: HostRuntime) -> Result<(), Fail> {
    let mut card = fin_card();
    card.parts.tp = 90;
    assert_eq!(rt; refusal::<Fin>(card), None);
    card.parts.tp = 89;
    let fault = refusal::<Fin>(card).ok_or("admitted")?;
    assert_eq!(rt; fault, JointFault::PlateTooThin(11));
    assert_eq!(rt; fault.code(), code(2, 23, 11));
    Ok(())
}

#[test]
fn fin_no_gap(rt: HostRuntime) {
    let mut card = fin_card();
    card.parts.e2b = 60;
    assert_eq!(rt; refusal::<Fin>(card), Some(JointFault::NoGap(14)));
}

// The holes take the whole shear area.
#[test]
fn fin_used_up(rt: HostRuntime) {
    let mut card = fin_card();
    card.parts.av = 300;
    assert_eq!(rt; refusal::<Fin>(card), Some(JointFault::UsedUp(15)));
}

// The numbers of the fault of a text that is no card.
fn text_fault(text: &[u8]) -> Option<FaultCode> {
    read_card(text).err().map(TextFault::code)
}

#[test]
fn text_faults(rt: HostRuntime) {
    assert_eq!(rt; text_fault(b""), Some(code(1, 12, 1)));
    assert_eq!(rt; text_fault(b"joint=G\nplate=275\n"), Some(code(1, 11, 1)));
    assert_eq!(rt;
        text_fault(b"joint=H\nplate=275\nsupp=275\n"),
        Some(code(1, 13, 3))
    );
    assert_eq!(rt;
        text_fault(b"joint=H\nplate=0275\nweb=275\n"),
        Some(code(1, 14, 2))
    );
}

#[test]
fn card_read(rt: HostRuntime) -> Result<(), Fail> {
    let text = reference_text(rt.alloc(), 40)?;
    let (card, taken) = read_card(text.as_bytes())?;
    assert_eq!(rt; card, Card::Header(reference_card(40, 0)));
    assert_eq!(rt; taken, text.len());
    Ok(())
}

#[test]
fn empty_account(rt: HostRuntime) -> Result<(), Fail> {
    assert_eq!(rt; account(rt.alloc(), b"")?.as_str(), "");
    Ok(())
}

// A joint that is not admitted does not end the account.
#[test]
fn account_goes_on(rt: HostRuntime) -> Result<(), Fail> {
    let heap = rt.alloc();
    let good = reference_text(heap, 40)?;
    let close = reference_text(heap, 26)?;
    let text = format!(in heap; "{good}{close}{good}")?;
    let expected = format!(in heap; "{WORKED}{TOO_CLOSE}{WORKED}")?;
    assert_eq!(rt; account(heap, text.as_bytes())?.as_str(), expected.as_str());
    Ok(())
}

// A fault of the text does.
#[test]
fn account_ends(rt: HostRuntime) -> Result<(), Fail> {
    let heap = rt.alloc();
    let good = reference_text(heap, 40)?;
    let text = format!(in heap; "{good}joint=G\n{good}")?;
    let expected = format!(in heap; "{WORKED}layer=1\nfault=11\nat=1\n")?;
    assert_eq!(rt; account(heap, text.as_bytes())?.as_str(), expected.as_str());
    Ok(())
}
