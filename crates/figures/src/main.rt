// Reads cards from standard input and prints a line for each: the letter of its kind and the figures of its modes, or `refused`.
#![tactic(auto)]

use card::card::Card;
use card::cards::Cards;
use fin::fin::Fin;
use header::header::Header;
use joint::kind::Kind;
use std::io;
use std::io::Read;

// The figure of a mode, `-` where it does not bind, and `?` where that and the figure disagree.
fn print_figure<K: Kind>(rt: &HostRuntime, joint: &K, mode: u32) -> io::Result<()> {
    match (joint.figure(mode), joint.binds(mode)) {
        (Some(figure), true) => print!(rt; " {figure}"),
        (None, false) => print!(rt; " -"),
        _ => print!(rt; " ?"),
    }
}

// The shear modes, and then the tying modes.
fn print_figures<K: Kind>(rt: &HostRuntime, joint: &K) -> io::Result<()> {
    for mode in (1..=K::SHEAR_MODES).chain(21..=20 + K::TYING_MODES) {
        print_figure(rt, joint, mode)?;
    }
    println!(rt)
}

fn print_joint<K: Kind>(rt: &HostRuntime, letter: &str, given: K::Joint) -> io::Result<()> {
    let Ok(joint) = K::admit(given) else {
        return println!(rt; "refused");
    };
    print!(rt; "{letter}")?;
    print_figures(rt, &joint)
}

// A text that is not a card ends the cards.
fn print_cards(rt: &HostRuntime, text: &[u8]) -> io::Result<()> {
    for card in Cards::of(text) {
        match card {
            Ok(Card::Header(given)) => print_joint::<Header>(rt, "H", given)?,
            Ok(Card::Fin(given)) => print_joint::<Fin>(rt, "F", given)?,
            Err(_) => println!(rt; "refused")?,
        }
    }
    Ok(())
}

fn main(rt: HostRuntime) -> anyhow::Result<()> {
    let mut text = Vec::new(rt.alloc());
    rt.stdin().read_to_end(&mut text)?;
    print_cards(&rt, text.as_slice())?;
    Ok(())
}
