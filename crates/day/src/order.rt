// The orders of a script: what is to be done on a rail, in the form of a card's lines.
ghost use Rattle.std.specs.Prelude.{◌≡◌, IfOk};
ghost use Rattle.card.specs.Text.{TookLine};
ghost use Rattle.day.specs.Scripts.{word, Behind, TookOrder};

use card::fault::TextFault;
use card::joint_card::read_joint;
use card::kind::CardKind;
use card::lines::read_line;

#[derive(Clone, Copy)]
pub enum Order<R> {
    Hang(usize, R),
    Lift(usize),
    // hang back
    Back(usize, R),
    Scrap(usize),
    State(usize),
    Sheet(usize),
    Figure(usize, u32),
    Class(u32),
}

// What an order begins with.
#[derive(Clone, Copy)]
pub enum Verb {
    Hang,
    Lift,
    Back,
    Scrap,
    State,
    Sheet,
    Figure,
    Class,
}

const VERBS: [Verb; 8] = [
    Verb::Hang,
    Verb::Lift,
    Verb::Back,
    Verb::Scrap,
    Verb::State,
    Verb::Sheet,
    Verb::Figure,
    Verb::Class,
];

impl Verb {
    fn word(self) -> &'static [u8]
        ensures { result.now ≡ word self }
    {
        match self {
            Verb::Hang => b"hang",
            Verb::Lift => b"lift",
            Verb::Back => b"back",
            Verb::Scrap => b"scrap",
            Verb::State => b"state",
            Verb::Sheet => b"sheet",
            Verb::Figure => b"figure",
            Verb::Class => b"class",
        }
    }
}

// The verb of the first line, the number behind it, and the bytes of that line.
fn read_verb(text: &[u8]) -> Result<(Verb, u32, usize), TextFault>
    ensures { IfOk result (λ p. TookLine (word p.0) text.now p.1 p.2) }
{
    for verb in VERBS {
        match read_line(verb.word(), text, 1) {
            Ok((value, taken)) => return Ok((verb, value, taken)),
            Err(TextFault::NotKey(_)) => {}
            Err(fault) => return Err(fault),
        }
    }
    Err(TextFault::NotKey(1))
}

// The order whose first line has this verb and number, and the bytes that it takes behind that line.
fn read_behind<const N: usize, R: CardKind<N>>(
    verb: Verb,
    value: u32,
    text: &[u8],
) -> Result<(Order<R>, usize), TextFault>
    ensures { IfOk result (λ p. Behind R.CardKind verb value text.now p.0 p.1) }
{
    let place = value as usize;
    match verb {
        Verb::Hang => read_joint(text).map(|(card, n)| (Order::Hang(place, card), n)),
        Verb::Lift => Ok((Order::Lift(place), 0)),
        Verb::Back => read_joint(text).map(|(card, n)| (Order::Back(place, card), n)),
        Verb::Scrap => Ok((Order::Scrap(place), 0)),
        Verb::State => Ok((Order::State(place), 0)),
        Verb::Sheet => Ok((Order::Sheet(place), 0)),
        Verb::Figure => {
            read_line(b"mode", text, 2).map(|(mode, n)| (Order::Figure(place, mode), n))
        }
        Verb::Class => Ok((Order::Class(value), 0)),
    }
}

// The order at the front of a text, and the bytes that it takes.
pub fn read_order<const N: usize, R: CardKind<N>>(
    text: &[u8],
) -> Result<(Order<R>, usize), TextFault>
    ensures { IfOk result (λ p. TookOrder R.CardKind text.now p.0 p.1) }
{
    let (verb, value, line) = read_verb(text)?;
    let (order, behind) = read_behind(verb, value, &text[line..])?;
    Ok((order, line + behind))
}
