// The desks of a day, one for each rail, and the one that orders are for.
ghost use Rattle.std.specs.Prelude.{◌≡◌, ◌<◌, ◌≤◌, length, Some, IfSome, IfOk, OnOk};
ghost use Rattle.day.specs.DayRails.{rail_number, RailNumbered, BothWent};
ghost use Rattle.day.specs.Desks.{Went};
ghost use Rattle.day.specs.Printed.{rail_text, no_rail_text};

use crate::desk::Desk;
use crate::order::read_order;
use crate::print::FaultText;
use card::fault::TextFault;
use card::kind::CardKind;
use card::lines::read_line;
use fin::fin::Fin;
use header::header::Header;
use joint::kind::Kind;
use std::fmt;

// The rails of the day, by the numbers that a script names them with.
#[derive(Clone, Copy, PartialEq, Eq, Debug)]
pub enum DayRail {
    Header,
    Fin,
}

impl DayRail {
    pub fn number(self) -> u32
        ensures { result ≡ rail_number self }
    {
        match self {
            DayRail::Header => 1,
            DayRail::Fin => 2,
        }
    }
}

// No rail of the day has this number.
#[derive(Clone, Copy, PartialEq, Eq, Debug)]
pub struct NoRail(pub u32);

impl TryFrom<u32> for DayRail {
    type Error = NoRail;

    ghost try_from_gives = { RailNumbered };

    fn try_from(number: u32) -> Result<DayRail, NoRail> {
        match number {
            1 => Ok(DayRail::Header),
            2 => Ok(DayRail::Fin),
            _ => Err(NoRail(number)),
        }
    }
}

impl fmt::Display for DayRail {
    ghost output = { λ r. Some (rail_text r) };

    fn fmt<W: fmt::Write>(&self, f: &mut fmt::Formatter<W>) -> fmt::Result {
        write!(f, "{}", self.number())
    }
}

impl fmt::Display for NoRail {
    ghost output = { λ _. Some no_rail_text };

    fn fmt<W: fmt::Write>(&self, f: &mut fmt::Formatter<W>) -> fmt::Result {
        write!(f, "there is no such rail")
    }
}

pub struct Desks<'a> {
    pub headers: Desk<'a, Header>,
    pub fins: Desk<'a, Fin>,
    // the rail that orders are for
    pub current: DayRail,
}

// Carries out the order at the front of the text. The bytes that it took, or nothing where the text is refused.
fn next_order<const N: usize, K: Kind>(
    rt: &HostRuntime,
    desk: &mut Desk<'_, K>,
    text: &[u8],
) -> anyhow::Result<Option<usize>>
where
    K::Joint: CardKind<N>,
    ensures took { IfOk result (λ o. IfSome o (λ n. (0 < n) × (n ≤ length text.now))) }
    ensures stretch { OnOk result (Went K.Kind desk.old desk.new) }
{
    match read_order::<N, K::Joint>(text) {
        Ok((order, taken)) => {
            let outcome = desk.carry_out(order)?;
            println!(rt; "{outcome}")?;
            Ok(Some(taken))
        }
        Err(fault) => {
            println!(rt; "{}", FaultText(fault.code()))?;
            Ok(None)
        }
    }
}

impl Desks<'_> {
    // Carries out the first line of the text: `rail=` names the rail that the orders behind it are for.
    // The bytes that it took, or nothing at the end of the text, or where it is refused, which ends the day.
    fn step(&mut self, rt: &HostRuntime, text: &[u8]) -> anyhow::Result<Option<usize>>
        ensures took { IfOk result (λ o. IfSome o (λ n. (0 < n) × (n ≤ length text.now))) }
        ensures stretch { OnOk result (BothWent self.old self.new) }
    {
        if text.is_empty() {
            return Ok(None);
        }
        match read_line(b"rail", text, 1) {
            Ok((number, taken)) => {
                println!(rt; "rail {number}")?;
                match DayRail::try_from(number) {
                    Ok(rail) => self.current = rail,
                    Err(none) => println!(rt; "{none}")?,
                }
                Ok(Some(taken))
            }
            Err(TextFault::NotKey(_)) => match self.current {
                DayRail::Header => next_order(rt, &mut self.headers, text),
                DayRail::Fin => next_order(rt, &mut self.fins, text),
            },
            Err(fault) => {
                println!(rt; "{}", FaultText(fault.code()))?;
                Ok(None)
            }
        }
    }

    // The lines in turn, up to the end of the text or its first fault.
    pub fn work(&mut self, rt: &HostRuntime, text: &[u8]) -> anyhow::Result<()>
        ensures { OnOk result (BothWent self.old self.new) }
    {
        let mut rest = text;
        while let Some(taken) = self.step(rt, rest)? {
            rest = &rest[taken..];
        }
        Ok(())
    }
}
