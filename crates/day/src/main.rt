// A day on the rail: orders from standard input, carried out on a rail of each kind, and an account of every call.
#![tactic(auto)]

mod desk;
mod desks;
mod order;
mod print;

use anyhow::{anyhow, ensure};
use desk::{Closed, Desk};
use desks::{DayRail, Desks};
use joint::kind::Kind;
use places::place::Place;
use rail::audit::Standing;
use rail::rail::Rail;
use rail::replay::replay_log;
use std::io;
use std::io::Read;

// How many places each rail of the day has.
const PLACES: usize = 512;

// How a rail stands at the end of the day, with the calls that ended it.
fn report<R>(rt: &HostRuntime, rail: DayRail, closed: &Closed<R>) -> io::Result<()> {
    println!(rt; "end of day, rail {rail}")?;
    for entry in closed.log.iter().skip(closed.ended) {
        println!(rt; "{entry}")?;
    }
    let count = closed.log.len();
    let Standing { hanging, lifted } = closed.standing;
    println!(rt; "{count} calls, {hanging} hanging, {lifted} lifted")
}

// Replays the day from its log: the same answers, and as many places hanging and lifted.
fn check_day<K: Kind>(
    rt: &HostRuntime,
    rail: DayRail,
    places: &mut [Place<K>],
    closed: &Closed<K::Joint>,
) -> anyhow::Result<()>
where
    K::Joint: PartialEq,
{
    let replayed = replay_log(rt.alloc(), rail.number(), places, closed.log.as_slice());
    let Ok(answers) = replayed else {
        return Err(anyhow!("day: no memory to replay the day"));
    };
    let answered = closed.log.iter().map(|entry| &entry.answer);
    ensure!(
        answers.iter().eq(answered) && Standing::of(places) == closed.standing,
        "day: the replay of the day differs from its log"
    );
    println!(rt; "the replay agrees")?;
    Ok(())
}

// The end of the day on one of its rails.
fn end<K: Kind>(
    rt: &HostRuntime,
    rail: DayRail,
    places: &mut [Place<K>],
    closed: &Closed<K::Joint>,
) -> anyhow::Result<()>
where
    K::Joint: PartialEq,
{
    report(rt, rail, closed)?;
    check_day(rt, rail, places, closed)
}

// The day begins with header plates.
fn day(rt: &HostRuntime, text: &[u8]) -> anyhow::Result<()> {
    let heap = rt.alloc();
    let mut header_places = vec![in heap; Place::Empty; PLACES]?;
    let mut fin_places = vec![in heap; Place::Empty; PLACES]?;
    let header_rail = Rail::open(DayRail::Header.number(), header_places.as_mut_slice());
    let fin_rail = Rail::open(DayRail::Fin.number(), fin_places.as_mut_slice());
    let (Ok(header_rail), Ok(fin_rail)) = (header_rail, fin_rail) else {
        unreachable()
    };
    let mut desks = Desks {
        headers: Desk::new(heap, header_rail),
        fins: Desk::new(heap, fin_rail),
        current: DayRail::Header,
    };
    let worked = desks.work(rt, text);
    let Desks {
        headers,
        fins,
        current: _,
    } = desks;
    let headers = headers.close();
    let fins = fins.close();
    worked?;
    let headers = headers?;
    let fins = fins?;
    end(rt, DayRail::Header, header_places.as_mut_slice(), &headers)?;
    end(rt, DayRail::Fin, fin_places.as_mut_slice(), &fins)
}

fn main(rt: HostRuntime) -> anyhow::Result<()> {
    let mut text = Vec::new(rt.alloc());
    rt.stdin().read_to_end(&mut text)?;
    day(&rt, text.as_slice())
}
