// Reads cards from standard input and prints their account.
#![tactic(auto)]

use account::account::account;
use std::io::Read;

// The most that is looked at, bytes.
const MOST: usize = 65536;

fn main(rt: HostRuntime) -> anyhow::Result<()> {
    let heap = rt.alloc();
    let mut text = Vec::new(heap);
    rt.stdin().take(MOST as u64 + 1).read_to_end(&mut text)?;
    let mut cards = text.as_slice();
    if cards.len() > MOST {
        eprintln!(rt; "cards: only the first {MOST} bytes of the input are looked at")?;
        cards = &cards[0..MOST];
    }
    let lines = account(heap, cards)?;
    rt.print(lines.as_str())?;
    Ok(())
}
