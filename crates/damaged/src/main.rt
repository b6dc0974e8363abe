// Reads texts of cards from standard input, parted by the byte 0x1e, and prints the account of each, then a line `--`.
#![tactic(auto)]

use account::account::account;
use std::io::Read;

// Stands between two texts, and in none.
const SEPARATOR: u8 = 0x1e;

fn print_account(rt: &HostRuntime, text: &[u8]) -> anyhow::Result<()> {
    let lines = account(rt.alloc(), text)?;
    rt.print(lines.as_str())?;
    println!(rt; "--")?;
    Ok(())
}

// The account of each text. There is one more text than separators; any of them may be empty.
fn print_accounts(rt: &HostRuntime, texts: &[u8]) -> anyhow::Result<()> {
    for text in texts.split(|b| *b == SEPARATOR) {
        print_account(rt, text)?;
    }
    Ok(())
}

fn main(rt: HostRuntime) -> anyhow::Result<()> {
    let mut texts = Vec::new(rt.alloc());
    rt.stdin().read_to_end(&mut texts)?;
    print_accounts(&rt, texts.as_slice())
}
