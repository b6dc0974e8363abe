// The lines of a card, whatever its keys.
ghost use Rattle.std.specs.Prelude.{◌≡◌, ℕ, ◌+◌, ◌^◌, ◌<◌, ◌≤◌, List, ◌∷◌, ◌++◌, length, take, drop, decimal, MatchOption, MatchResult, ◌≢◌};
ghost use Rattle.card.specs.Text.{Number, NoFeed, FirstLine, bytes_of, TookLine, FailsAt, Took, Refuses};
ghost use Rattle.card.specs.Kinds.{kind_line, NotKind};

use crate::fault::TextFault;

// The first line of `text`, without its line feed.
fn first_line(text: &[u8]) -> Option<&[u8]>
    ensures { MatchOption result (NoFeed text.now) (λ l. FirstLine text.now l.now (drop (length l.now + 1) text.now)) }
{
    let end = text.iter().position(|b| *b == b'\n')?;
    Some(&text[..end])
}

// The number that 1 to 8 digits without a leading zero write.
fn number(digits: &[u8]) -> Option<u32>
    ensures { MatchOption result (Number digits.now → ⊥) (λ v. Number digits.now × (v < 10 ^ 8) × (digits.now ≡ decimal v)) }
{
    if digits.is_empty() || digits.len() > 8 {
        return None;
    }
    if digits[0] == b'0' && digits.len() > 1 {
        return None;
    }
    let mut n = 0;
    for digit in digits {
        n = n * 10 + (*digit as char).to_digit(10)?;
    }
    Some(n)
}

// What follows the key and `=` on a line.
fn after_key<'a>(key: &[u8], line: &'a [u8]) -> Option<&'a [u8]>
    ensures { MatchOption result ((ds : List ℕ) → line.now ≢ key.now ++ (61 ∷ ds)) (λ x. line.now ≡ key.now ++ (61 ∷ x.now)) }
{
    line.strip_prefix(key)?.strip_prefix(b"=")
}

// The bytes of line 1, which has to name the kind of joint that has this letter.
pub(crate) fn read_kind(letter: u8, text: &[u8]) -> Result<usize, TextFault>
    ensures { MatchResult result (λ n. (n ≡ 8) × (text.now ≡ kind_line letter ++ drop n text.now)) (NotKind letter text.now) }
{
    let line = first_line(text).ok_or(TextFault::NoLineFeed(1))?;
    match after_key(b"joint", line) {
        Some([kind]) if *kind == letter => Ok(line.len() + 1),
        _ => Err(TextFault::NotJoint),
    }
}

// The value on line `at`, the first of `text`, and the bytes of that line, where `key` is due.
pub fn read_line(key: &[u8], text: &[u8], at: usize) -> Result<(u32, usize), TextFault>
    ensures { MatchResult result (λ p. TookLine key.now text.now p.0 p.1) (FailsAt at key.now text.now) }
{
    let line = first_line(text).ok_or(TextFault::NoLineFeed(at))?;
    let digits = after_key(key, line).ok_or(TextFault::NotKey(at))?;
    let value = number(digits).ok_or(TextFault::NotNumber(at))?;
    Ok((value, line.len() + 1))
}

// The values of the lines that the keys are due on, from line 2 on, and the bytes of those lines.
pub(crate) fn read_lines<const N: usize>(
    keys: &[&[u8]],
    text: &[u8],
) -> Result<([u32; N], usize), TextFault>
    requires { length keys.now ≡ N }
    ensures { MatchResult result (λ p. Took (bytes_of keys.now) text.now p.0 p.1) (Refuses (bytes_of keys.now) text.now) }
{
    let mut values = [0; N];
    let mut at = 0;
    for (i, key) in keys.iter().enumerate() {
        let (value, taken) = read_line(key, &text[at..], i + 2)?;
        values[i] = value;
        at += taken;
    }
    Ok((values, at))
}
