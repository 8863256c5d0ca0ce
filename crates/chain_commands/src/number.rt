// The number that the input asks for.
ghost use Rattle.std.specs.Prelude.{◌≡◌, Some, ◌<◌, ◌≤◌, IfSome, length, take};
ghost use Rattle.chain_commands.specs.Asked as def;
ghost use Rattle.chain_commands.specs.Parse.{before_newline, more, value};

// What stands before a last newline.
fn before_newline(text: &[u8]) -> &[u8]
    ensures value { result.now ≡ take (before_newline text.now) text.now }
    ensures upper_bound { length result.now ≤ length text.now }
{
    text.strip_suffix(b"\n").unwrap_or(text)
}

// v with one more digit behind it: none where b is no digit, and from the fourth digit on.
fn more(v: u16, b: u8) -> Option<u16>
    ensures { result ≡ more (Some v) b }
{
    match b {
        b'0'..=b'9' if v <= 99 => Some(v * 10 + u16::from(b - b'0')),
        _ => None,
    }
}

// The number that digits are: none where one is none, or where there are more than three behind any noughts.
fn value(text: &[u8]) -> Option<u16>
    ensures { result ≡ value (Some 0) text.now }
{
    let mut v = 0;
    for &b in text {
        v = more(v, b)?;
    }
    Some(v)
}

// The number that the input is, in base ten from 1 to 512 without leading noughts, with at most a newline behind it.
pub fn asked(input: &[u8]) -> Option<u16>
    ensures value { result ≡ def.asked input.now }
    ensures upper_bound { IfSome result (λ n. (0 < n) × (n ≤ 512)) }
{
    let text = before_newline(input);
    match text.first() {
        Some(&first) if b'1' <= first => value(text).filter(|&n| n <= 512),
        _ => None,
    }
}
