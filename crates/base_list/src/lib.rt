// Stored lists: cases, each a line of two to four numbers, the first of which says how many bytes follow it.
#![tactic(auto)]

ghost use Rattle.std.specs.Prelude.{◌≡◌, ◌+◌, ◌^◌, ◌<◌, length, IfSome};
ghost use Rattle.base_list.specs.Headers.{is_header, is_limited, header_of, header_at, header_in, Inside, Within};

use base_text::LineNumbers;

/// Where the bytes of a case begin and end in the list, and the other numbers of its header, 0 where there is no third or fourth.
#[derive(Clone, Copy)]
pub struct Header {
    pub begin: usize,
    pub end: usize,
    pub second: usize,
    pub third: usize,
    pub fourth: usize,
}

/// How many numbers the headers of a list have, and the most that those after the first are.
#[derive(Clone, Copy)]
pub struct Limits {
    pub least: usize,
    pub most: usize,
    pub second: usize,
    pub third: usize,
    pub fourth: usize,
}

// The bytes of a case come after the header's LF, which stands at `feed`, so many bytes before the list's end.
#[tactic(auto, unfolding(crate::specs::Headers::header_of))]
fn header_of(feed: usize, left: usize, numbers: LineNumbers) -> Option<Header>
    requires { feed + left < 2 ^ 64 }
    ensures is { result ≡ header_of feed left numbers }
    ensures inside { IfSome result (Inside feed (feed + left)) }
{
    let bytes = numbers.magnitude[0] as usize;
    if left <= bytes {
        return None;
    }
    let begin = feed + 1;
    Some(Header {
        begin,
        end: begin + bytes,
        second: numbers.magnitude[1] as usize,
        third: numbers.magnitude[2] as usize,
        fourth: numbers.magnitude[3] as usize,
    })
}

// So many numbers, none below 0.
fn is_header(n: LineNumbers, limits: Limits) -> bool
    ensures { result ≡ is_header limits n }
{
    let below = n.negative[0] | n.negative[1] | n.negative[2] | n.negative[3];
    n.ok & (limits.least <= n.count) & (n.count <= limits.most) & !below
}

#[tactic(auto, using(crate::proofs::HeaderIs::header_yes, crate::proofs::HeaderIs::header_none))]
fn header_at(list: &[u8], from: usize, limits: Limits) -> Option<Header>
    requires { from < length list.now }
    ensures is { result ≡ header_at limits list.now from }
    ensures inside { IfSome result (Inside from (length list.now)) }
{
    let feed = base_text::line_end(list, from);
    let n = base_text::read_numbers(&list[from..feed]);
    if is_header(n, limits) {
        header_of(feed, list.len() - feed, n)
    } else {
        None
    }
}

fn is_limited(h: Header, limits: Limits) -> bool
    ensures { result ≡ is_limited limits h }
{
    (h.second <= limits.second) & (h.third <= limits.third) & (h.fourth <= limits.fourth)
}

/// The header that begins at `from`.
#[tactic(auto, unfolding(crate::specs::Headers::header_in))]
pub fn read_header(list: &[u8], from: usize, limits: Limits) -> Option<Header>
    requires { from < length list.now }
    ensures is { result ≡ header_in limits list.now from }
    ensures within { IfSome result (Within from (length list.now) limits) }
{
    let h = header_at(list, from, limits)?;
    if is_limited(h, limits) { Some(h) } else { None }
}
