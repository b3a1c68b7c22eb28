// The job text, read from bytes: decimal numbers from a slice that holds one field; fields; and the three layouts of a line, which is given without its LF.
#![tactic(auto)]

ghost use Rattle.std.specs.Prelude.{◌≡◌, ◌==◌, position, ◌<◌, ◌≤◌, ℕ, suc, take, drop, length, MatchOption};
ghost use Rattle.std.proofs.Math.Option.{none, some};
ghost use Rattle.definitions.specs.Job.{LF, natural_to, vertex_field, weight_field, fields, head_line, triangle_line, weight_line, read_line};
ghost use Rattle.text_model.specs.Scan.{scan};
ghost use Rattle.text_model.specs.Positions.{index_of};
ghost use Rattle.text_model.specs.Layouts.{corners_of};
ghost use Rattle.text_model.specs.Reading.{line_of};
ghost use Rattle.text_parse.specs.Answer.{option_of};
ghost use Rattle.text_parse.specs.LineSteps.{after_word};

// Digits, the number being at most `most`.
fn digits_to(s: &[u8], most: u32) -> Option<u32>
    ensures { option_of result ≡ scan most 0 s.now }
{
    let mut v = 0;
    for &b in s {
        if b < b'0' || b'9' < b {
            return None;
        }
        v = 10 * v + u64::from(b - b'0');
        if u64::from(most) < v {
            return None;
        }
    }
    Some(v as u32)
}

// Digits with no leading zero.
pub fn natural_to(s: &[u8], most: u32) -> Option<u32>
    ensures { option_of result ≡ natural_to most s.now }
{
    if s.is_empty() || (s.len() > 1 && s[0] == b'0') {
        return None;
    }
    digits_to(s, most)
}

// A vertex: 0..65535.
pub fn read_vertex(s: &[u8]) -> Option<u16>
    ensures { option_of result ≡ vertex_field s.now }
{
    let k = natural_to(s, 65_535)?;
    Some(k as u16)
}

// A weight: -2147483648..2147483647, and no -0.
pub fn read_weight(s: &[u8]) -> Option<i64>
    ensures { option_of result ≡ weight_field s.now }
{
    match s.strip_prefix(b"-") {
        Some(digits) => {
            let k = natural_to(digits, 2_147_483_648)?;
            if k == 0 { None } else { Some(-i64::from(k)) }
        }
        None => {
            let k = natural_to(s, 2_147_483_647)?;
            Some(i64::from(k))
        }
    }
}

// The fixed bytes that begin a job text and a listing.
pub const PACK_MAP: [u8; 8] = *b"pack-map";

// The first bytes, at most `count` of them.
pub fn front(s: &[u8], count: usize) -> &[u8]
    ensures { result.now ≡ take count s.now }
{
    &s[..count.min(s.len())]
}

// The place of the first b. By `place_or_length` it is `index_of`, which is the length where there is none.
pub fn find(s: &[u8], b: u8) -> Option<usize>
    ensures { result ≡ position (λ x. x == b) s.now }
{
    s.iter().position(|&x| x == b)
}

// The bytes before the first b, and those after it.
pub fn split_once(s: &[u8], b: u8) -> Option<(&[u8], &[u8])>
    ensures { let k = index_of b s.now in MatchOption result (length s.now ≤ k)
        (λ p. (k < length s.now) × (p.0.now ≡ take k s.now) × (p.1.now ≡ drop (suc k) s.now)) }
{
    let k = find(s, b)?;
    Some((front(s, k), &s[k + 1..]))
}

// What follows the first field, where that is the word.
fn after_word<'a>(line: &'a [u8], word: &[u8]) -> Option<&'a [u8]>
    ensures { MatchOption result (after_word word.now line.now ≡ none) (λ rest. after_word word.now line.now ≡ some rest.now) }
{
    let (first, rest) = split_once(line, b'\t')?;
    if first == word { Some(rest) } else { None }
}

// The first line: the fixed bytes, and then a number.
pub fn read_head(line: &[u8]) -> Option<u16>
    ensures { option_of result ≡ head_line (fields line.now) }
{
    read_vertex(after_word(line, &PACK_MAP)?)
}

// Three vertices.
fn corners(rest: &[u8]) -> Option<[u16; 3]>
    ensures { option_of result ≡ corners_of (fields rest.now) }
{
    let (a, rest) = split_once(rest, b'\t')?;
    let (b, c) = split_once(rest, b'\t')?;
    Some([read_vertex(a)?, read_vertex(b)?, read_vertex(c)?])
}

// A triangle's line: its word, and then its corners, in their order.
pub fn read_triangle(line: &[u8]) -> Option<[u16; 3]>
    ensures { option_of result ≡ triangle_line (fields line.now) }
{
    corners(after_word(line, b"t")?)
}

// A weight's line.
pub fn read_weighing(line: &[u8]) -> Option<i64>
    ensures { option_of result ≡ weight_line (fields line.now) }
{
    read_weight(after_word(line, b"w")?)
}

// The first line of a text. A text with no LF has no line.
fn first_line(text: &[u8]) -> Option<&[u8]>
    ensures { let k = index_of LF text.now in MatchOption result (length text.now ≤ k)
        (λ line. (k < length text.now) × (line.now ≡ take k text.now)) }
{
    let (line, _) = split_once(text, b'\n')?;
    Some(line)
}

// What the first line of a text holds, by each layout.
pub fn head_at(rest: &[u8]) -> Option<u16>
    ensures { (l : ℕ) → line_of (option_of result) l rest.now ≡ read_line head_line l rest.now }
{
    read_head(first_line(rest)?)
}

pub fn triangle_at(rest: &[u8]) -> Option<[u16; 3]>
    ensures { (l : ℕ) → line_of (option_of result) l rest.now ≡ read_line triangle_line l rest.now }
{
    read_triangle(first_line(rest)?)
}

pub fn weight_at(rest: &[u8]) -> Option<i64>
    ensures { (l : ℕ) → line_of (option_of result) l rest.now ≡ read_line weight_line l rest.now }
{
    read_weighing(first_line(rest)?)
}
