// Decimal numbers, and lines of a keyword and numbers after tabs, written at the front of a slice. Each writer answers how many bytes it wrote:
// document 01 names this form.
#![tactic(auto)]

ghost use Rattle.std.specs.Prelude.{◌+◌, ◌<◌, ◌≤◌, suc, ◌≡◌, [], ◌∷◌, length};
ghost use Rattle.definitions.specs.Job.{decimal, TAB, write_line};
ghost use Rattle.text_model.specs.Numbers.{numeral, signed};
ghost use Rattle.text_model.specs.Writing.{Puts, Wrote, tabbed};

// How many digits n has.
pub fn digit_count(n: u64) -> usize
    ensures { (result ≡ length (numeral n)) × (result ≤ 20) }
{
    match n.checked_ilog10() {
        Some(k) => k as usize + 1,
        None => 1,
    }
}

// The digits of n, of which there are `count`, from the last to the first.
fn put_digits(n: u64, count: usize, out: &mut [u8])
    requires { (count ≡ length (numeral n)) × (count ≤ length out.old) }
    ensures { Puts (numeral n) out.old out.new }
{
    let mut m = n;
    for k in (0..count).rev() {
        out[k] = b'0' + (m % 10) as u8;
        m /= 10;
    }
}

fn put_natural(n: u64, out: &mut [u8]) -> usize
    requires { length (numeral n) ≤ length out.old }
    ensures { Wrote (numeral n) out.old out.new result }
{
    let count = digit_count(n);
    put_digits(n, count, out);
    count
}

// How many bytes z has, with its sign.
pub fn decimal_length(z: i64) -> usize
    ensures { (result ≡ length (decimal z)) × (result ≤ 21) }
{
    signed_length(z < 0, z.unsigned_abs())
}

fn signed_length(minus: bool, m: u64) -> usize
    ensures { (result ≡ length (signed minus m)) × (result ≤ 21) }
{
    let count = digit_count(m);
    if minus { count + 1 } else { count }
}

pub fn put_byte(b: u8, out: &mut [u8]) -> usize
    requires { 0 < length out.old }
    ensures { Wrote (b ∷ []) out.old out.new result }
{
    out[0] = b;
    1
}

fn put_signed(minus: bool, m: u64, out: &mut [u8]) -> usize
    requires { length (signed minus m) ≤ length out.old }
    ensures { Wrote (signed minus m) out.old out.new result }
{
    if minus {
        let a = put_byte(b'-', out);
        return a + put_natural(m, &mut out[a..]);
    }
    put_natural(m, out)
}

// z, with a minus where it is below 0.
pub fn put_decimal(z: i64, out: &mut [u8]) -> usize
    requires { length (decimal z) ≤ length out.old }
    ensures { Wrote (decimal z) out.old out.new result }
{
    put_signed(z < 0, z.unsigned_abs(), out)
}

// One by one: `copy_from_slice` calls C's memcpy, whose first call takes more stack than a call of ours may.
pub fn put_bytes(word: &[u8], out: &mut [u8]) -> usize
    requires { length word.now ≤ length out.old }
    ensures { Wrote word.now out.old out.new result }
{
    for i in 0..word.len() {
        out[i] = word[i];
    }
    word.len()
}

// A number, after its tab.
fn put_field(x: i64, out: &mut [u8]) -> usize
    requires { suc (length (decimal x)) ≤ length out.old }
    ensures { Wrote (TAB ∷ decimal x) out.old out.new result }
{
    let a = put_byte(b'\t', out);
    a + put_decimal(x, &mut out[a..])
}

fn put_fields(xs: &[i64], out: &mut [u8]) -> usize
    requires { length (tabbed xs.now) ≤ length out.old }
    ensures { Wrote (tabbed xs.now) out.old out.new result }
{
    let mut at = 0;
    for &x in xs {
        at += put_field(x, &mut out[at..]);
    }
    at
}

fn fields_length(xs: &[i64]) -> usize
    requires { length xs.now ≤ 16 }
    ensures { (result ≡ length (tabbed xs.now)) × (result ≤ 352) }
{
    let mut at = 0;
    for &x in xs {
        at += 1 + decimal_length(x);
    }
    at
}

pub fn put_line(word: &[u8], xs: &[i64], out: &mut [u8]) -> usize
    requires { length (write_line word.now xs.now) ≤ length out.old }
    ensures { Wrote (write_line word.now xs.now) out.old out.new result }
{
    let a = put_bytes(word, out);
    let b = a + put_fields(xs, &mut out[a..]);
    b + put_byte(b'\n', &mut out[b..])
}

pub fn line_length(word: &[u8], xs: &[i64]) -> usize
    requires { (length word.now ≤ 16) × (length xs.now ≤ 16) }
    ensures { (result ≡ length (write_line word.now xs.now)) × (result ≤ 369) }
{
    word.len() + fields_length(xs) + 1
}
