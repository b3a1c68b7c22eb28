// Snapping through the code. P9 to P11 and four halves are checked by `expect`, so they are proved of the code too. Then each pattern below is snapped at
// seven scales, two of them not allowed, and a line is written: the pattern, the scale, the number of the answer (0 for done) and the whole number. The
// file stdout was made with exact fractions.
#![tactic(auto)]

ghost use Rattle.std.specs.Prelude.{◌≡◌};
ghost use Rattle.snap_call.specs.Answer.{snap_to_answer};
ghost use Rattle.snap_examples.specs.Seen.{number_of, whole_of};

use snap_call::SnapRefusal;
use std::num::f64_from_bits_with_nan;

// the file descriptor of standard output
const STDOUT_FILENO: i32 = 1;

// the number of an answer, 0 for done
fn number(answer: Result<(), SnapRefusal>) -> u32
    ensures { result ≡ number_of (snap_to_answer answer) }
{
    match answer {
        Ok(()) => 0,
        Err(why) => why.number(),
    }
}

// What is seen of a call: the number of its answer, and the first coordinate.
#[derive(Clone, Copy)]
pub struct Seen {
    pub number: u32,
    pub whole: i64,
}

// Three points of the same share.
#[tactic(auto, using(crate::specs::Seen::first_is), unfolding(crate::specs::Seen::whole_of))]
fn snapped(share: f64, scale: u32) -> Seen
    ensures { result.whole ≡ whole_of share scale }
{
    let shares = [share; 6];
    let mut coordinates = [0i64; 9];
    let answer = snap_call::snap_points(3, &shares, scale, &mut coordinates);
    Seen {
        number: number(answer),
        whole: coordinates[0],
    }
}

// P9, P10 and P11.
fn paper() {
    let half = snapped(0.5, 4);
    check::expect(half.whole == 8);
    let minus_zero = snapped(-0.0, 4);
    check::expect(minus_zero.whole == 0);
    let below_zero = snapped(-5e-324, 4);
    check::expect(below_zero.whole == 0);
    let two = snapped(2.0, 24);
    check::expect(two.whole == 33554432);
}

// At scale 4 these are 2.5 and 3.5 of either sign: halves go to the even number.
fn halves() {
    let between_2_and_3 = snapped(0.15625, 4);
    check::expect(between_2_and_3.whole == 2);
    let between_3_and_4 = snapped(0.21875, 4);
    check::expect(between_3_and_4.whole == 4);
    let below_minus_2 = snapped(-0.15625, 4);
    check::expect(below_minus_2.whole == -2);
    let below_minus_3 = snapped(-0.21875, 4);
    check::expect(below_minus_3.whole == -4);
}

// Zeros; least and largest subnormals; the least normal numbers; powers of two from -30 to 0, 2, and the neighbours of each; what is halfway between two
// steps at scale 4, 16, 20 or 24, and its neighbours; a few others inside and outside; the largest; infinities; no numbers. Each with both signs.
const PATTERNS: [u64; 146] = [
    0x0000000000000000,
    0x8000000000000000,
    0x0000000000000001,
    0x8000000000000001,
    0x0000000000000002,
    0x8000000000000002,
    0x000fffffffffffff,
    0x800fffffffffffff,
    0x0010000000000000,
    0x8010000000000000,
    0x0010000000000001,
    0x8010000000000001,
    0x3e0fffffffffffff,
    0xbe0fffffffffffff,
    0x3e10000000000000,
    0xbe10000000000000,
    0x3e10000000000001,
    0xbe10000000000001,
    0x3e5fffffffffffff,
    0xbe5fffffffffffff,
    0x3e60000000000000,
    0xbe60000000000000,
    0x3e60000000000001,
    0xbe60000000000001,
    0x3e6fffffffffffff,
    0xbe6fffffffffffff,
    0x3e70000000000000,
    0xbe70000000000000,
    0x3e70000000000001,
    0xbe70000000000001,
    0x3edfffffffffffff,
    0xbedfffffffffffff,
    0x3ee0000000000000,
    0xbee0000000000000,
    0x3ee0000000000001,
    0xbee0000000000001,
    0x3eefffffffffffff,
    0xbeefffffffffffff,
    0x3ef0000000000000,
    0xbef0000000000000,
    0x3ef0000000000001,
    0xbef0000000000001,
    0x3f9fffffffffffff,
    0xbf9fffffffffffff,
    0x3fa0000000000000,
    0xbfa0000000000000,
    0x3fa0000000000001,
    0xbfa0000000000001,
    0x3fafffffffffffff,
    0xbfafffffffffffff,
    0x3fb0000000000000,
    0xbfb0000000000000,
    0x3fb0000000000001,
    0xbfb0000000000001,
    0x3fdfffffffffffff,
    0xbfdfffffffffffff,
    0x3fe0000000000000,
    0xbfe0000000000000,
    0x3fe0000000000001,
    0xbfe0000000000001,
    0x3fefffffffffffff,
    0xbfefffffffffffff,
    0x3ff0000000000000,
    0xbff0000000000000,
    0x3ff0000000000001,
    0xbff0000000000001,
    0x3fffffffffffffff,
    0xbfffffffffffffff,
    0x4000000000000000,
    0xc000000000000000,
    0x4000000000000001,
    0xc000000000000001,
    0x3fb7ffffffffffff,
    0xbfb7ffffffffffff,
    0x3fb8000000000000,
    0xbfb8000000000000,
    0x3fb8000000000001,
    0xbfb8000000000001,
    0x3fc3ffffffffffff,
    0xbfc3ffffffffffff,
    0x3fc4000000000000,
    0xbfc4000000000000,
    0x3fc4000000000001,
    0xbfc4000000000001,
    0x3fcbffffffffffff,
    0xbfcbffffffffffff,
    0x3fcc000000000000,
    0xbfcc000000000000,
    0x3fcc000000000001,
    0xbfcc000000000001,
    0x3ff00007ffffffff,
    0xbff00007ffffffff,
    0x3ff0000800000000,
    0xbff0000800000000,
    0x3ff0000800000001,
    0xbff0000800000001,
    0x3ff00017ffffffff,
    0xbff00017ffffffff,
    0x3ff0001800000000,
    0xbff0001800000000,
    0x3ff0001800000001,
    0xbff0001800000001,
    0x3ff000007fffffff,
    0xbff000007fffffff,
    0x3ff0000080000000,
    0xbff0000080000000,
    0x3ff0000080000001,
    0xbff0000080000001,
    0x3ff000017fffffff,
    0xbff000017fffffff,
    0x3ff0000180000000,
    0xbff0000180000000,
    0x3ff0000180000001,
    0xbff0000180000001,
    0x3ff0000007ffffff,
    0xbff0000007ffffff,
    0x3ff0000008000000,
    0xbff0000008000000,
    0x3ff0000008000001,
    0xbff0000008000001,
    0x3ff0000017ffffff,
    0xbff0000017ffffff,
    0x3ff0000018000000,
    0xbff0000018000000,
    0x3ff0000018000001,
    0xbff0000018000001,
    0x3fb999999999999a,
    0xbfb999999999999a,
    0x3fd5555555555555,
    0xbfd5555555555555,
    0x3ffc000000000000,
    0xbffc000000000000,
    0x4004000000000000,
    0xc004000000000000,
    0x7e37e43c8800759c,
    0xfe37e43c8800759c,
    0x7fefffffffffffff,
    0xffefffffffffffff,
    0x7ff0000000000000,
    0xfff0000000000000,
    0x7ff0000000000001,
    0xfff0000000000001,
    0x7ff8000000000000,
    0xfff8000000000000,
    0x7fffffffffffffff,
    0xffffffffffffffff,
];

fn space() {
    io::write_all(STDOUT_FILENO, b" ");
}

// By the calls of io: println! would rest on more of the operating system.
fn print(bits: u64, scale: u32, seen: Seen) {
    io::print_hex(STDOUT_FILENO, bits, 16);
    space();
    io::print_decimal(STDOUT_FILENO, u64::from(scale));
    space();
    io::print_decimal(STDOUT_FILENO, u64::from(seen.number));
    space();
    if seen.whole < 0 {
        io::write_all(STDOUT_FILENO, b"-");
    }
    io::print_decimal(STDOUT_FILENO, seen.whole.unsigned_abs());
    io::write_all(STDOUT_FILENO, b"\n");
}

fn main() {
    paper();
    halves();
    for scale in [0, 4, 16, 23, 24, 25, 3] {
        for bits in PATTERNS {
            print(bits, scale, snapped(f64_from_bits_with_nan(bits), scale));
        }
    }
}
