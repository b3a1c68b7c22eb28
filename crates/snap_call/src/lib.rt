// Snapping of drawn points, the public call on a list. The shares are looked at in order first, and then every point is written.
#![tactic(auto)]

ghost use Rattle.std.specs.Prelude.{◌≡◌, true, [], ◌∷◌, ◌+◌, ◌*◌, ◌/◌, ◌%◌, ◌^◌, ◌≤◌, ◌<◌, leb, length, get_or, pos, nat_abs, ◌-ℤ◌};
ghost use Rattle.std.specs.Float.{nan, binary64};
ghost use Rattle.std.specs.Float.Ieee.{top, hid};
ghost use Rattle.std.proofs.lemmas.List.Edits.{sets};
ghost use Rattle.definitions.specs.Answers.{done, number};
ghost use Rattle.definitions.specs.DrawnPoints as Drawn;
ghost use Rattle.definitions.specs.Refusals.{snap_call};
ghost use Rattle.snap_model.specs.Bits.{units};
ghost use Rattle.snap_model.specs.Share as Share;
ghost use Rattle.snap_model.specs.Points.{new};
ghost use Rattle.snap_model.specs.Looking.{shares_answer};
ghost use Rattle.snap_call.specs.Answer.{snap_to_refusal, snap_to_answer, of_size};

use lent_slices::{Contents, SizeRefusal};

// Why a list of points is refused: the rows of the table of refusals by name, the last with the share itself.
#[derive(Clone, Copy, Debug, PartialEq)]
pub enum SnapRefusal {
    VertexCount,
    SliceLength,
    Scale,
    NotFinite,
    Outside(f64),
}

impl SnapRefusal {
    // the number of the row
    pub fn number(self) -> u32
        ensures { result ≡ number (snap_to_refusal self) }
    {
        match self {
            SnapRefusal::VertexCount => 1,
            SnapRefusal::SliceLength => 2,
            SnapRefusal::Scale => 14,
            SnapRefusal::NotFinite => 15,
            SnapRefusal::Outside(_) => 16,
        }
    }
}

impl From<SizeRefusal> for SnapRefusal {
    ghost from_gives = { λ size why. why ≡ of_size size };

    fn from(size: SizeRefusal) -> SnapRefusal {
        match size {
            SizeRefusal::VertexCount => SnapRefusal::VertexCount,
            SizeRefusal::SliceLength => SnapRefusal::SliceLength,
        }
    }
}

// What scale 0 stands for.
const USUAL_SCALE: u32 = 20;

#[tactic(auto, using(crate::specs::ShareCases::scale_zero, crate::specs::ShareCases::scale_other))]
fn exact_scale(scale: u32) -> u32
    ensures { result ≡ Drawn.effective_scale Drawn.default_scale scale }
{
    if scale == 0 { USUAL_SCALE } else { scale }
}

#[tactic(auto, unfolding(definitions::specs::DrawnPoints::scale_allowed))]
fn scale_allowed(scale: u32) -> bool
    ensures { result ≡ Drawn.scale_allowed scale }
{
    scale == 0 || (4..=24).contains(&scale)
}

// ± a, negative where the bool is true.
fn with_sign(negative: bool, a: u64) -> i64
    requires { a < 2 ^ 53 }
    ensures { result ≡ Drawn.signed negative a }
{
    let size = a as i64;
    if negative { -size } else { size }
}

// The whole number nearest to a / 2 ^ d, halves to the even one: just under a half is added, or a whole half where the whole part is odd, and the rest is
// shifted out.
#[tactic(auto, using(crate::specs::ShareCases::nearest_shifted, crate::specs::ShareCases::nearest_fits))]
fn nearest(a: u64, d: u64) -> u64
    requires { (0 < d) × (d < 54) × (a < 2 ^ 53) }
    ensures value { result ≡ Drawn.nearest a (2 ^ d) }
    ensures small { result < 2 ^ 53 }
{
    let half = 1 << (d - 1);
    (a + (half - 1 + (a >> d) % 2)) >> d
}

// The bit of an f64's sign, above its exponent's field and its digits.
const SIGN: u64 = 0x8000_0000_0000_0000;

// The leading digit of an f64, which its bits leave out, and the weight of its exponent's field.
const LEADING: u64 = 0x10_0000_0000_0000;

// The whole number of the f64 with these bits, from -2 to 2, at an exact scale r. Its digits, the leading one with them, count 2 ^ (field - 1075). Where
// field and scale are small it is less than a half; so is every f64 without a leading digit, whose field is 0.
#[tactic(auto, using(crate::specs::ShareCases::bits_none, crate::specs::ShareCases::bits_some))]
fn snap_bits(bits: u64, r: u64) -> i64
    requires { (r ≤ 24) × (bits % top binary64 / hid binary64 ≤ 1024) }
    ensures { result ≡ Drawn.signed (leb (top binary64) bits) (Drawn.nearest (units bits * 2 ^ r) (2 ^ 1074)) }
{
    let field = bits % SIGN / LEADING;
    if field + r < 1022 {
        return 0;
    }
    let size = nearest(LEADING + bits % LEADING, 1075 - field - r);
    with_sign(bits >= SIGN, size)
}

// Whether a share is from -2 to 2.
fn inside(share: f64) -> bool
    ensures { result ≡ Share.inside share }
{
    -2.0 <= share && share <= 2.0
}

// Why a share that is not from -2 to 2 is refused: 15 goes before 16.
#[tactic(auto, using(crate::specs::ShareCases::refusals))]
fn refuse(share: f64) -> SnapRefusal
    ensures { snap_to_refusal result ≡ Share.refusal share }
{
    if share.is_finite() {
        SnapRefusal::Outside(share)
    } else {
        SnapRefusal::NotFinite
    }
}

// Looks at the shares in order and writes nothing.
#[tactic(auto, using(crate::specs::LoopLaws::looked_more, crate::specs::LoopLaws::looked_stop, crate::specs::LoopLaws::looked_all))]
fn find_refusal(shares: &[f64]) -> Result<(), SnapRefusal>
    ensures { snap_to_answer result ≡ shares_answer shares.now }
{
    for &share in shares {
        if !inside(share) {
            return Err(refuse(share));
        }
    }
    Ok(())
}

// The whole number of a share from -2 to 2, at an exact scale r.
#[tactic(auto, using(crate::specs::ShareCases::passing))]
fn snap_share(share: f64, r: u32) -> i64
    requires { (r ≤ 24) × (Share.inside share ≡ true) }
    ensures { Drawn.snap r share ≡ Drawn.whole result }
{
    snap_bits(share.to_bits(), u64::from(r))
}

// The third coordinate, from the exact scale r and the first two.
fn third_coordinate(kx: i64, ky: i64, r: u32) -> i64
    requires { (nat_abs kx ≤ 2 ^ 25) × (nat_abs ky ≤ 2 ^ 25) × (r ≤ 24) }
    ensures { result ≡ pos (2 ^ r) -ℤ kx -ℤ ky }
{
    (1 << r) - kx - ky
}

// A drawn point: the share x of v0, and the share y of v1.
#[derive(Clone, Copy)]
pub struct Point {
    pub x: f64,
    pub y: f64,
}

// The point i of a list: two shares to a point, x before y.
fn point_at(shares: &[f64], i: usize) -> Point
    requires { 2 * i + 1 < length shares.now }
    ensures { (result.x ≡ get_or shares.now (2 * i) nan) × (result.y ≡ get_or shares.now (2 * i + 1) nan) }
{
    Point {
        x: shares[2 * i],
        y: shares[2 * i + 1],
    }
}

// Writes the three coordinates of a point whose shares are from -2 to 2.
#[tactic(auto, using(crate::specs::LoopLaws::storing))]
fn write_point(point: Point, r: u32, coordinates: &mut [i64], at: usize)
    requires { (r ≤ 24) × (at + 3 ≤ length coordinates.old) × (Share.inside point.x ≡ true) × (Share.inside point.y ≡ true) }
    ensures { coordinates.new ≡ sets coordinates.old at (new (Drawn.snap_all r (point.x ∷ point.y ∷ []))) }
{
    let kx = snap_share(point.x, r);
    let ky = snap_share(point.y, r);
    coordinates[at] = kx;
    coordinates[at + 1] = ky;
    coordinates[at + 2] = third_coordinate(kx, ky, r);
}

// Writes the coordinates of points of which none is refused.
fn write_points(n: usize, shares: &[f64], r: u32, coordinates: &mut [i64])
    requires { (r ≤ 24) × (length shares.now ≡ 2 * n) × (length coordinates.old ≡ 3 * n)
        × (shares_answer shares.now ≡ done tt) }
    ensures { coordinates.new ≡ new (Drawn.snap_all r shares.now) }
{
    for i in 0..n {
        write_point(point_at(shares, i), r, coordinates, 3 * i);
    }
}

// Snaps n points, two shares to each, to three coordinates each. Every share is looked at before the first point is written.
pub fn snap_points(
    n: usize,
    shares: &[f64],
    scale: u32,
    coordinates: &mut [i64],
) -> Result<(), SnapRefusal>
    ensures answer { snap_to_answer result ≡ (snap_call n shares.now scale coordinates.old).answer }
    ensures coordinates { coordinates.new ≡ (snap_call n shares.now scale coordinates.old).coordinates }
{
    lent_slices::check_sizes(
        n,
        &[
            (Contents::Points, shares.len()),
            (Contents::Coordinates, coordinates.len()),
        ],
    )?;
    if !scale_allowed(scale) {
        return Err(SnapRefusal::Scale);
    }
    find_refusal(shares)?;
    write_points(n, shares, exact_scale(scale), coordinates);
    Ok(())
}
