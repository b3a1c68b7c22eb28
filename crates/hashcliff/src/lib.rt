// The public calls as C has them: a call answers the number of its refusal, or 0, and leaves what an answer carries behind a reference. Crate `hashcliff_c`
// exports them.
#![tactic(auto)]

ghost use Rattle.std.specs.Prelude.{◌≡◌};
ghost use Rattle.definitions.specs.Refusals.{check_call, labels_call, forward_call, range_call, backward_call, repair_call, snap_call};
ghost use Rattle.mesh_answer.specs.Answer.{to_answer};
ghost use Rattle.hashcliff.specs.Numbers.{number_of, carried_of, carried_of_repair, share_of};

use mesh_answer::Refusal;
use mesh_check::Mesh;
use snap_call::SnapRefusal;

// 0, or the number of a refusal. What the refusal carries is left behind `carried`, which else keeps what it held: the vertex of 7 and 25, and with 13 the
// count of raises.
fn tell(answer: Result<(), Refusal>, carried: &mut u64) -> u64
    ensures number { result ≡ number_of (to_answer answer) }
    ensures carried { carried.new ≡ carried_of carried.old (to_answer answer) }
{
    let Err(why) = answer else {
        return 0;
    };
    if let Refusal::PinchedVertex(number)
    | Refusal::StrayVertex(number)
    | Refusal::Stopped(number) = why
    {
        *carried = number as u64;
    }
    u64::from(why.number())
}

pub fn packmap_mesh_check(
    n: usize,
    outer: usize,
    triangles: &[u16],
    scratch: &mut [i64],
    carried: &mut u64,
) -> u64
    ensures answer { result ≡ number_of (check_call n outer triangles.now scratch.old).answer }
    ensures carried { carried.new ≡
        carried_of carried.old (check_call n outer triangles.now scratch.old).answer }
    ensures scratch { scratch.new ≡ (check_call n outer triangles.now scratch.old).scratch }
{
    let mesh = Mesh {
        n,
        outer,
        triangles,
    };
    tell(mesh_check::check(&mesh, scratch), carried)
}

pub fn packmap_labels(
    n: usize,
    outer: usize,
    triangles: &[u16],
    labels: &mut [u8],
    scratch: &mut [i64],
    carried: &mut u64,
) -> u64
    ensures answer { result ≡ number_of (labels_call n outer triangles.now labels.old scratch.old).answer }
    ensures carried { carried.new ≡
        carried_of carried.old (labels_call n outer triangles.now labels.old scratch.old).answer }
    ensures labels { labels.new ≡ (labels_call n outer triangles.now labels.old scratch.old).labels }
    ensures scratch { scratch.new ≡ (labels_call n outer triangles.now labels.old scratch.old).scratch }
{
    let mesh = Mesh {
        n,
        outer,
        triangles,
    };
    tell(labels_call::labels(&mesh, labels, scratch), carried)
}

pub fn packmap_forward(
    n: usize,
    outer: usize,
    triangles: &[u16],
    weights: &[i64],
    coordinates: &mut [i64],
    scratch: &mut [i64],
    carried: &mut u64,
) -> u64
    ensures answer { result ≡
        number_of (forward_call n outer triangles.now weights.now coordinates.old scratch.old).answer }
    ensures carried { carried.new ≡ carried_of carried.old
        (forward_call n outer triangles.now weights.now coordinates.old scratch.old).answer }
    ensures coordinates { coordinates.new ≡
        (forward_call n outer triangles.now weights.now coordinates.old scratch.old).coordinates }
    ensures scratch { scratch.new ≡
        (forward_call n outer triangles.now weights.now coordinates.old scratch.old).scratch }
{
    let mesh = Mesh {
        n,
        outer,
        triangles,
    };
    tell(
        maps_call::forward(&mesh, weights, coordinates, scratch),
        carried,
    )
}

pub fn packmap_forward_range(
    n: usize,
    outer: usize,
    triangles: &[u16],
    lows: &[i64],
    highs: &[i64],
    lowest: &mut [i64],
    highest: &mut [i64],
    scratch: &mut [i64],
    carried: &mut u64,
) -> u64
    ensures answer { result ≡ number_of (range_call n outer triangles.now lows.now highs.now
        lowest.old highest.old scratch.old).answer }
    ensures carried { carried.new ≡ carried_of carried.old (range_call n outer triangles.now lows.now
        highs.now lowest.old highest.old scratch.old).answer }
    ensures lowest { lowest.new ≡ (range_call n outer triangles.now lows.now highs.now
        lowest.old highest.old scratch.old).low_coordinates }
    ensures highest { highest.new ≡ (range_call n outer triangles.now lows.now highs.now
        lowest.old highest.old scratch.old).high_coordinates }
    ensures scratch { scratch.new ≡ (range_call n outer triangles.now lows.now highs.now
        lowest.old highest.old scratch.old).scratch }
{
    let mesh = Mesh {
        n,
        outer,
        triangles,
    };
    tell(
        range_call::forward_range(&mesh, lows, highs, lowest, highest, scratch),
        carried,
    )
}

pub fn packmap_backward(
    n: usize,
    outer: usize,
    triangles: &[u16],
    coordinates: &[i64],
    weights: &mut [i64],
    scratch: &mut [i64],
    carried: &mut u64,
) -> u64
    ensures answer { result ≡
        number_of (backward_call n outer triangles.now coordinates.now weights.old scratch.old).answer }
    ensures carried { carried.new ≡ carried_of carried.old
        (backward_call n outer triangles.now coordinates.now weights.old scratch.old).answer }
    ensures weights { weights.new ≡
        (backward_call n outer triangles.now coordinates.now weights.old scratch.old).weights }
    ensures scratch { scratch.new ≡
        (backward_call n outer triangles.now coordinates.now weights.old scratch.old).scratch }
{
    let mesh = Mesh {
        n,
        outer,
        triangles,
    };
    tell(
        maps_call::backward(&mesh, coordinates, weights, scratch),
        carried,
    )
}

// With 0 and 13 the count of raises is left behind `carried`.
pub fn packmap_repair(
    n: usize,
    outer: usize,
    triangles: &[u16],
    weights: &mut [i64],
    coordinates: &mut [i64],
    scratch: &mut [i64],
    carried: &mut u64,
) -> u64
    ensures answer { result ≡
        number_of (repair_call n outer triangles.now weights.old coordinates.old scratch.old).answer }
    ensures carried { carried.new ≡ carried_of_repair carried.old
        (repair_call n outer triangles.now weights.old coordinates.old scratch.old).answer }
    ensures weights { weights.new ≡
        (repair_call n outer triangles.now weights.old coordinates.old scratch.old).weights }
    ensures coordinates { coordinates.new ≡
        (repair_call n outer triangles.now weights.old coordinates.old scratch.old).coordinates }
    ensures scratch { scratch.new ≡
        (repair_call n outer triangles.now weights.old coordinates.old scratch.old).scratch }
{
    let mesh = Mesh {
        n,
        outer,
        triangles,
    };
    match repair_call::repair(&mesh, weights, coordinates, scratch) {
        Ok(raises) => {
            *carried = raises as u64;
            0
        }
        Err(why) => tell(Err(why), carried),
    }
}

// With 16 the share is left behind `outside`, which else keeps what it held.
pub fn packmap_snap_points(
    n: usize,
    shares: &[f64],
    scale: u32,
    coordinates: &mut [i64],
    outside: &mut f64,
) -> u64
    ensures answer { result ≡ number_of (snap_call n shares.now scale coordinates.old).answer }
    ensures coordinates { coordinates.new ≡ (snap_call n shares.now scale coordinates.old).coordinates }
    ensures outside { outside.new ≡
        share_of outside.old (snap_call n shares.now scale coordinates.old).answer }
{
    let Err(why) = snap_call::snap_points(n, shares, scale, coordinates) else {
        return 0;
    };
    if let SnapRefusal::Outside(share) = why {
        *outside = share;
    }
    u64::from(why.number())
}
