// The calls on lent slices as a library for C: a slice is a pointer and a length. `host/packmap.h` declares them; `packmap_job` of crate `job_call_c`
// completes the library.
#![tactic(auto)]

ghost use Rattle.std.specs.Prelude.{◌≡◌};
ghost use Rattle.definitions.specs.Refusals.{check_call, labels_call, forward_call, range_call, backward_call, repair_call, snap_call};
ghost use Rattle.hashcliff.specs.Numbers.{number_of, carried_of, carried_of_repair, share_of};

#[unsafe(no_mangle)]
pub extern "C" fn packmap_mesh_check(
    n: usize,
    outer: usize,
    triangles: &[u16],
    scratch: &mut [i64],
    carried: &mut u64,
) -> u64
    ensures answer { result ≡ number_of (check_call n outer triangles.now scratch.old).answer }
    ensures carried { carried.new ≡
        carried_of carried.old (check_call n outer triangles.now scratch.old).answer }
    ensures scratch { scratch.new ≡ (check_call n outer triangles.now scratch.old).scratch }
{
    hashcliff::packmap_mesh_check(n, outer, triangles, scratch, carried)
}

#[unsafe(no_mangle)]
pub extern "C" fn packmap_labels(
    n: usize,
    outer: usize,
    triangles: &[u16],
    labels: &mut [u8],
    scratch: &mut [i64],
    carried: &mut u64,
) -> u64
    ensures answer { result ≡ number_of (labels_call n outer triangles.now labels.old scratch.old).answer }
    ensures carried { carried.new ≡
        carried_of carried.old (labels_call n outer triangles.now labels.old scratch.old).answer }
    ensures labels { labels.new ≡ (labels_call n outer triangles.now labels.old scratch.old).labels }
    ensures scratch { scratch.new ≡ (labels_call n outer triangles.now labels.old scratch.old).scratch }
{
    hashcliff::packmap_labels(n, outer, triangles, labels, scratch, carried)
}

#[unsafe(no_mangle)]
pub extern "C" fn packmap_forward(
    n: usize,
    outer: usize,
    triangles: &[u16],
    weights: &[i64],
    coordinates: &mut [i64],
    scratch: &mut [i64],
    carried: &mut u64,
) -> u64
    ensures answer { result ≡
        number_of (forward_call n outer triangles.now weights.now coordinates.old scratch.old).answer }
    ensures carried { carried.new ≡ carried_of carried.old
        (forward_call n outer triangles.now weights.now coordinates.old scratch.old).answer }
    ensures coordinates { coordinates.new ≡
        (forward_call n outer triangles.now weights.now coordinates.old scratch.old).coordinates }
    ensures scratch { scratch.new ≡
        (forward_call n outer triangles.now weights.now coordinates.old scratch.old).scratch }
{
    hashcliff::packmap_forward(n, outer, triangles, weights, coordinates, scratch, carried)
}

#[unsafe(no_mangle)]
pub extern "C" fn packmap_forward_range(
    n: usize,
    outer: usize,
    triangles: &[u16],
    lows: &[i64],
    highs: &[i64],
    lowest: &mut [i64],
    highest: &mut [i64],
    scratch: &mut [i64],
    carried: &mut u64,
) -> u64
    ensures answer { result ≡ number_of (range_call n outer triangles.now lows.now highs.now
        lowest.old highest.old scratch.old).answer }
    ensures carried { carried.new ≡ carried_of carried.old (range_call n outer triangles.now lows.now
        highs.now lowest.old highest.old scratch.old).answer }
    ensures lowest { lowest.new ≡ (range_call n outer triangles.now lows.now highs.now
        lowest.old highest.old scratch.old).low_coordinates }
    ensures highest { highest.new ≡ (range_call n outer triangles.now lows.now highs.now
        lowest.old highest.old scratch.old).high_coordinates }
    ensures scratch { scratch.new ≡ (range_call n outer triangles.now lows.now highs.now
        lowest.old highest.old scratch.old).scratch }
{
    hashcliff::packmap_forward_range(
        n, outer, triangles, lows, highs, lowest, highest, scratch, carried,
    )
}

#[unsafe(no_mangle)]
pub extern "C" fn packmap_backward(
    n: usize,
    outer: usize,
    triangles: &[u16],
    coordinates: &[i64],
    weights: &mut [i64],
    scratch: &mut [i64],
    carried: &mut u64,
) -> u64
    ensures answer { result ≡
        number_of (backward_call n outer triangles.now coordinates.now weights.old scratch.old).answer }
    ensures carried { carried.new ≡ carried_of carried.old
        (backward_call n outer triangles.now coordinates.now weights.old scratch.old).answer }
    ensures weights { weights.new ≡
        (backward_call n outer triangles.now coordinates.now weights.old scratch.old).weights }
    ensures scratch { scratch.new ≡
        (backward_call n outer triangles.now coordinates.now weights.old scratch.old).scratch }
{
    hashcliff::packmap_backward(n, outer, triangles, coordinates, weights, scratch, carried)
}

#[unsafe(no_mangle)]
pub extern "C" fn packmap_repair(
    n: usize,
    outer: usize,
    triangles: &[u16],
    weights: &mut [i64],
    coordinates: &mut [i64],
    scratch: &mut [i64],
    carried: &mut u64,
) -> u64
    ensures answer { result ≡
        number_of (repair_call n outer triangles.now weights.old coordinates.old scratch.old).answer }
    ensures carried { carried.new ≡ carried_of_repair carried.old
        (repair_call n outer triangles.now weights.old coordinates.old scratch.old).answer }
    ensures weights { weights.new ≡
        (repair_call n outer triangles.now weights.old coordinates.old scratch.old).weights }
    ensures coordinates { coordinates.new ≡
        (repair_call n outer triangles.now weights.old coordinates.old scratch.old).coordinates }
    ensures scratch { scratch.new ≡
        (repair_call n outer triangles.now weights.old coordinates.old scratch.old).scratch }
{
    hashcliff::packmap_repair(n, outer, triangles, weights, coordinates, scratch, carried)
}

#[unsafe(no_mangle)]
pub extern "C" fn packmap_snap_points(
    n: usize,
    shares: &[f64],
    scale: u32,
    coordinates: &mut [i64],
    outside: &mut f64,
) -> u64
    ensures answer { result ≡ number_of (snap_call n shares.now scale coordinates.old).answer }
    ensures coordinates { coordinates.new ≡ (snap_call n shares.now scale coordinates.old).coordinates }
    ensures outside { outside.new ≡
        share_of outside.old (snap_call n shares.now scale coordinates.old).answer }
{
    hashcliff::packmap_snap_points(n, shares, scale, coordinates, outside)
}
