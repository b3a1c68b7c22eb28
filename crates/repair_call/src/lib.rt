// The repair call: rows 1, 2, 21 and 3 to 9; then, while some inner triangle is flat or turned, the lowest-numbered one is raised. A raise touches the
// vertices that it moves and the triangles on the raised one's three walks, which are at most linear in n.
#![tactic(auto)]

ghost use Rattle.std.specs.Prelude.{◌≡◌, length};
ghost use Rattle.definitions.specs.Refusals.{repair_call};
ghost use Rattle.lent_slices.specs.MapLengths.{Lengths};
ghost use Rattle.mesh_answer.specs.Answer.{to_answer};
ghost use Rattle.repair_call.specs.CallOutcomes.{Given};

use labels_call::label_mesh;
use lent_slices::{Contents, check_sizes};
use mesh_answer::Refusal;
use mesh_check::Mesh;
use repair_loop::repair_labelled;
use scratch_tables::clear;

// from row 21 on; nothing is said of scratch, which the call clears
fn run_repair(
    mesh: &Mesh,
    weights: &mut [i64],
    coordinates: &mut [i64],
    scratch: &mut [i64],
) -> Result<usize, Refusal>
    requires { Lengths mesh.now.n (length mesh.now.triangles.now) (length scratch.old) (length weights.old) (length coordinates.old) }
    ensures { Given mesh.now.n mesh.now.outer mesh.now.triangles.now weights.old coordinates.old scratch.old (to_answer result)
        weights.new coordinates.new }
{
    // Taken apart by hand, and not by `?`: the edit `vertex_lost` puts another refusal here.
    if let Err(why) = label_mesh(mesh, scratch) {
        return Err(why);
    }
    if maps_limits::past_limit(weights) {
        return Err(Refusal::WeightLimit);
    }
    repair_labelled(mesh.n, weights, coordinates, scratch).map_err(|stopped| Refusal::Stopped(
        stopped.raises,
    ))
}

// The public call: how many raises were made. Scratch is as lent after 1 and 2, and holds zeros after every other answer. Weights and coordinates are as
// lent after every refusal but 13; after that the weights are as after the last full raise, and the coordinates are theirs.
pub fn repair(
    mesh: &Mesh,
    weights: &mut [i64],
    coordinates: &mut [i64],
    scratch: &mut [i64],
) -> Result<usize, Refusal>
    ensures answer { to_answer result ≡
        (repair_call mesh.now.n mesh.now.outer mesh.now.triangles.now weights.old coordinates.old scratch.old).answer }
    ensures weights { weights.new ≡
        (repair_call mesh.now.n mesh.now.outer mesh.now.triangles.now weights.old coordinates.old scratch.old).weights }
    ensures coordinates { coordinates.new ≡
        (repair_call mesh.now.n mesh.now.outer mesh.now.triangles.now weights.old coordinates.old scratch.old).coordinates }
    ensures scratch { scratch.new ≡
        (repair_call mesh.now.n mesh.now.outer mesh.now.triangles.now weights.old coordinates.old scratch.old).scratch }
{
    check_sizes(
        mesh.n,
        &[
            (Contents::Triangles, mesh.triangles.len()),
            (Contents::Scratch, scratch.len()),
            (Contents::Weights, weights.len()),
            (Contents::Coordinates, coordinates.len()),
        ],
    )?;
    let answer = run_repair(mesh, weights, coordinates, scratch);
    clear(scratch);
    answer
}
