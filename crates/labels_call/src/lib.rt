// The labels call: on an accepted mesh the peeling labels the corners of the inner triangles. The work is linear in n, but for the search for the
// smallest vertex that can leave, which passes over whole groups and blocks of vertices. Of scratch it uses the ten words a vertex that the mesh
// check uses.
#![tactic(auto)]

ghost use Rattle.std.specs.Prelude.{◌≡◌, length};
ghost use Rattle.definitions.specs.Refusals.{labels_call};
ghost use Rattle.mesh_answer.specs.Answer.{to_answer};
ghost use Rattle.mesh_check.specs.Stages.{Lent};
ghost use Rattle.labels_call.specs.CallOutcomes.{LabelsFit};
ghost use Rattle.labels_call.specs.Labelling.{Labelling};

use lent_slices::{Contents, check_sizes};
use mesh_answer::Refusal;
use mesh_check::{Mesh, examine};
use scratch_tables::clear;

// Rows 21 and 3 to 8 and the labels stage, for every call that needs labels. Where the mesh is accepted scratch holds the labels and the trace of the peeling.
// Where it is refused nothing is said of scratch: the call clears it.
pub fn label_mesh(mesh: &Mesh, scratch: &mut [i64]) -> Result<(), Refusal>
    requires { Lent mesh.now.n mesh.now.triangles.now (length scratch.old) }
    ensures { Labelling mesh.now.n mesh.now.outer mesh.now.triangles.now scratch.new result }
{
    // `let .. else`, and not `?`: document 01 names this form for the accepted mesh answer.
    let examined = examine(mesh, scratch);
    let Ok(()) = examined else {
        return examined;
    };
    labels_peel::peel(mesh.n, scratch);
    Ok(())
}

// Rows 21 and 3 to 8, and the labels. Nothing is said of scratch: the call clears it.
fn run_labels(mesh: &Mesh, labels: &mut [u8], scratch: &mut [i64]) -> Result<(), Refusal>
    requires { LabelsFit mesh.now.n mesh.now.triangles.now labels.old scratch.old }
    ensures answer { to_answer result ≡
        (labels_call mesh.now.n mesh.now.outer mesh.now.triangles.now labels.old scratch.old).answer }
    ensures labels { labels.new ≡
        (labels_call mesh.now.n mesh.now.outer mesh.now.triangles.now labels.old scratch.old).labels }
{
    label_mesh(mesh, scratch)?;
    labels_write::write_labels(labels, scratch);
    Ok(())
}

// The public call. Scratch is as lent after 1 and 2, and holds zeros after every other answer.
pub fn labels(mesh: &Mesh, labels: &mut [u8], scratch: &mut [i64]) -> Result<(), Refusal>
    ensures answer { to_answer result ≡
        (labels_call mesh.now.n mesh.now.outer mesh.now.triangles.now labels.old scratch.old).answer }
    ensures labels { labels.new ≡
        (labels_call mesh.now.n mesh.now.outer mesh.now.triangles.now labels.old scratch.old).labels }
    ensures scratch { scratch.new ≡
        (labels_call mesh.now.n mesh.now.outer mesh.now.triangles.now labels.old scratch.old).scratch }
{
    check_sizes(
        mesh.n,
        &[
            (Contents::Triangles, mesh.triangles.len()),
            (Contents::Scratch, scratch.len()),
            (Contents::Labels, labels.len()),
        ],
    )?;
    let answer = run_labels(mesh, labels, scratch);
    clear(scratch);
    answer
}
