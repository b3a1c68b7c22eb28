// The labels, written from what scratch holds once the corners are labelled: of each inner triangle the corner with label 2 tells the two others.
#![tactic(auto)]

ghost use Rattle.std.specs.Prelude.{◌≡◌, ℕ, ◌+◌, ◌*◌, ◌%◌, ◌≤◌, ◌<◌, length, get_or};
ghost use Rattle.scratch_tables.specs.Tables.{tables_of};
ghost use Rattle.labels_tables.specs.Peeling.{peeling_of, peeling};
ghost use Rattle.labels_tables.specs.LabelledTables.{label_in};
ghost use Rattle.labels_write.specs.Writing.{label_of_corner, Readable, with_triangle};

// the labels of the three corners of a triangle, by which of them has label 2
const LABELS: [[u8; 3]; 3] = [[2, 0, 1], [1, 2, 0], [0, 1, 2]];

// the labels of triangle t + 1, which stand from 3 t on
fn write_triangle(labels: &mut [u8], scratch: &[i64], t: usize)
    requires { Readable (peeling scratch.now) (length scratch.now) t × (3 * t + 3 ≤ length labels.old) }
    ensures { labels.new ≡ with_triangle ((peeling scratch.now).apex (t + 1)) t labels.old }
{
    let k = labels_tables::apex(scratch, t + 1);
    labels[3 * t..3 * t + 3].copy_from_slice(&LABELS[k]);
}

// The labels of the inner triangles. By index: once a walk over `chunks_exact_mut` is over, a proof knows the slice's length alone.
pub fn write_labels(labels: &mut [u8], scratch: &[i64])
    requires { (length labels.old % 3 ≡ 0) × ((t : ℕ) → 3 * t < length labels.old → Readable (peeling scratch.now) (length scratch.now) t) }
    ensures { (k : ℕ) → k < length labels.new → get_or labels.new k 0 ≡ label_in (peeling scratch.now) (k + 3) }
{
    for t in 0..labels.len() / 3 {
        write_triangle(labels, scratch, t);
    }
}
