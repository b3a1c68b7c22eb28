// What every call on lent slices asks first: row 1, the number of vertices, and row 2, the lengths of the slices. The numbers stand here once.
#![tactic(auto)]

ghost use Rattle.std.specs.Prelude.{◌≡◌};
ghost use Rattle.definitions.specs.Refusals.{most_vertices, row1};
ghost use Rattle.lent_slices.specs.Lengths.{InSize, length_of, slices_of, row_in, first_rows};

// the most vertices that a shell may have
const MOST_VERTICES: usize = 4096;

// words of scratch for each vertex
pub const SCRATCH_WORDS: usize = 10;

// Rows 1 and 2: too few vertices, or too many; and a slice that is not as long as they want it.
#[derive(Clone, Copy, Debug, PartialEq, Eq)]
pub enum SizeRefusal {
    VertexCount,
    SliceLength,
}

// What a lent slice holds.
#[derive(Clone, Copy, Debug, PartialEq, Eq)]
pub enum Contents {
    Triangles,
    Labels,
    Weights,
    Coordinates,
    Scratch,
    Points,
}

impl Contents {
    // the length that document 01 fixes for n vertices
    fn length(self, n: usize) -> usize
        requires { InSize n }
        ensures { result ≡ length_of self n }
    {
        match self {
            Contents::Triangles => 3 * (2 * n - 4),
            Contents::Labels => 3 * (2 * n - 5),
            Contents::Weights => 2 * n - 5,
            Contents::Coordinates => 3 * n,
            Contents::Scratch => SCRATCH_WORDS * n,
            Contents::Points => 2 * n,
        }
    }
}

// row 1: too few vertices, or too many
fn other_size(n: usize) -> bool
    ensures { result ≡ row1 most_vertices n }
{
    n < 3 || n > MOST_VERTICES
}

// Rows 1 and 2 of a call, from the contents and the lengths of its slices.
pub fn check_sizes(n: usize, lent: &[(Contents, usize)]) -> Result<(), SizeRefusal>
    ensures { row_in result ≡ first_rows n (slices_of n lent.now) }
{
    if other_size(n) {
        return Err(SizeRefusal::VertexCount);
    }
    for &(contents, length) in lent {
        if length != contents.length(n) {
            return Err(SizeRefusal::SliceLength);
        }
    }
    Ok(())
}
