// Why a call on a mesh is refused: the rows of the table of refusals by name. A call answers `Result<_, Refusal>`.
#![tactic(auto)]

ghost use Rattle.std.specs.Prelude.{◌≡◌};
ghost use Rattle.definitions.specs.Answers.{number};
ghost use Rattle.mesh_answer.specs.Answer.{to_refusal, of_size};

use lent_slices::SizeRefusal;

// A row of the table of refusals, and what the refusal carries: the vertex of 7 and of 25, and with 13 the count of raises so far.
#[derive(Clone, Copy, Debug, PartialEq, Eq)]
pub enum Refusal {
    VertexCount,
    SliceLength,
    VertexNumber,
    RepeatedVertex,
    RepeatedSide,
    UnpairedSide,
    PinchedVertex(usize),
    Disconnected,
    WeightLimit,
    CoordinateLimit,
    OffCorner,
    OffSum,
    Stopped(usize),
    OuterTriangle,
    StrayVertex(usize),
    LowAboveHigh,
}

impl Refusal {
    // the number of the row
    pub fn number(self) -> u32
        ensures { result ≡ number (to_refusal self) }
    {
        match self {
            Refusal::VertexCount => 1,
            Refusal::SliceLength => 2,
            Refusal::VertexNumber => 3,
            Refusal::RepeatedVertex => 4,
            Refusal::RepeatedSide => 5,
            Refusal::UnpairedSide => 6,
            Refusal::PinchedVertex(_) => 7,
            Refusal::Disconnected => 8,
            Refusal::WeightLimit => 9,
            Refusal::CoordinateLimit => 10,
            Refusal::OffCorner => 11,
            Refusal::OffSum => 12,
            Refusal::Stopped(_) => 13,
            Refusal::OuterTriangle => 21,
            Refusal::StrayVertex(_) => 25,
            Refusal::LowAboveHigh => 29,
        }
    }
}

impl From<SizeRefusal> for Refusal {
    ghost from_gives = { λ size why. why ≡ of_size size };

    fn from(size: SizeRefusal) -> Refusal {
        match size {
            SizeRefusal::VertexCount => Refusal::VertexCount,
            SizeRefusal::SliceLength => Refusal::SliceLength,
        }
    }
}
