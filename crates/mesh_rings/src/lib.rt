// 7 and 25 of the table of refusals. 25: a vertex has no dart. 7: from its first dart by turns; of as many as it has darts only the last may come back.
#![tactic(auto, using(crate::specs::RingLoops::found))]

ghost use Rattle.std.specs.Prelude.{◌≡◌, length};
ghost use Rattle.mesh_tables.specs.Incidence.{incidence};
ghost use Rattle.mesh_answer.specs.Answer.{found_in};
ghost use Rattle.mesh_model.specs.RingWalk.{returns_within, one_ring, broken_at, first_broken};
ghost use Rattle.mesh_rings.specs.RingLoops.{Turning, Rounding, AllRounding};

use mesh_answer::Refusal;
use mesh_tables::{dart_number, first_dart, turn};

// One of k turns from h comes back to h.
fn returns_to(s: &[i64], h: usize, k: usize) -> bool
    requires { Turning (length s.now) (incidence s.now).turn h }
    ensures { result ≡ returns_within (incidence s.now).turn h k h }
{
    let mut d = h;
    for _ in 0..k {
        d = turn(s, d);
        if d == h {
            return true;
        }
    }
    false
}

// the triangles at v: one ring, none at all, or several rings
fn check_ring(s: &[i64], v: usize) -> Result<(), Refusal>
    requires { Rounding (length s.now) (incidence s.now) v }
    ensures { found_in result ≡ broken_at (incidence s.now) v }
{
    let k = dart_number(s, v);
    if k == 0 {
        return Err(Refusal::StrayVertex(v));
    }
    let h = first_dart(s, v);
    if returns_to(s, h, k - 1) {
        return Err(Refusal::PinchedVertex(v));
    }
    Ok(())
}

// v has one ring
pub fn has_ring(s: &[i64], v: usize) -> bool
    requires { Rounding (length s.now) (incidence s.now) v }
    ensures { result ≡ one_ring (incidence s.now) v }
{
    check_ring(s, v).is_ok()
}

// 7 and 25: the lowest vertex that has not one ring decides
pub fn check_rings(n: usize, s: &[i64]) -> Result<(), Refusal>
    requires { AllRounding n (length s.now) (incidence s.now) }
    ensures { found_in result ≡ first_broken (incidence s.now) n 0 }
{
    for v in 0..n {
        check_ring(s, v)?;
    }
    Ok(())
}
