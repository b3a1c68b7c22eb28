// Repair through the code, on the tetra: P6, P7, P8, and the examples of rows 9 and 13. A line is written for each: the number of the answer (0 for done), the
// count of raises, the three weights, and the coordinates of vertex 3. The numbers in the file stdout are document 01's, and of P8 C-21's.
// The numbers are written by calls of `io`, for `print` asks for a handle and none is allowed.
#![tactic(auto)]

use mesh_answer::Refusal;
use mesh_check::Mesh;

// the file descriptor of standard output
const STDOUT_FILENO: i32 = 1;

fn number(answer: Result<usize, Refusal>) -> u32 {
    match answer {
        Ok(_) => 0,
        Err(why) => why.number(),
    }
}

fn count(answer: Result<usize, Refusal>) -> usize {
    match answer {
        Ok(raises) | Err(Refusal::Stopped(raises)) => raises,
        Err(_) => 0,
    }
}

// a space and k
fn signed(k: i64) {
    io::write_all(STDOUT_FILENO, if k < 0 { b" -" } else { b" " });
    io::print_decimal(STDOUT_FILENO, k.unsigned_abs());
}

// repair of these weights
fn case(lent: [i64; 3]) {
    let mesh = Mesh {
        n: 4,
        outer: 0,
        triangles: &[0, 2, 1, 0, 3, 2, 3, 1, 2, 0, 1, 3],
    };
    let mut weights = lent;
    let mut coordinates = [0i64; 12];
    let mut scratch = [0i64; 40];
    let answer = repair_call::repair(&mesh, &mut weights, &mut coordinates, &mut scratch);
    io::print_decimal(STDOUT_FILENO, u64::from(number(answer)));
    io::write_all(STDOUT_FILENO, b" ");
    io::print_decimal(STDOUT_FILENO, count(answer) as u64);
    for &w in &weights {
        signed(w);
    }
    for &b in &coordinates[9..] {
        signed(b);
    }
    io::write_all(STDOUT_FILENO, b"\n");
}

fn main() {
    case([5, 3, -1]);
    case([0, 0, 0]);
    case([-1, -1, -1]);
    case([1073741823, 1, 0]);
    case([1, -1073741821, 1]);
}
