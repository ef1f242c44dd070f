// The fewest roles that make a circle of seniority, of a role file with refusal 7: written into lent memory.
#![tactic(auto)]

ghost use Rattle.std.specs.Prelude.{length, take, List, ◌≡◌, ℕ, ◌<◌};
ghost use Rattle.files.specs.Answer.{accepted, map_answer};
ghost use Rattle.files.specs.Calls.{circle_answer, circle_output};
ghost use Rattle.files.specs.Cause.{answer_of};
ghost use Rattle.files.specs.RoleFile.{read_commands};
ghost use Rattle.policy.specs.Circles.{closes, Circle};
ghost use Rattle.policy.specs.Policy.{Policy};
ghost use Rattle.sets.specs.Tests.{Is, ◌is_in◌};

use files::Refusal;
use role_record::RoleFile;

// How many roles are listed, and none for an accepted file; the memory at the end, and what request 3 says of the bytes there. The lines
// are collected only where the file's one fault is its circle: reading is as fast as ever.
pub fn circle(file: &[u8], out: &mut [u8]) -> Result<usize, Refusal>
    ensures { (answer_of result ≡ map_answer length (circle_answer 2 file.now (length out.old)))
        × (out.new ≡ circle_output 2 file.now out.old)
        × ((list : List ℕ)
        → circle_answer 2 file.now (length out.old) ≡ accepted list
        → (F : Policy)
        × (read_commands 2 file.now ≡ accepted F)
        × Circle F (take (length list) out.new)
        × ((l : List ℕ) → Is (closes F.line l) → (k : ℕ) → k is_in l → k < F.roles)) }
{
    match role_file::read(file) {
        Ok(_) => Ok(0),
        Err(Refusal::OwnSenior) => {
            let mut lines = [0u64; RoleFile::ROLES];
            let roles = role_lines::lines(file, &mut lines);
            let c = role_circles::shortest(&lines, roles);
            if out.len() <= c.more {
                return Err(Refusal::ShortOutput);
            }
            role_circles::write(&lines, roles, c.low, c.more, out);
            Ok(c.more + 1)
        }
        Err(refusal) => Err(refusal),
    }
}
