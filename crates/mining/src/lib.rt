// Mining: a role file's rules, written into lent memory.
#![tactic(auto)]

ghost use Rattle.std.specs.Prelude.{ℕ, ◌≤◌, length, take, Err, ◌≡◌};
ghost use Rattle.mine_parts.specs.Layout.{most_parts, room_in};
ghost use Rattle.files.specs.Answer.{map_answer, accepted};
ghost use Rattle.files.specs.Cause.{answer_of};
ghost use Rattle.files.specs.Calls.{Counts, least_scratch, mine_answer, mine_output};
ghost use Rattle.files.specs.Beside.{beside_of};
ghost use Rattle.files.specs.Demand3.{Demand3};
ghost use Rattle.files.specs.RoleFile.{read_roles};
ghost use Rattle.policy.specs.Cost.{four_ones};
ghost use Rattle.policy.specs.Policy.{Policy};
ghost use Rattle.write_answer.specs.MinedNumbers.{mined_of};
ghost use Rattle.write_answer.specs.Stages.{bytes_for, needed_bytes, Outcome};

use files::Refusal;
use policy::Weights;
use write_answer::{Attempt, Mined};

// Words of scratch that a caller has to lend.
pub const SCRATCH: usize = mine_parts::WORDS;

// The bytes of the rule file where there is none.
const NO_FILE: usize = 0;

// 01's weights, four ones.
pub fn ones() -> Weights
    ensures { result ≡ four_ones }
{
    Weights {
        users: 1,
        resources: 1,
        operations: 1,
        atoms: 1,
    }
}

// Where no rule file is made.
fn nothing(refusal: Refusal) -> Attempt
    ensures { (result.wrote ≡ Err refusal) × (result.bytes ≡ 0) }
{
    Attempt {
        wrote: Err(refusal),
        bytes: NO_FILE,
    }
}

// Mining, within the runs of roles that the cuts make first, with the words of scratch that it needs, whatever they hold.
fn mine_in(file: &[u8], cuts: &[u8], scratch: &mut [u64], out: &mut [u8]) -> Attempt
    requires { most_parts ≤ room_in scratch.old }
    ensures { ((n : ℕ)
        → least_scratch ≤ n
        → Outcome file.now cuts.now n out.old result.wrote out.new)
        × (result.bytes ≡ bytes_for cuts.now (read_roles 2 file.now)) }
{
    let f = match role_file::read(file) {
        Ok(f) => f,
        Err(refusal) => return nothing(refusal),
    };
    if !mine_cuts::legal(cuts, f.roles) {
        return nothing(Refusal::BadCuts);
    }
    mine_policy::mine_record(
        &f.known,
        &f.values,
        &f.kinds,
        &f.domains,
        &f.attributes,
        &f.holders,
        &f.permissions,
        f.sizes(),
        cuts,
        scratch,
        out,
    )
}

// The answer, with the cost by these weights, the output memory at the end, and the third demand about the bytes there. Scratch may hold anything
// before, and does after. Nothing is chosen by cost: the weights are looked at once the rules are written.
pub fn mine(
    file: &[u8],
    cuts: &[u8],
    weights: Weights,
    scratch: &mut [u64],
    out: &mut [u8],
) -> Result<Mined, Refusal>
    ensures { (answer_of result
        ≡ map_answer mined_of
        (mine_answer 2 file.now cuts.now weights (length scratch.old)
        (length out.old)))
        × (out.new
        ≡ mine_output 2 file.now cuts.now (length scratch.old)
        out.old)
        × ((c : Counts)
        → mine_answer 2 file.now cuts.now weights (length scratch.old)
        (length out.old)
        ≡ accepted c
        → (F : Policy)
        × (read_roles 2 file.now ≡ accepted F)
        × Demand3 2 cuts.now weights (beside_of F) (take c.size out.new) c) }
{
    let small = scratch.len() < SCRATCH;
    if small {
        return Err(Refusal::SmallScratch);
    }
    let a = mine_in(file, cuts, &mut scratch[0..mine_parts::WORDS], out);
    let written = a.wrote?;
    Ok(written.weighed(weights))
}

// How long the rule file of a role file is, so that output can be found for it; 0 where the role file or the cuts are refused or scratch is below
// what mining asks for. No output is written.
pub fn rule_bytes(file: &[u8], cuts: &[u8], scratch: &mut [u64]) -> usize
    ensures { result ≡ needed_bytes file.now cuts.now (length scratch.old) }
{
    let words = scratch.len();
    if words < SCRATCH {
        return NO_FILE;
    }
    let mut out = [0u8; 1];
    let a = mine_in(file, cuts, &mut scratch[0..mine_parts::WORDS], &mut out);
    a.bytes
}
