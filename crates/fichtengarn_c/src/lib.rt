// The static library for C and Rust: each call of the crate fichtengarn, exported under its name and with its contract.
#![tactic(auto)]

ghost use Rattle.std.specs.Prelude.{length, take, ℕ, ◌+◌, ◌<◌, true, false, List, ◌≡◌};
ghost use Rattle.files.specs.Answer.{told, code_of, left_by, accepted};
ghost use Rattle.files.specs.Edits.{Edit};
ghost use Rattle.files.specs.Calls.{Counts, count_values, yes_no, role_question, read_both, rule_question, judge, mine_answer, mine_output, verdict_told, shown_place, shown_byte, circle_answer, circle_output};
ghost use Rattle.files.specs.Beside.{beside_of};
ghost use Rattle.files.specs.Demand3.{Demand3};
ghost use Rattle.files.specs.Denials.{denial_answer};
ghost use Rattle.files.specs.Load.{load_answer, load_output, Readable};
ghost use Rattle.files.specs.RoleFile.{read_roles, read_commands};
ghost use Rattle.files.specs.Windows.{worst_values};
ghost use Rattle.policy.specs.Circles.{closes, Circle};
ghost use Rattle.policy.specs.Policy.{Policy};
ghost use Rattle.load_file.specs.GeneratedNumbers.{bytes_written};
ghost use Rattle.right_edits.specs.EveryList.{LoadedFrom, EveryList};
ghost use Rattle.right_edits.specs.Standing.{standing, fill_answer, standing_answer};
ghost use Rattle.right_record.specs.Reassigned.{an_edit};
ghost use Rattle.answers.specs.Records.{loaded_of};
ghost use Rattle.role_circle.specs.CircledNumbers.{roles_listed};
ghost use Rattle.sets.specs.Tests.{Is, ◌is_in◌};
ghost use Rattle.answers.specs.Numbers.{returned, stored, no_values, rules_told};

use answers::{Edited, Loaded};
use fichtengarn::Part;
use policy::Weights;
use role_record::RoleFile;

// Whether a role file may be read: 0, or 1 to 7.
#[unsafe(no_mangle)]
pub extern "C" fn fichtengarn_read_roles(file: &[u8]) -> usize
    ensures { result ≡ returned (told no_values (read_roles 2 file.now)) }
{
    fichtengarn::fichtengarn_read_roles(file)
}

// Whether a rule file may be read beside a role file, and how many rules it has.
#[unsafe(no_mangle)]
pub extern "C" fn fichtengarn_read_rules(file: &[u8], rules: &[u8], count: &mut [usize; 1]) -> usize
    ensures { (result ≡ returned (told rules_told (read_both 2 file.now rules.now)))
        × (count.new
        ≡ stored (told rules_told (read_both 2 file.now rules.now)) count.old) }
{
    fichtengarn::fichtengarn_read_rules(file, rules, count)
}

// Whether the roles grant a triple: 1 for yes, 0 for no.
#[unsafe(no_mangle)]
pub extern "C" fn fichtengarn_ask_roles(
    file: &[u8],
    user: usize,
    resource: usize,
    operation: usize,
    answer: &mut [usize; 1],
) -> usize
    ensures { (result ≡ returned (told yes_no (role_question 2 file.now user resource operation)))
        × (answer.new
        ≡ stored (told yes_no (role_question 2 file.now user resource operation))
        answer.old) }
{
    fichtengarn::fichtengarn_ask_roles(file, user, resource, operation, answer)
}

// Whether some rule grants a triple: 1 for yes, 0 for no.
#[unsafe(no_mangle)]
pub extern "C" fn fichtengarn_ask_rules(
    file: &[u8],
    rules: &[u8],
    user: usize,
    resource: usize,
    operation: usize,
    answer: &mut [usize; 1],
) -> usize
    ensures { (result ≡ returned (told yes_no (rule_question 2 file.now rules.now user resource operation)))
        × (answer.new
        ≡ stored (told yes_no (rule_question 2 file.now rules.now user resource operation))
        answer.old) }
{
    fichtengarn::fichtengarn_ask_rules(file, rules, user, resource, operation, answer)
}

// The verdict on a rule file and what goes with it: the triple, the rule or the part.
#[unsafe(no_mangle)]
pub extern "C" fn fichtengarn_judge(file: &[u8], rules: &[u8], verdict: &mut [usize; 4]) -> usize
    ensures { (result ≡ returned (told verdict_told (judge 2 file.now rules.now)))
        × (verdict.new
        ≡ stored (told verdict_told (judge 2 file.now rules.now))
        verdict.old) }
{
    fichtengarn::fichtengarn_judge(file, rules, verdict)
}

// One rule by its number: where it stands in the rule file, and in the lent byte 0 or the refusal's number.
#[unsafe(no_mangle)]
pub extern "C" fn fichtengarn_show(file: &[u8], rules: &[u8], rule: usize, answer: &mut u8) -> Part
    ensures { (result.start ≡ (shown_place 2 file.now rules.now rule).0)
        × (result.start + result.length ≡ (shown_place 2 file.now rules.now rule).1)
        × (answer.new ≡ shown_byte 2 file.now rules.now rule) }
{
    fichtengarn::fichtengarn_show(file, rules, rule, answer)
}

// The circle of a role file with refusal 7: its roles in the lent memory, and how many they are.
#[unsafe(no_mangle)]
pub extern "C" fn fichtengarn_circle(file: &[u8], roles: &mut [u8], count: &mut [usize; 1]) -> usize
    ensures { (result
        ≡ returned (told roles_listed (circle_answer 2 file.now (length roles.old))))
        × (count.new
        ≡ stored (told roles_listed (circle_answer 2 file.now (length roles.old)))
        count.old)
        × (roles.new ≡ circle_output 2 file.now roles.old)
        × ((list : List ℕ)
        → circle_answer 2 file.now (length roles.old) ≡ accepted list
        → (F : Policy)
        × (read_commands 2 file.now ≡ accepted F)
        × Circle F (take (length list) roles.new)
        × ((l : List ℕ) → Is (closes F.line l) → (k : ℕ) → k is_in l → k < F.roles)) }
{
    fichtengarn::fichtengarn_circle(file, roles, count)
}

// A role file made from a seed and four sizes, in the memory for output, and how long it is. The reader accepts it.
#[unsafe(no_mangle)]
pub extern "C" fn fichtengarn_load(
    seed: u32,
    users: usize,
    resources: usize,
    operations: usize,
    roles: usize,
    out: &mut [u8],
    count: &mut [usize; 1],
) -> usize
    ensures { (result
        ≡ returned
        (told bytes_written (load_answer 2 seed users resources operations roles (length out.old))))
        × (count.new
        ≡ stored
        (told bytes_written (load_answer 2 seed users resources operations roles (length out.old)))
        count.old)
        × (out.new ≡ load_output 2 seed users resources operations roles out.old)
        × ((n : ℕ)
        → load_answer 2 seed users resources operations roles (length out.old) ≡ accepted n
        → Readable 2 users resources operations roles (take n out.new)) }
{
    fichtengarn::fichtengarn_load(seed, users, resources, operations, roles, out, count)
}

// Denials in a usage log, in windows of so many records: the most that the rules deny in one, and the lowest record from which so many are.
#[unsafe(no_mangle)]
pub extern "C" fn fichtengarn_denials(
    file: &[u8],
    rules: &[u8],
    log: &[u8],
    window: usize,
    denials: &mut [usize; 2],
) -> usize
    ensures { (result
        ≡ returned
        (told worst_values
        (denial_answer 2 file.now rules.now log.now window)))
        × (denials.new
        ≡ stored
        (told worst_values
        (denial_answer 2 file.now rules.now log.now window))
        denials.old) }
{
    fichtengarn::fichtengarn_denials(file, rules, log, window, denials)
}

// Mining, within the runs of roles that the cuts make first: the rule file in the memory for output, and length, parts, rules, merges and the
// cost by these weights.
#[unsafe(no_mangle)]
pub extern "C" fn fichtengarn_mine(
    file: &[u8],
    cuts: &[u8],
    weights: Weights,
    scratch: &mut [u64],
    out: &mut [u8],
    counts: &mut [u64; 5],
) -> usize
    ensures { (result
        ≡ returned
        (told count_values
        (mine_answer 2 file.now cuts.now weights (length scratch.old)
        (length out.old))))
        × (counts.new
        ≡ stored
        (told count_values
        (mine_answer 2 file.now cuts.now weights (length scratch.old)
        (length out.old)))
        counts.old)
        × (out.new
        ≡ mine_output 2 file.now cuts.now (length scratch.old)
        out.old)
        × ((c : Counts)
        → mine_answer 2 file.now cuts.now weights (length scratch.old)
        (length out.old)
        ≡ accepted c
        → (F : Policy)
        × (read_roles 2 file.now ≡ accepted F)
        × Demand3 2 cuts.now weights (beside_of F) (take c.size out.new) c) }
{
    fichtengarn::fichtengarn_mine(file, cuts, weights, scratch, out, counts)
}

// A role file read into a record, which the caller keeps: 0 and the record, or 1 to 7 and the empty one.
#[unsafe(no_mangle)]
pub extern "C" fn fichtengarn_read_record(file: &[u8]) -> Loaded
    ensures { result ≡ loaded_of (read_roles 2 file.now) }
{
    fichtengarn::fichtengarn_read_record(file)
}

// The standing summary of rights: fills a table from a record, any record.
#[unsafe(no_mangle)]
pub extern "C" fn fichtengarn_fill(loaded: RoleFile, table: &mut [u64]) -> usize
    ensures { (result ≡ code_of (fill_answer loaded (length table.old)))
        × (table.new ≡ left_by table.old (fill_answer loaded (length table.old)))
        × ((file : List ℕ)
        → (F : Policy)
        → LoadedFrom file F loaded
        → result ≡ 0
        → (es : List Edit)
        → EveryList F (standing loaded table.new) es) }
{
    fichtengarn::fichtengarn_fill(loaded, table)
}

// Assigns a user to a role: the record and the table after it, or both as they were.
#[unsafe(no_mangle)]
pub extern "C" fn fichtengarn_assign(
    loaded: RoleFile,
    table: &mut [u64],
    role: usize,
    user: usize,
) -> Edited
    ensures { (result.code ≡ code_of (standing_answer (standing loaded table.old) (an_edit true role user)))
        × (standing result.file table.new
        ≡ left_by (standing loaded table.old)
        (standing_answer (standing loaded table.old) (an_edit true role user))) }
{
    fichtengarn::fichtengarn_assign(loaded, table, role, user)
}

// Takes the assignment of a user to a role away: the same.
#[unsafe(no_mangle)]
pub extern "C" fn fichtengarn_withdraw(
    loaded: RoleFile,
    table: &mut [u64],
    role: usize,
    user: usize,
) -> Edited
    ensures { (result.code ≡ code_of (standing_answer (standing loaded table.old) (an_edit false role user)))
        × (standing result.file table.new
        ≡ left_by (standing loaded table.old)
        (standing_answer (standing loaded table.old) (an_edit false role user))) }
{
    fichtengarn::fichtengarn_withdraw(loaded, table, role, user)
}
