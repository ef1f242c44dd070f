// A standing summary of rights: a table beside the loaded record that one call fills, and edits of assignments that keep
// it.
#![tactic(auto)]

ghost use Rattle.std.specs.Prelude.{length, List, ◌≡◌, ℕ};
ghost use Rattle.files.specs.Answer.{code_of, left_by};
ghost use Rattle.files.specs.Cause.{answer_of};
ghost use Rattle.files.specs.Edits.{Edit};
ghost use Rattle.policy.specs.Policy.{Policy};
ghost use Rattle.right_edits.specs.EveryList.{LoadedFrom, EveryList};
ghost use Rattle.right_edits.specs.Standing.{standing, fill_answer, standing_answer};
ghost use Rattle.right_record.specs.Reassigned.{an_edit};

use files::Refusal;
use role_record::RoleFile;

// Fills a table from the record's assignments, seniors and permissions, whatever it held; refused with 17 or 5, and then the table is as it
// was. After every list of edits from there on the table is the one worked out afresh.
pub fn fill(f: &RoleFile, table: &mut [u64]) -> Result<(), Refusal>
    ensures { (code_of (answer_of result) ≡ code_of (fill_answer f.now (length table.old)))
        × (table.new ≡ left_by table.old (fill_answer f.now (length table.old)))
        × ((file : List ℕ)
        → (F : Policy)
        → LoadedFrom file F f.now
        → code_of (answer_of result) ≡ 0
        → (es : List Edit)
        → EveryList F (standing f.now table.new) es) }
{
    let sizes = f.sizes();
    right_answers::may_fill(sizes, table.len())?;
    let mut holders = [0u64; RoleFile::ROLES];
    role_seniority::holders(&f.assigned, &f.seniors, f.roles, &mut holders);
    right_words::fill(&holders, &f.permissions, sizes, table);
    Ok(())
}

// Assigns a user to a role, or takes the assignment away; refused with 17 or 5, and then record and table are as they were. Where an
// assignment changes the 16 words of the user are written, whatever they held; else nothing is.
pub fn edit(
    f: &mut RoleFile,
    table: &mut [u64],
    gives: bool,
    role: usize,
    user: usize,
) -> Result<(), Refusal>
    ensures { (code_of (answer_of result)
        ≡ code_of (standing_answer (standing f.old table.old) (an_edit gives role user)))
        × (standing f.new table.new
        ≡ left_by (standing f.old table.old)
        (standing_answer (standing f.old table.old) (an_edit gives role user))) }
{
    let sizes = f.sizes();
    right_answers::may_edit(sizes, table.len(), role, user)?;
    if sets::has(f.assigned[role], user) == gives {
        return Ok(());
    }
    right_record::reassign(f, gives, role, user);
    right_words::refresh(&f.holders, &f.permissions, sizes, user, table);
    Ok(())
}
