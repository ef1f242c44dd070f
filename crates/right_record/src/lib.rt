// The record with one assignment given or taken away, and the holders worked out from it.
#![tactic(auto)]

ghost use Rattle.std.specs.Prelude.{eqb, cond, ◌≡◌, ◌≤◌, ◌<◌};
ghost use Rattle.right_record.specs.Reassigned.{an_edit, assigned_as, record_as};
ghost use Rattle.sets.specs.Sets.{bit, mask_of};

use role_record::{ByRole, RoleFile};

// A set with i in it, or without i.
fn member(m: u64, gives: bool, i: usize) -> u64
    ensures { result ≡ mask_of 64 (λ k. cond (eqb k i) gives (bit m k)) }
{
    if gives {
        return sets::with(m, i);
    }
    sets::without(m, sets::with(0, i))
}

// One assignment given or taken away.
fn change(assigned: &mut ByRole, gives: bool, role: usize, user: usize)
    requires { role < 32 }
    ensures { assigned.new ≡ assigned_as assigned.old (an_edit gives role user) }
{
    assigned[role] = member(assigned[role], gives, user);
}

// One assignment given or taken away, and the holders worked out from all assignments.
pub fn reassign(f: &mut RoleFile, gives: bool, role: usize, user: usize)
    requires { (f.old.roles ≤ 32) × (role < 32) }
    ensures { f.new ≡ record_as f.old (an_edit gives role user) }
{
    change(&mut f.assigned, gives, role, user);
    let assigned = f.assigned;
    let seniors = f.seniors;
    role_seniority::holders(&assigned, &seniors, f.roles, &mut f.holders);
}
