// What a rule grants, worked out from the rule summed up. A rule has no grid of its own: by user the resources that it leaves the user, and its
// operations, say what it grants.
#![tactic(auto)]

ghost use Rattle.std.specs.Prelude.{◌≡◌, ◌≤◌};
ghost use Rattle.rule_grants.specs.RuleRows.{rule_rows};

use role_record::{ByMember, ByPlace, BySide, Links, RoleFile};

// The rows of a rule, whatever the table held.
pub fn rule_rows<'a>(
    met: &'a ByPlace,
    asked: u64,
    atoms: u64,
    kinds: &'a BySide,
    links: &'a Links,
    users: usize,
    resources: usize,
    out: &mut ByMember,
)
    requires { (users ≤ 64) × (resources ≤ 64) }
    ensures { out.new ≡ rule_rows met.now asked atoms links.now users resources }
{
    let who = rule_satisfaction::satisfying(met, asked, kinds, 0, users);
    let what = rule_satisfaction::satisfying(met, asked, kinds, 1, resources);
    for u in 0..RoleFile::MEMBERS {
        out[u] = grant_links::row(links, atoms, who, what, u);
    }
}
