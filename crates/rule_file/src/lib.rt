// Reads a role file and, beside it, a rule file of any length.
#![tactic(auto)]

ghost use Rattle.std.specs.Prelude.{length, ◌≡◌, ◌≤◌};
ghost use Rattle.files.specs.Answer.{map_answer};
ghost use Rattle.files.specs.Calls.{read_both};
ghost use Rattle.files.specs.Cause.{answer_of};
ghost use Rattle.policy.specs.Policy.{Policy};
ghost use Rattle.role_record.specs.Cells.{most_operations, grid_cells};
ghost use Rattle.rule_reading.specs.BothFiles.{both_of, GridShown, GridLent};
ghost use Rattle.rule_reading.specs.Turns.{Tabled, read_beside};

use files::Refusal;
use role_record::{Links, RoleFile};
use rule_reading::{BothFiles, Turn};

// One pass over what stands behind the first command of a rule file, beside a role file's record and links: each line is summed up where it
// stands, and what a rule grants is worked out when it is closed. Two grids for the operations declared are lent, whatever they hold: that of
// the parts that the open rule lists, and that of what the rules grant together.
fn read_rules(
    f: RoleFile,
    links: &Links,
    rules: &[u8],
    listed: &mut [u64],
    grid: &mut [u64],
) -> Result<BothFiles, Refusal>
    requires { ((F : Policy) × Tabled F f links.now)
        × (length listed.old ≡ grid_cells f.operations)
        × (length grid.old ≡ grid_cells f.operations) }
    ensures { (F : Policy)
        → Tabled F f links.now
        → (answer_of result ≡ map_answer both_of (read_beside F rules.now))
        × GridShown (read_beside F rules.now) grid.new }
{
    let mut k = rule_steps::begun();
    let mut met = [0u64; RoleFile::PLACES];
    role_record::clear(listed);
    role_record::clear(grid);
    let mut seen = [0u64; RoleFile::ROLES];
    let mut again = [0u64; RoleFile::ROLES];
    let mut at: usize = 0;
    loop {
        match rule_reading::next_turn(k, &rules[at..], &f)? {
            Turn::Opens(w) => {
                at = at + w;
                k = rule_steps::finish(k, &met, listed, &f, links, grid);
                k = rule_steps::opened(k);
                met = [0u64; RoleFile::PLACES];
                role_record::clear(listed);
            }
            Turn::Ends => {
                k = rule_steps::finish(k, &met, listed, &f, links, grid);
                return Ok(BothFiles {
                    file: f,
                    rules: k.rules,
                    stray: k.stray,
                    seen: seen,
                    again: again,
                });
            }
            Turn::Line(c, line, w) => {
                at = at + w;
                k = rule_notes::note(k, c, line);
                rule_notes::meet_line(c, &f, &mut met);
                rule_steps::join_part(c, &f, listed);
                rule_steps::list_part(c, &mut seen, &mut again);
            }
        }
    }
}

// Two tables are lent, whatever they hold. Of the second the words of the operations declared come to be the grid of what the rules grant
// together; the first has the parts that a rule lists, while it is read.
pub fn read_into(
    file: &[u8],
    rules: &[u8],
    listed: &mut [u64],
    grid: &mut [u64],
) -> Result<BothFiles, Refusal>
    requires { (grid_cells most_operations ≤ length listed.old) × (grid_cells most_operations ≤ length grid.old) }
    ensures { (answer_of result ≡ map_answer both_of (read_both 2 file.now rules.now))
        × GridLent (read_both 2 file.now rules.now) grid.new }
{
    let f = role_file::read(file)?;
    rule_opening::opening(rules, &f)?;
    let mut links = [0u64; RoleFile::ATOMS * RoleFile::USERS];
    grant_tables::links_of_values(
        &f.known,
        &f.values,
        &f.kinds,
        &f.domains,
        &f.holders,
        f.users,
        f.resources,
        f.roles,
        &mut links,
    );
    let words = RoleFile::USERS * f.operations;
    read_rules(
        f,
        &links,
        &rules[rule_opening::BYTES..],
        &mut listed[0..words],
        &mut grid[0..words],
    )
}

// Where nobody asks what the rules grant.
pub fn read(file: &[u8], rules: &[u8]) -> Result<BothFiles, Refusal>
    ensures { answer_of result ≡ map_answer both_of (read_both 2 file.now rules.now) }
{
    let mut listed = [0u64; RoleFile::USERS * RoleFile::OPERATIONS];
    let mut grid = [0u64; RoleFile::USERS * RoleFile::OPERATIONS];
    read_into(file, rules, &mut listed, &mut grid)
}
