// The first command of a rule file: it says which shape the file was made for.
#![tactic(auto)]

ghost use Rattle.std.specs.Prelude.{[], ◌∷◌, ◌≡◌};
ghost use Rattle.file_bytes.specs.Numbers.{numbers_at};
ghost use Rattle.files.specs.RuleFile.{same_numbers};
ghost use Rattle.files.specs.Cause.{answer_of};
ghost use Rattle.role_record.specs.Record.{sizes_of};
ghost use Rattle.rule_opening.specs.Opening.{shape_in, opening_of};

use files::{Refusal, rule_byte};
use role_record::RoleFile;

// How many bytes the first command takes, where it is a 20.
pub const BYTES: usize = 7;

// Whether the six operands are the role file's.
fn same_shape(rules: &[u8], f: &RoleFile) -> bool
    ensures { result
        ≡ same_numbers (numbers_at (1 ∷ 1 ∷ 1 ∷ 1 ∷ 1 ∷ 1 ∷ []) rules.now 1)
        (shape_in (sizes_of f.now) f.now.attributes) }
{
    let users = file_bytes::byte_at(rules, 1) == f.users;
    let resources = file_bytes::byte_at(rules, 2) == f.resources;
    let operations = file_bytes::byte_at(rules, 3) == f.operations;
    let roles = file_bytes::byte_at(rules, 4) == f.roles;
    let of_users = file_bytes::byte_at(rules, 5) == f.attributes[0];
    let of_resources = file_bytes::byte_at(rules, 6) == f.attributes[1];
    users & (resources & (operations & (roles & (of_users & of_resources))))
}

// Refuses a file that does not open with a 20 whose operands are the role file's.
pub fn opening(rules: &[u8], f: &RoleFile) -> Result<(), Refusal>
    ensures { answer_of result ≡ opening_of (shape_in (sizes_of f.now) f.now.attributes) rules.now }
{
    let (line, _) = rule_commands::next(rules)?;
    if line.byte != rule_byte::SHAPE {
        return Err(Refusal::RulesOrder);
    }
    if !same_shape(rules, f) {
        return Err(Refusal::WrongShape);
    }
    Ok(())
}
