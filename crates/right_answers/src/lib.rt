// What the calls of the standing summary refuse, from numbers alone.
#![tactic(auto)]

ghost use Rattle.std.specs.Prelude.{◌≡◌};
ghost use Rattle.files.specs.Answer.{code_of};
ghost use Rattle.files.specs.Cause.{answer_of};
ghost use Rattle.right_answers.specs.Codes.{fill_code, edit_code};

use files::Refusal;
use role_record::{RoleFile, Sizes};

// How many words a table of rights has.
pub const WORDS: usize = RoleFile::USERS * RoleFile::OPERATIONS;

// Whether a table of so many words may be filled from a record of these sizes: 17 for the words, then 5 for the sizes.
pub fn may_fill(sizes: Sizes, words: usize) -> Result<(), Refusal>
    ensures { code_of (answer_of result) ≡ fill_code sizes words }
{
    if words != WORDS {
        return Err(Refusal::WrongTable);
    }
    role_admit::admit_sizes(sizes)
}

// Whether a user may be assigned to a role, or the assignment taken away: the same, then 5 for numbers beyond sizes.
pub fn may_edit(sizes: Sizes, words: usize, role: usize, user: usize) -> Result<(), Refusal>
    ensures { code_of (answer_of result) ≡ edit_code sizes words role user }
{
    may_fill(sizes, words)?;
    role_admit::below(role, sizes.roles)?;
    role_admit::below(user, sizes.users)
}
