// A role file made from a seed and four sizes, written into lent memory.
#![tactic(auto)]

ghost use Rattle.std.specs.Prelude.{length, take, ◌≡◌, ℕ, ◌≤◌};
ghost use Rattle.files.specs.Answer.{accepted};
ghost use Rattle.files.specs.Cause.{answer_of};
ghost use Rattle.files.specs.Load.{load_bytes, load_answer, load_output, Readable};

use files::Refusal;
use load_write::write;
use role_record::{RoleFile, Sizes};

// How long the file is: it is made over a single byte.
fn measure(seed: u32, sizes: Sizes) -> usize
    requires { (sizes.users ≤ 64) × (sizes.resources ≤ 64) × (sizes.operations ≤ 16) × (sizes.roles ≤ 32) }
    ensures { result ≡ length (load_bytes seed sizes.users sizes.resources sizes.operations sizes.roles) }
{
    let mut out = [0u8; 1];
    write(seed, sizes, &mut out)
}

// The answer, the output at the end, and that the reader accepts the file there, with the sizes asked for.
pub fn generate(seed: u32, sizes: Sizes, out: &mut [u8]) -> Result<usize, Refusal>
    ensures { (answer_of result
        ≡ load_answer 2 seed sizes.users sizes.resources sizes.operations sizes.roles
        (length out.old))
        × (out.new
        ≡ load_output 2 seed sizes.users sizes.resources sizes.operations sizes.roles out.old)
        × ((n : ℕ)
        → load_answer 2 seed sizes.users sizes.resources sizes.operations sizes.roles
        (length out.old)
        ≡ accepted n
        → Readable 2 sizes.users sizes.resources sizes.operations sizes.roles (take n out.new)) }
{
    if seed == 0 {
        return Err(Refusal::ZeroSeed);
    }
    role_admit::admit_sizes(sizes)?;
    let length = measure(seed, sizes);
    if RoleFile::BYTES < length {
        return Err(Refusal::TooLong);
    }
    if out.len() < length {
        return Err(Refusal::ShortOutput);
    }
    write(seed, sizes, out);
    Ok(length)
}
