// Makes a role file that anyone can make again: load SEED USERS RESOURCES OPERATIONS ROLES writes it to roles.out in the working directory
// and prints its length; on a refusal prints its line, and roles.out stays as it is. Where the system does not write, a line on standard
// error says so and roles.out stays as it is too.
#![tactic(auto)]

use role_record::Sizes;

// The greatest seed: it has 32 bits.
const LAST_SEED: u32 = 4294967295;

fn usage(rt: &HostRuntime) {
    programs::complain(
        rt,
        b"usage: load SEED USERS RESOURCES OPERATIONS ROLES, which writes a role file to roles.out in the working directory; all are numbers from 0, SEED has 32 bits\n",
    );
}

// A size, at its place among the arguments.
fn size(rt: &HostRuntime, i: usize, wrong: &[u8]) -> Option<usize> {
    programs::number_named(rt, b"load", i, digits::MANY, wrong)
}

// The seed. One of more than 32 bits is not cut: it is none.
fn seed_named(rt: &HostRuntime) -> Option<u32> {
    let seed = programs::number_named(
        rt,
        b"load",
        1,
        LAST_SEED,
        b"SEED is no number of up to 4,096 digits\n",
    )?;
    if seed > LAST_SEED as usize {
        programs::complain_of(rt, b"load", 1, b"SEED is above 4,294,967,295\n");
        return None;
    }
    Some(seed as u32)
}

// The seed and the sizes.
fn arguments(rt: &HostRuntime) -> Option<(u32, Sizes)> {
    let seed = seed_named(rt)?;
    let users = size(rt, 2, b"USERS is no number of up to 4,096 digits\n")?;
    let resources = size(rt, 3, b"RESOURCES is no number of up to 4,096 digits\n")?;
    let operations = size(rt, 4, b"OPERATIONS is no number of up to 4,096 digits\n")?;
    let roles = size(rt, 5, b"ROLES is no number of up to 4,096 digits\n")?;
    let sizes = Sizes {
        users,
        resources,
        operations,
        roles,
    };
    Some((seed, sizes))
}

// Saves what was made, and prints its length.
fn finish(rt: &HostRuntime, bytes: &[u8]) {
    if programs::save(rt, b"load", b"roles.out", bytes) {
        programs::end_line(
            rt,
            b"load",
            programs::say_count(rt, b"length ", bytes.len()),
        );
    }
}

// Makes the file, and saves and prints what comes of it. No role file is longer than the memory.
fn make(rt: &HostRuntime, seed: u32, sizes: Sizes) {
    let mut out = programs::roles_buffer();
    match load_file::generate(seed, sizes, &mut out) {
        Ok(n) => finish(rt, &out[..n]),
        Err(refusal) => programs::refuse(rt, b"load", refusal),
    }
}

fn main(rt: HostRuntime) {
    if programs::argument_count(&rt) != 6 {
        usage(&rt);
        return;
    }
    match arguments(&rt) {
        Some((seed, sizes)) => make(&rt, seed, sizes),
        None => usage(&rt),
    }
}
