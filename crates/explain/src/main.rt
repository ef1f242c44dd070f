// Tells each rule of a rule file in words: explain ROLES RULES prints a paragraph for each rule, or the line of a refusal. Where the
// system does not read a file, a line on standard error says so and nothing is told.
#![tactic(auto)]

fn main(rt: HostRuntime) {
    let mut file = programs::roles_buffer();
    let mut rules = programs::rules_buffer();
    let both = programs::read_both(
        &rt,
        b"explain",
        b"usage: explain ROLES RULES\n",
        &mut file,
        &mut rules,
    );
    if let Some(both) = both {
        // no rule has a number beyond that of the bytes
        rule_words::tell_files(
            &rt,
            b"explain",
            &file[..both.roles],
            &rules[..both.rules],
            0,
            both.rules,
        );
    }
}
