// Judges a rule file beside its role file: judge ROLES RULES prints the verdict or the refusal, a line with its number and its
// meaning. Where the system does not read a file, a line on standard error says so and there is no answer.
#![tactic(auto)]

ghost use Rattle.std.specs.Prelude.{◌≡◌};
ghost use Rattle.answer_words.specs.AnswerWords.{bytes_of, finding_words};
ghost use Rattle.files.specs.Calls.{Verdict as Finding, verdict_number};
ghost use Rattle.rule_judge.specs.Judgement.{verdict_of};

use rule_judge::Verdict;
use std::io;

// The number of a verdict.
fn verdict_number(verdict: Verdict) -> usize
    ensures { (v : Finding) → verdict ≡ verdict_of v → result ≡ verdict_number v }
{
    match verdict {
        Verdict::Sound => 0,
        Verdict::Differ(_, _, _) => 1,
        Verdict::StrayRule(_) => 2,
        Verdict::StrayPart(_) => 3,
    }
}

// The meaning of a verdict. The values that come with it stand in front.
fn verdict_words(verdict: Verdict) -> &'static [u8]
    ensures { (v : Finding) → verdict ≡ verdict_of v → result.now ≡ bytes_of (finding_words v) }
{
    answer_words::verdict_words(verdict_number(verdict))
}

// Prints the number of a verdict about one number, a rule's or a part's, and this one.
fn say_stray(rt: &impl Print, n: usize, name: &[u8], which: usize) -> io::Result<()> {
    programs::say_count(rt, b"verdict ", n)?;
    programs::say_count(rt, name, which)
}

// Prints the number of a verdict and what it is about: a triple, a rule or a part.
fn say_finding(rt: &impl Print, verdict: Verdict) -> io::Result<()> {
    match verdict {
        Verdict::Sound => programs::say(rt, b"verdict 0: "),
        Verdict::Differ(user, resource, operation) => {
            programs::say(rt, b"verdict 1: ")?;
            programs::say_triple(rt, user, resource, operation)
        }
        Verdict::StrayRule(rule) => say_stray(rt, verdict_number(verdict), b": rule ", rule),
        Verdict::StrayPart(part) => say_stray(rt, verdict_number(verdict), b": part ", part),
    }
}

// Prints on which side a triple is that roles and rules differ at. A role file that was judged is not refused.
fn say_side(
    rt: &impl Print,
    file: &[u8],
    user: usize,
    resource: usize,
    operation: usize,
) -> io::Result<()> {
    match role_question::ask(file, user, resource, operation) {
        Ok(true) => programs::say(rt, b": the roles grant it, no rule does"),
        Ok(false) => programs::say(rt, b": a rule grants it, the roles do not"),
        Err(_) => Ok(()),
    }
}

// Prints a verdict.
fn say_verdict(rt: &impl Print, verdict: Verdict, file: &[u8]) -> io::Result<()> {
    say_finding(rt, verdict)?;
    programs::say(rt, verdict_words(verdict))?;
    if let Verdict::Differ(user, resource, operation) = verdict {
        say_side(rt, file, user, resource, operation)?;
    }
    Ok(())
}

// Judges, and prints the answer.
fn answer(rt: &HostRuntime, file: &[u8], rules: &[u8]) {
    match rule_judge::judge(file, rules) {
        Ok(verdict) => programs::end_line(rt, b"judge", say_verdict(rt, verdict, file)),
        Err(refusal) => programs::refuse(rt, b"judge", refusal),
    }
}

fn main(rt: HostRuntime) {
    let mut file = programs::roles_buffer();
    let mut rules = programs::rules_buffer();
    let both = programs::read_both(
        &rt,
        b"judge",
        b"usage: judge ROLES RULES\n",
        &mut file,
        &mut rules,
    );
    if let Some(both) = both {
        answer(&rt, &file[..both.roles], &rules[..both.rules]);
    }
}
