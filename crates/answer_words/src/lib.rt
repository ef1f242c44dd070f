// Answers in words: 01's words for each refusal and each verdict, and those for the answer to a question.
#![tactic(auto)]

ghost use Rattle.std.specs.Prelude.{◌≡◌};
ghost use Rattle.answer_words.specs.AnswerWords.{bytes_of, cause_words, refusal_of, refusal_words, verdict_words, reply_text};
ghost use Rattle.files.specs.Cause.{cause};

use files::Refusal;

// The refusal that has this number, if one has it.
pub fn refusal_of(n: usize) -> Option<Refusal>
    ensures { result ≡ refusal_of n }
{
    match n {
        1 => Some(Refusal::TooLong),
        2 => Some(Refusal::CutOff),
        3 => Some(Refusal::UnknownCommand),
        4 => Some(Refusal::OutOfPlace),
        5 => Some(Refusal::Beyond),
        6 => Some(Refusal::WrongKind),
        7 => Some(Refusal::OwnSenior),
        8 => Some(Refusal::SmallScratch),
        9 => Some(Refusal::ShortOutput),
        10 => Some(Refusal::RulesCutOff),
        11 => Some(Refusal::RulesUnknown),
        12 => Some(Refusal::RulesOrder),
        13 => Some(Refusal::RulesOperand),
        14 => Some(Refusal::NoSuchRule),
        15 => Some(Refusal::ZeroSeed),
        16 => Some(Refusal::WrongShape),
        17 => Some(Refusal::WrongTable),
        18 => Some(Refusal::WrongLevel),
        19 => Some(Refusal::WrongWindow),
        20 => Some(Refusal::RaggedLog),
        21 => Some(Refusal::BadCuts),
        _ => None,
    }
}

// The meaning of a refusal.
pub fn words_of(refusal: Refusal) -> &'static [u8]
    ensures { result.now ≡ bytes_of (cause_words (cause refusal)) }
{
    match refusal {
        Refusal::TooLong => b"the role file is too long, above 65,535 bytes",
        Refusal::CutOff => b"the role file ends inside operands or before 0F",
        Refusal::UnknownCommand => b"the role file has an unknown command",
        Refusal::OutOfPlace => b"the role file has a byte after its end or a command out of place",
        Refusal::Beyond =>
            b"an operand of the role file, or a number handed in, is beyond its limit or declared size, or there is a seventh attribute",
        Refusal::WrongKind => b"the role file has a value of the wrong kind or a value given twice",
        Refusal::OwnSenior => b"a role is its own senior",
        Refusal::SmallScratch => b"scratch is below 2,048 words of 64 bits",
        Refusal::ShortOutput => b"output is shorter than the rule file",
        Refusal::RulesCutOff => b"the rule file is cut off",
        Refusal::RulesUnknown => b"the rule file has an unknown command",
        Refusal::RulesOrder =>
            b"the rule file has a byte after its end or a command out of order, missing or repeated",
        Refusal::RulesOperand =>
            b"the rule file has an operand beyond its size or of the wrong kind, an atom across domains, a zero operation set, or a part that the role file does not have",
        Refusal::NoSuchRule => b"the rule file has no rule of this number",
        Refusal::ZeroSeed => b"the seed is 0",
        Refusal::WrongShape =>
            b"the rule file was made for other sizes or numbers of attributes than the role file's",
        Refusal::WrongTable => b"the table has other than 1,024 words",
        Refusal::WrongLevel =>
            b"a rule of the rule file tells another level than the lowest that allows its conjuncts",
        Refusal::WrongWindow => b"the window has no records or more than 64",
        Refusal::RaggedLog => b"the length of the log is not divisible by three",
        Refusal::BadCuts =>
            b"the cuts do not ascend strictly, or one is not from 1 to the number of roles less one",
    }
}

// The meaning of a refusal's number, which may be any number.
pub fn refusal_words(n: usize) -> &'static [u8]
    ensures { result.now ≡ refusal_words n }
{
    match refusal_of(n) {
        Some(refusal) => words_of(refusal),
        None => b"no refusal has this number",
    }
}

// The meaning of a verdict's number. The values that come with the verdict stand in front.
pub fn verdict_words(n: usize) -> &'static [u8]
    ensures { result.now ≡ verdict_words n }
{
    match n {
        0 =>
            b"roles and rules grant the same, every rule what its parts do, and every part stands under one rule",
        1 => b" is granted by roles or rules only",
        2 => b" grants other than its parts",
        3 => b" stands under no rule or several",
        _ => b"no verdict has this number",
    }
}

// The answer to the rule question or the role question; the triple stands behind.
pub fn reply_words(rules: bool, granted: bool) -> &'static [u8]
    ensures { result.now ≡ bytes_of (reply_text rules granted) }
{
    match (rules, granted) {
        (true, true) => b"yes, some rule grants ",
        (true, false) => b"no, no rule grants ",
        (false, true) => b"yes, the roles grant ",
        (false, false) => b"no, the roles do not grant ",
    }
}
