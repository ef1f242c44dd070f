// The level of a rule by the two 255s; specs/ have it read off the rule's lines.
#![tactic(auto)]

ghost use Rattle.std.specs.Prelude.{◌≡◌};
ghost use Rattle.rule_levels.specs.Levels.{level_for};

// The level of a rule that lists roles or not, and resources by their numbers or not.
pub fn level(roles: bool, numbers: bool) -> u64
    ensures { result ≡ level_for roles numbers }
{
    if roles {
        if numbers {
            return 3;
        }
        return 1;
    }
    if numbers {
        return 2;
    }
    0
}
