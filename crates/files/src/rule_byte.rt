// The first bytes of a rule file's commands, by the names of specs/RuleFile, and the attribute that stands for a user's roles or for the
// resource itself.
pub const SHAPE: usize = 0x20;

pub const OPENS: usize = 0x21;

pub const USER_SINGLE: usize = 0x22;

pub const USER_SET: usize = 0x23;

pub const RESOURCE_SINGLE: usize = 0x24;

pub const RESOURCE_SET: usize = 0x25;

pub const OPERATIONS: usize = 0x26;

pub const LINK: usize = 0x27;

pub const PART: usize = 0x28;

pub const LEVEL: usize = 0x29;

pub const ENDS: usize = 0x2F;

pub const OWN: usize = 255;
