// The first bytes of a role file's commands, by the names of specs/RoleFile.
pub const SIZES: usize = 0x01;

pub const DECLARE: usize = 0x02;

pub const GIVE_SINGLE: usize = 0x03;

pub const GIVE_SET: usize = 0x04;

pub const ASSIGN: usize = 0x05;

pub const PERMIT: usize = 0x06;

pub const LINE: usize = 0x07;

pub const DECLARE_IN_DOMAIN: usize = 0x08;

pub const END: usize = 0x0F;
