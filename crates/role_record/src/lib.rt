// The loaded role file: one record by value that holds its tables; how a table is cleared, and whether two attributes have one domain.
#![tactic(auto)]

ghost use Rattle.std.specs.Prelude.{length, ◌≡◌, ◌<◌};
ghost use Rattle.role_record.specs.Record.{table_of, empty_record, sizes_of, in_sizes, same_domain};

// Its numbers stand one behind the other, as C has them: the record is handed over by value. Any numbers may stand there.
#[repr(C)]
#[derive(Clone, Copy)]
pub struct RoleFile {
    pub users: usize,
    pub resources: usize,
    pub operations: usize,
    pub roles: usize,
    // How many attributes there are, and which of them are sets.
    pub attributes: CountBySide,
    pub kinds: BySide,
    // The domain of the attribute.
    pub domains: ByAttribute,
    // Who knows the attribute, and the values of those who do.
    pub known: ByAttribute,
    pub values: Values,
    // The users assigned, and the roles that are its seniors by a line 07.
    pub assigned: ByRole,
    pub lines: ByRole,
    // The resources.
    pub permissions: ByRoleOperation,
    // Worked out: all its seniors, and its holders.
    pub seniors: ByRole,
    pub holders: ByRole,
}

// How many there are of each: handed on by value.
#[derive(Clone, Copy)]
pub struct Sizes {
    pub users: usize,
    pub resources: usize,
    pub operations: usize,
    pub roles: usize,
}

impl Sizes {
    // Whether there are the user, the resource and the operation.
    pub fn has(self, user: usize, resource: usize, operation: usize) -> bool
        ensures { result ≡ in_sizes self user resource operation }
    {
        user < self.users && resource < self.resources && operation < self.operations
    }
}

// Tables, each named by what its words belong to. Sides are 0 for users and 1 for resources; of two or more things the last goes
// fastest, but that operations go slowest: role k and operation o have word ROLES * o + k.
pub type CountBySide = [usize; RoleFile::SIDES];

pub type BySide = [u64; RoleFile::SIDES];

pub type ByRole = [u64; RoleFile::ROLES];

pub type ByRoleOperation = [u64; RoleFile::PARTS];

// An attribute's number is ATTRIBUTES * side + attribute.
pub type ByAttribute = [u64; RoleFile::SIDES * RoleFile::ATTRIBUTES];

// By attribute of one side.
pub type OfSide = [u64; RoleFile::ATTRIBUTES];

// A user or a resource.
pub type ByMember = [u64; RoleFile::MEMBERS];

// By attribute and member.
pub type Values = [u64; RoleFile::SIDES * RoleFile::ATTRIBUTES * RoleFile::MEMBERS];

// By user and operation: a set of resources. User u and operation o have word USERS * o + u.
pub type Grid = [u64; RoleFile::USERS * RoleFile::OPERATIONS];

// By atom and user: the resources that the atom joins with the user.
pub type Links = [u64; RoleFile::ATOMS * RoleFile::USERS];

// By place: a side's attributes, and behind them its 255.
pub type ByPlace = [u64; RoleFile::PLACES];

pub type ByPlaceMember = [u64; RoleFile::PLACES * RoleFile::MEMBERS];

impl RoleFile {
    pub const USERS: usize = 64;

    pub const RESOURCES: usize = 64;

    pub const OPERATIONS: usize = 16;

    pub const ROLES: usize = 32;

    pub const ATTRIBUTES: usize = 6;

    pub const SIDES: usize = 2;

    // Single and set.
    pub const KINDS: usize = 2;

    // A role file has at most so many bytes.
    pub const BYTES: usize = 65535;

    // As many as a side may have: users, or resources.
    pub const MEMBERS: usize = RoleFile::USERS;

    // A part is named by its role and its lowest operation.
    pub const PARTS: usize = RoleFile::ROLES * RoleFile::OPERATIONS;

    // An atom is named by a user attribute and a resource attribute.
    pub const ATOMS: usize = RoleFile::ATTRIBUTES * RoleFile::ATTRIBUTES;

    // Where a conjunct may stand on a side: at an attribute, or at its 255.
    pub const CONJUNCTS: usize = RoleFile::ATTRIBUTES + 1;

    pub const PLACES: usize = RoleFile::SIDES * RoleFile::CONJUNCTS;

    pub fn empty() -> RoleFile
        ensures { result ≡ empty_record }
    {
        RoleFile {
            users: 0,
            resources: 0,
            operations: 0,
            roles: 0,
            attributes: [0usize; RoleFile::SIDES],
            kinds: [0u64; RoleFile::SIDES],
            domains: [0u64; RoleFile::SIDES * RoleFile::ATTRIBUTES],
            known: [0u64; RoleFile::SIDES * RoleFile::ATTRIBUTES],
            values: [0u64; RoleFile::SIDES * RoleFile::ATTRIBUTES * RoleFile::MEMBERS],
            assigned: [0u64; RoleFile::ROLES],
            lines: [0u64; RoleFile::ROLES],
            permissions: [0u64; RoleFile::PARTS],
            seniors: [0u64; RoleFile::ROLES],
            holders: [0u64; RoleFile::ROLES],
        }
    }

    pub fn sizes(&self) -> Sizes
        ensures { result ≡ sizes_of self.now }
    {
        Sizes {
            users: self.users,
            resources: self.resources,
            operations: self.operations,
            roles: self.roles,
        }
    }
}

// Makes every word of a table 0, whatever it held. Into a slice, as tables of any length are cleared.
pub fn clear(out: &mut [u64])
    ensures { out.new ≡ table_of (length out.old) (λ i. 0) }
{
    for i in 0..out.len() {
        out[i] = 0;
    }
}

// Whether a user attribute and a resource attribute have one domain.
pub fn same_domain(domains: &ByAttribute, a: usize, b: usize) -> bool
    requires { (a < 6) × (b < 6) }
    ensures { result ≡ same_domain domains.now a b }
{
    domains[a] == domains[RoleFile::ATTRIBUTES + b]
}
