// The commands of a role file, taken from the front of its bytes.
#![tactic(auto)]

ghost use Rattle.std.specs.Prelude.{◌≡◌, ◌<◌};
ghost use Rattle.role_commands.specs.Decode.{width_of, command_by, decoded_of};

use files::{Refusal, role_byte};

#[derive(Clone, Copy)]
pub enum Command {
    Sizes {
        users: usize,
        resources: usize,
        operations: usize,
        roles: usize,
    },
    Declare {
        side: usize,
        kind: usize,
        domain: usize,
    },
    Give {
        set: bool,
        side: usize,
        attribute: usize,
        who: usize,
        value: u64,
    },
    Assign {
        role: usize,
        user: usize,
    },
    Permit {
        role: usize,
        resource: usize,
        operation: usize,
    },
    Line {
        junior: usize,
        senior: usize,
    },
    End,
}

// The bytes that the command of this byte takes; none where there is no such command.
pub fn width(b: usize) -> Option<usize>
    ensures { result ≡ width_of b }
{
    match b {
        role_byte::SIZES => Some(5),
        role_byte::DECLARE => Some(3),
        role_byte::GIVE_SINGLE => Some(6),
        role_byte::GIVE_SET => Some(12),
        role_byte::ASSIGN => Some(3),
        role_byte::PERMIT => Some(4),
        role_byte::LINE => Some(3),
        role_byte::DECLARE_IN_DOMAIN => Some(4),
        role_byte::END => Some(1),
        _ => None,
    }
}

// The command of this byte, with its operands from place 1 on.
pub fn operands(s: &[u8], b: usize) -> Command
    ensures { result ≡ command_by b s.now }
{
    match b {
        role_byte::SIZES => Command::Sizes {
            users: file_bytes::byte_at(s, 1),
            resources: file_bytes::byte_at(s, 2),
            operations: file_bytes::byte_at(s, 3),
            roles: file_bytes::byte_at(s, 4),
        },
        role_byte::DECLARE => Command::Declare {
            side: file_bytes::byte_at(s, 1),
            kind: file_bytes::byte_at(s, 2),
            domain: 0,
        },
        role_byte::GIVE_SINGLE => Command::Give {
            set: false,
            side: file_bytes::byte_at(s, 1),
            attribute: file_bytes::byte_at(s, 2),
            who: file_bytes::byte_at(s, 3),
            value: file_bytes::number::<2>(s, 4),
        },
        role_byte::GIVE_SET => Command::Give {
            set: true,
            side: file_bytes::byte_at(s, 1),
            attribute: file_bytes::byte_at(s, 2),
            who: file_bytes::byte_at(s, 3),
            value: file_bytes::number::<8>(s, 4),
        },
        role_byte::ASSIGN => Command::Assign {
            role: file_bytes::byte_at(s, 1),
            user: file_bytes::byte_at(s, 2),
        },
        role_byte::PERMIT => Command::Permit {
            role: file_bytes::byte_at(s, 1),
            resource: file_bytes::byte_at(s, 2),
            operation: file_bytes::byte_at(s, 3),
        },
        role_byte::LINE => Command::Line {
            junior: file_bytes::byte_at(s, 1),
            senior: file_bytes::byte_at(s, 2),
        },
        role_byte::DECLARE_IN_DOMAIN => Command::Declare {
            side: file_bytes::byte_at(s, 1),
            kind: file_bytes::byte_at(s, 2),
            domain: file_bytes::byte_at(s, 3),
        },
        _ => Command::End,
    }
}

// The command at the front of the bytes, and how many of them it takes; refused where it is unknown, or where there is less than a command.
pub fn decode(s: &[u8]) -> Result<(Command, usize), Refusal>
    ensures { result ≡ decoded_of s.now }
{
    if s.is_empty() {
        return Err(Refusal::CutOff);
    }
    let b = file_bytes::byte_at(s, 0);
    let Some(w) = width(b) else {
        return Err(Refusal::UnknownCommand);
    };
    if s.len() < w {
        return Err(Refusal::CutOff);
    }
    Ok((operands(s, b), w))
}
