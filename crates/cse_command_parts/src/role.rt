//! What a file is to a command.

ghost use Rattle.std.specs.Prelude.{◌≡◌};
ghost use Rattle.cse_command_parts.specs.Roles.{reads, word_of, writes};

/// What a file is to a command.
#[derive(Clone, Copy)]
pub enum Role {
    Dictionary,
    Image,
    Logic,
    Messages,
    Order,
    Data,
    Out,
    Listing,
    Frequencies,
    Decks,
}

impl Role {
    /// The word that the usage has for it.
    pub fn word(self) -> &'static str
        ensures { result.now ≡ word_of self }
    {
        match self {
            Role::Dictionary => "DICT",
            Role::Image => "IMAGE",
            Role::Logic => "LOGIC",
            Role::Messages => "--messages",
            Role::Order => "--order",
            Role::Data => "DATA",
            Role::Out => "OUT",
            Role::Listing => "LIST",
            Role::Frequencies => "FREQ",
            Role::Decks => "--decks",
        }
    }
}

/// A file of a command: what it is to it, its path, and what is done with it.
#[derive(Clone, Copy)]
pub struct Use<'a> {
    pub role: Role,
    pub path: &'a str,
    pub is_read: bool,
    pub is_written: bool,
}

impl<'a> Use<'a> {
    /// A file that is read.
    pub fn read(role: Role, path: &'a str) -> Use<'a>
        ensures { result ≡ reads role path.entry }
    {
        Use {
            role,
            path,
            is_read: true,
            is_written: false,
        }
    }

    /// A file that is written.
    pub fn written(role: Role, path: &'a str) -> Use<'a>
        ensures { result ≡ writes role path.entry }
    {
        Use {
            role,
            path,
            is_read: false,
            is_written: true,
        }
    }
}
