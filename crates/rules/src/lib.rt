// The types that every crate shares, and the tags of metadata. specs/ gives each case the number and the values of document 01.
#![tactic(auto)]

ghost use Rattle.std.specs.Prelude.{◌≡◌};
ghost use Rattle.rules.specs.Response.{code};
ghost use Rattle.rules.specs.Verdict.{accepted};
ghost use Rattle.rules.specs.Chain.{◌refused◌or◌};
ghost use Rattle.rules.specs.Kinds.{record_kind};

// What the element keeps between commands: application open or closed, LcsG, LcsA, last error. States are numbers: a host may hold any byte.
#[derive(Clone, Copy, Debug, PartialEq, Eq)]
pub struct Session {
    pub opened: bool,
    pub lcsg: u8,
    pub lcsa: u8,
    pub error: u8,
}

// The number of an object.
#[derive(Clone, Copy, Debug, PartialEq, Eq)]
pub struct ObjectNumber(pub u16);

// How far into an object's data.
#[derive(Clone, Copy, Debug, PartialEq, Eq)]
pub struct Offset(pub usize);

// A count of bytes.
#[derive(Clone, Copy, Debug, PartialEq, Eq)]
pub struct Length(pub usize);

// Why a command is refused.
#[derive(Clone, Copy, Debug, PartialEq, Eq)]
pub enum Refusal {
    InvalidObject,
    InvalidParam,
    InvalidLength,
    InvalidData,
    InternalError,
    AccessDenied,
    BoundaryExceeded,
    InvalidCommand,
    NotAvailable,
    InsufficientBuffer,
}

// What the steps 2 to 13 say of a command.
pub type Verdict = Result<(), Refusal>;

// One step of a verdict: refused where it applies.
pub fn refuse_if(applies: bool, refusal: Refusal) -> Verdict
    ensures { result ≡ (applies refused refusal or accepted) }
{
    if applies {
        return Err(refusal);
    }
    Ok(())
}

impl From<Refusal> for u8 {
    ghost from_gives = { λ refusal number. number ≡ code refusal };

    fn from(refusal: Refusal) -> u8 {
        match refusal {
            Refusal::InvalidObject => 0x01,
            Refusal::InvalidParam => 0x03,
            Refusal::InvalidLength => 0x04,
            Refusal::InvalidData => 0x05,
            Refusal::InternalError => 0x06,
            Refusal::AccessDenied => 0x07,
            Refusal::BoundaryExceeded => 0x08,
            Refusal::InvalidCommand => 0x0A,
            Refusal::NotAvailable => 0x0C,
            Refusal::InsufficientBuffer => 0x0D,
        }
    }
}

// Which way a counter counts to its threshold.
#[derive(Clone, Copy, Debug, PartialEq, Eq)]
pub enum Direction {
    Up,
    Down,
}

// The kind of an object: that of a record, or one of the session's.
#[derive(Clone, Copy, Debug, PartialEq, Eq)]
pub enum Kind {
    Data,
    Counter(Direction),
    Queue,
    LifeCycle,
    Status,
}

// A number that no kind of a record has.
#[derive(Clone, Copy, Debug, PartialEq, Eq)]
pub struct UnknownKind(pub u16);

impl TryFrom<u16> for Kind {
    type Error = UnknownKind;

    ghost try_from_gives = { λ number result. result ≡ record_kind number };

    fn try_from(number: u16) -> Result<Self, UnknownKind> {
        match number {
            0x0001 => Ok(Kind::Data),
            0x0002 => Ok(Kind::Counter(Direction::Up)),
            0x0003 => Ok(Kind::Queue),
            0x0004 => Ok(Kind::Counter(Direction::Down)),
            _ => Err(UnknownKind(number)),
        }
    }
}

// What a command does with the object that it names.
#[derive(Clone, Copy, Debug, PartialEq, Eq)]
pub enum Action {
    GetData,
    GetMetadata,
    Write,
    EraseAndWrite,
    SetMetadata,
    Count,
    Append,
    Acknowledge,
}

// The row of the command table that Cmd and Param name: `Unknown` is a row, with sizes and a ruling in the rules as each other.
#[derive(Clone, Copy, Debug, PartialEq, Eq)]
pub enum Row {
    OnObject(Action),
    OpenApplication,
    CloseApplication,
    Unknown,
}

// How many bytes InData may have.
#[derive(Clone, Copy, Debug, PartialEq, Eq)]
pub struct Sizes {
    pub least: usize,
    pub most: usize,
}

// The three slots of a record, for change, read and execute.
#[derive(Clone, Copy, Debug, PartialEq, Eq)]
pub enum Slot {
    Change,
    Read,
    Execute,
}

// The tags of metadata, numbers since `field_allowed` and `sent_fields` speak of any byte and of their order: those of the LcsO, the maximum, the bytes in use, and the expressions for change, read and execute.
pub const STATE_TAG: u8 = 0xC0;

pub const MAXIMUM_TAG: u8 = 0xC4;

pub const USED_TAG: u8 = 0xC5;

pub const CHANGE_TAG: u8 = 0xD0;

pub const READ_TAG: u8 = 0xD1;

pub const EXECUTE_TAG: u8 = 0xD3;
