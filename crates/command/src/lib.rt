// A command's parts, the steps of the refusals that look at no object, and the flush.
#![tactic(auto)]

ghost use Rattle.std.specs.Prelude.{◌≡◌, ◌≤◌, length};
ghost use Rattle.rules.specs.Command.{asks_flush, cmd, command_table, row, known_cmd, size_right};
ghost use Rattle.rules.specs.Command.{object_number, offset, asked_length, sent_data, step_byte, sent_metadata, sent_body, sent_number};
ghost use Rattle.rules.specs.Refusals.{unsound, ill_sized, unknown_cmd, unusable, unknown_param, wrong_length, wrong_content};
ghost use Rattle.rules.specs.Refusals.{early};
ghost use Rattle.rules.specs.Step.{flushed};
ghost use Rattle.command.specs.Table.{row_in, action_sizes, row_sizes};

use rules::{
    Action, Length, ObjectNumber, Offset, Refusal, Row, Session, Sizes, Verdict, refuse_if,
};

// The parts of a command, each by its word of the rules with its own type and least length: one function for all would have the word as a
// parameter.
// Each part asks for its own length; what an action asks for is `InFull`.

// The top bit of Cmd; an empty command has none.
#[tactic(auto, unfolding(rules::specs::Command::asks_flush))]
pub fn asks_flush(command: &[u8]) -> bool
    ensures { result ≡ asks_flush command.now }
{
    !command.is_empty() && 0x80 <= command[0]
}

// Cmd, the flush bit aside.
#[tactic(auto, unfolding(rules::specs::Command::cmd))]
fn cmd(command: &[u8]) -> u8
    requires { 1 ≤ length command.now }
    ensures { result ≡ cmd command.now }
{
    command[0] % 0x80
}

// The command table.
#[tactic(auto, unfolding(crate::specs::Table::row_in, rules::specs::Command::command_table, rules::specs::Command::table_line))]
fn row_of(cmd: u8, param: u8) -> Row
    ensures { result ≡ row_in command_table cmd param }
{
    match (cmd, param) {
        (0x01, 0x00) => Row::OnObject(Action::GetData),
        (0x01, 0x01) => Row::OnObject(Action::GetMetadata),
        (0x02, 0x00) => Row::OnObject(Action::Write),
        (0x02, 0x40) => Row::OnObject(Action::EraseAndWrite),
        (0x02, 0x01) => Row::OnObject(Action::SetMetadata),
        (0x02, 0x02) => Row::OnObject(Action::Count),
        (0x02, 0x04) => Row::OnObject(Action::Append),
        (0x02, 0x05) => Row::OnObject(Action::Acknowledge),
        (0x70, 0x00) => Row::OpenApplication,
        (0x71, 0x00) => Row::CloseApplication,
        _ => Row::Unknown,
    }
}

pub fn row_of_command(command: &[u8]) -> Row
    requires { 2 ≤ length command.now }
    ensures { result ≡ row command.now }
{
    row_of(cmd(command), command[1])
}

#[tactic(auto, unfolding(rules::specs::Command::object_number))]
pub fn object_number(command: &[u8]) -> ObjectNumber
    requires { 6 ≤ length command.now }
    ensures { result.0 ≡ object_number command.now }
{
    ObjectNumber(primitives::big_endian_at(command, 4))
}

#[tactic(auto, unfolding(rules::specs::Command::offset))]
pub fn offset(command: &[u8]) -> Offset
    requires { 8 ≤ length command.now }
    ensures { result.0 ≡ offset command.now }
{
    Offset(primitives::big_endian_at(command, 6) as usize)
}

#[tactic(auto, unfolding(rules::specs::Command::asked_length))]
pub fn asked_length(command: &[u8]) -> Length
    requires { 10 ≤ length command.now }
    ensures { result.0 ≡ asked_length command.now }
{
    Length(primitives::big_endian_at(command, 8) as usize)
}

#[tactic(auto, unfolding(rules::specs::Command::sent_data))]
pub fn sent_data(command: &[u8]) -> &[u8]
    requires { 8 ≤ length command.now }
    ensures { result.now ≡ sent_data command.now }
{
    &command[8..]
}

#[tactic(auto, unfolding(rules::specs::Command::step_byte))]
pub fn step_byte(command: &[u8]) -> u8
    requires { 9 ≤ length command.now }
    ensures { result ≡ step_byte command.now }
{
    command[8]
}

#[tactic(auto, unfolding(rules::specs::Command::sent_metadata))]
pub fn sent_metadata(command: &[u8]) -> &[u8]
    requires { 6 ≤ length command.now }
    ensures { result.now ≡ sent_metadata command.now }
{
    &command[6..]
}

#[tactic(auto, unfolding(rules::specs::Command::sent_body))]
pub fn sent_body(command: &[u8]) -> &[u8]
    requires { 6 ≤ length command.now }
    ensures { result.now ≡ sent_body command.now }
{
    &command[6..]
}

#[tactic(auto, unfolding(rules::specs::Command::sent_number))]
pub fn sent_number(command: &[u8]) -> u32
    requires { 10 ≤ length command.now }
    ensures { result ≡ sent_number command.now }
{
    primitives::big_endian_4_at(command, 6)
}

// The steps 2 to 8, one function each.

// Step 2.
#[tactic(auto, unfolding(rules::specs::Refusals::unsound))]
fn unsound(sound: bool, session: Session) -> bool
    ensures { result ≡ unsound sound session }
{
    !sound || !expression::is_state(session.lcsg) || !expression::is_state(session.lcsa)
}

// Step 3.
#[tactic(auto, unfolding(rules::specs::Refusals::ill_sized, rules::specs::Command::in_length, rules::specs::Command::in_data))]
fn ill_sized(command: &[u8]) -> bool
    ensures { result ≡ ill_sized command.now }
{
    let n = command.len();
    n < 4 || 1557 < n || primitives::big_endian_at(command, 2) as usize != n - 4
}

// Whether a line of the command table has this Cmd.
#[tactic(auto, unfolding(rules::specs::Command::known_cmd, rules::specs::Command::command_table, rules::specs::Command::table_line))]
fn known_cmd(n: u8) -> bool
    ensures { result ≡ known_cmd command_table n }
{
    matches!(n, 0x01 | 0x02 | 0x70 | 0x71)
}

// Step 4.
fn unknown_cmd(command: &[u8]) -> bool
    requires { 4 ≤ length command.now }
    ensures { result ≡ unknown_cmd command.now }
{
    !known_cmd(cmd(command))
}

// Step 5. LcsA stays a number: a session may hold any byte.
#[tactic(auto, unfolding(rules::specs::Refusals::unusable))]
fn unusable(command: &[u8], session: Session) -> bool
    requires { 4 ≤ length command.now }
    ensures { result ≡ unusable command.now session }
{
    session.lcsa == 0x0F || !session.opened && cmd(command) != 0x70
}

// Step 6.
#[tactic(auto, unfolding(rules::specs::Refusals::unknown_param, rules::specs::Command::is_unknown))]
fn unknown_param(command: &[u8]) -> bool
    requires { 4 ≤ length command.now }
    ensures { result ≡ unknown_param command.now }
{
    matches!(row_of_command(command), Row::Unknown)
}

// How many bytes InData may have: InLen is a number of two bytes.
fn action_sizes(asked: Action) -> Sizes
    ensures { result ≡ action_sizes asked }
{
    match asked {
        Action::GetData => Sizes { least: 6, most: 6 },
        Action::GetMetadata => Sizes { least: 2, most: 2 },
        Action::Write => Sizes {
            least: 5,
            most: 0xFFFF,
        },
        Action::EraseAndWrite => Sizes {
            least: 5,
            most: 0xFFFF,
        },
        Action::SetMetadata => Sizes {
            least: 4,
            most: 0xFFFF,
        },
        Action::Count => Sizes { least: 5, most: 5 },
        Action::Append => Sizes {
            least: 3,
            most: 202,
        },
        Action::Acknowledge => Sizes { least: 6, most: 6 },
    }
}

fn row_sizes(asked: Row) -> Sizes
    ensures { result ≡ row_sizes asked }
{
    match asked {
        Row::OnObject(action) => action_sizes(action),
        Row::OpenApplication => Sizes {
            least: 16,
            most: 16,
        },
        Row::CloseApplication => Sizes { least: 0, most: 0 },
        Row::Unknown => Sizes { least: 1, most: 0 },
    }
}

#[tactic(auto, unfolding(rules::specs::Command::size_right))]
fn size_right(sizes: Sizes, n: usize) -> bool
    ensures { result ≡ size_right sizes n }
{
    sizes.least <= n && n <= sizes.most
}

// Step 7.
fn wrong_length(command: &[u8]) -> bool
    requires { 4 ≤ length command.now }
    ensures { result ≡ wrong_length command.now }
{
    let sizes = row_sizes(row_of_command(command));
    !size_right(sizes, primitives::big_endian_at(command, 2) as usize)
}

// Step 8: only an open must send the identifier.
fn wrong_content(command: &[u8]) -> bool
    requires { 4 ≤ length command.now }
    ensures { result ≡ wrong_content command.now }
{
    match row_of_command(command) {
        Row::OpenApplication => &command[4..] != b"\xD2\x76\x00\x00\x04GenAuthAppl".as_slice(),
        _ => false,
    }
}

// The steps 2 to 8, in their order.
pub fn early(sound: bool, command: &[u8], session: Session) -> Verdict
    ensures { result ≡ early sound command.now session }
{
    refuse_if(unsound(sound, session), Refusal::InternalError)?;
    refuse_if(ill_sized(command), Refusal::InvalidLength)?;
    refuse_if(unknown_cmd(command), Refusal::InvalidCommand)?;
    refuse_if(unusable(command, session), Refusal::NotAvailable)?;
    refuse_if(unknown_param(command), Refusal::InvalidParam)?;
    refuse_if(wrong_length(command), Refusal::InvalidLength)?;
    refuse_if(wrong_content(command), Refusal::InvalidData)
}

// The flush.

// The last error becomes 0 where the command asks for it.
#[tactic(auto, unfolding(rules::specs::Step::flushed))]
pub fn flushed(command: &[u8], session: Session) -> Session
    ensures { result ≡ flushed command.now session }
{
    if asks_flush(command) {
        session::with_error(0, session)
    } else {
        session
    }
}
