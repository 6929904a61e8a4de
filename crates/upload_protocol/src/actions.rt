ghost use Rattle.std.specs.Prelude.{◌≡◌, ℕ, Ok, Err, if◌then◌else◌};
ghost use Rattle.base.specs.Names.{is_name};
ghost use Rattle.base.specs.declared.refusal.Refusal.TheVariants.{Garbled};
ghost use Rattle.base.specs.Sets.{holds};
ghost use Rattle.upload_protocol.specs.Actions.{names, sends, arrives};

use base::{ActionSet, Labels, Name, Refusal};

/// The thermostat takes a reading.
pub const MEAS: u8 = 1;
/// It hands a message with number 0 to the radio.
pub const SEND0: u8 = 2;
/// It hands a message with number 1 to the radio.
pub const SEND1: u8 = 3;
/// A message with number 0 comes to the server.
pub const RECV0: u8 = 4;
/// A message with number 1 comes to the server.
pub const RECV1: u8 = 5;
/// The server adds the reading to its total.
pub const ADD: u8 = 6;
/// The server answers.
pub const REPLY: u8 = 7;
/// The answer comes to the thermostat.
pub const ACK: u8 = 8;
/// The message or its answer is lost, and the thermostat's timer says so.
pub const LOST: u8 = 9;

// The name that a text is.
fn name(text: &[u8]) -> Result<Name, Refusal>
    ensures { result ≡ (if is_name text.now then Ok text.now else Err Garbled) }
{
    Name::new(text).ok_or(Refusal::Garbled)
}

/// The names of the actions, which is never refused.
pub fn labels() -> Result<Labels, Refusal>
    ensures { result ≡ Ok names }
{
    Labels::from_names(&[
        name(b"meas")?,
        name(b"send0")?,
        name(b"send1")?,
        name(b"recv0")?,
        name(b"recv1")?,
        name(b"add")?,
        name(b"reply")?,
        name(b"ack")?,
        name(b"lost")?,
    ])
}

/// The actions that the thermostat and the radio do together.
pub fn on_air() -> ActionSet
    ensures { (a : ℕ) → holds result a ≡ sends a }
{
    ActionSet::from_action(SEND0)
        .with(SEND1)
        .with(ACK)
        .with(LOST)
}

/// The actions that the radio and the server do together.
pub fn on_arrival() -> ActionSet
    ensures { (a : ℕ) → holds result a ≡ arrives a }
{
    ActionSet::from_action(RECV0).with(RECV1).with(REPLY)
}
