//! The intake of a site, and its calls that take memory.

ghost use Rattle.std.specs.Prelude.{◌≡◌};

use crate::records::packet;
use crate::telling::{Host, Stop, tell_refused};
use rubis_message::Message;
use rubis_release::{Arrival, Intake, IntakeFault};
use rubis_schema::Nick;
use rubis_shadow::Shadow;

/// The intake of the second of two sites.
#[derive(Drop)]
struct IntakePeer {
    intake: Intake,
    ghost two: { intake.place.sites ≡ 2 },
}

impl IntakePeer {
    // Has a message arrive, and once more if it comes back.
    fn arrive(&mut self, rt: &impl Host, message: Message) -> Result<Arrival, Stop> {
        if message.stamp().deps.len() != 2 {
            return Err(Stop::GaveUp);
        }
        let waiting = self.intake.waiting();
        let back = match self.intake.arrive(message) {
            Ok(arrival) => return Ok(arrival),
            Err(IntakeFault::Memory(message)) => message,
            Err(IntakeFault::Refused(_)) => return Err(Stop::GaveUp),
        };
        tell_refused(rt, "Intake::arrive", self.intake.waiting() == waiting);
        self.intake.arrive(back).or(Err(Stop::GaveUp))
    }
}

/// Messages that arrive out of order.
pub fn intake(rt: &impl Host) -> Result<(), Stop> {
    let intake = Intake::new(rt.alloc(), 1, 2, 100)?;
    let mut peer = IntakePeer { intake };
    for place in 0..20 {
        let arrival = peer.arrive(rt, packet(rt.alloc(), place)?)?;
        let _ = println!(rt; "{arrival:?}");
    }
    Ok(())
}

// The site makes the message of a new user, again where memory is refused: its number.
fn make_user(rt: &impl Host, site: &mut Intake, nick: Nick) -> Result<u32, Stop> {
    for _ in 0..2 {
        let standing = site.standing();
        if standing.full || !standing.current {
            return Err(Stop::GaveUp);
        }
        let released = site.log().len();
        if let Ok(message) = site.generated(Shadow::User(nick)) {
            return Ok(message.id().seq);
        }
        tell_refused(rt, "Intake::generated", site.log().len() == released);
    }
    Err(Stop::GaveUp)
}

/// A site that makes messages.
pub fn own_messages(rt: &impl Host) -> Result<(), Stop> {
    let mut site = Intake::new(rt.alloc(), 0, 2, 100)?;
    for nick in [b"ann".as_slice(), b"bob", b"cat", b"dan", b"eve"] {
        let nick = Nick::read(nick).ok_or(Stop::GaveUp)?;
        let seq = make_user(rt, &mut site, nick)?;
        let _ = println!(rt; "message {seq}");
    }
    Ok(())
}
