//! What one site sends to others, read from its record.

ghost use Rattle.std.specs.Prelude.{◌≡◌, ◌≢◌, ◌<◌, ◌≤◌, ◌∷◌, [], None, Some, IfOk, IsErrOf, codes};
ghost use Rattle.rubis_message.specs.Readings.{Takes, take_site, agrees, packet_of, take_message, take_stamp, take_token};
ghost use Rattle.rubis_message.specs.Grammar.{IsPacket, packet_record};
ghost use Rattle.rubis_message.specs.Message.{stamp_of};

use crate::faults::ReadFault;
use crate::messages::Message;
use crate::readers::Reader;
use crate::stamps::read_deps;
use crate::tokens::{Packet, TOKEN_VERSION, Token};
use crate::words::says;
use rubis_clock::PackedDeps;
use rubis_schema::{COUNT_MAX, COUNTED_MAX, Record, SEQ_MAX, TURN_MAX};
use rubis_shadow::{Colour, Shadow};
use std::alloc::Global;

// Whether the red number agrees with the shadow's colour: it is 0 if and only if the shadow is blue.
fn agree(shadow: &Shadow, red: u32) -> bool
    ensures { result ≡ agrees shadow.now red }
{
    match shadow.colour() {
        Colour::Red => red > 0,
        Colour::Blue => red == 0,
    }
}

impl<'a, F: Record> Reader<'a, F> {
    /// The number of a site, below `sites`.
    #[tactic(auto, unfolding(crate::specs::Readings::take_site))]
    #[inline(always)]
    pub fn site(&mut self, sites: u8) -> Result<u8, ReadFault>
        ensures form { Takes (take_site sites) self.old self.new result }
        ensures below { IfOk result (λ n. n < sites) }
    {
        let site = self.number(u64::from(u8::MAX))?;
        if site >= u64::from(sites) {
            return Err(ReadFault::BadRecord);
        }
        Ok(site as u8)
    }

    /// A stamp: its site and its red number; its counts are put into `deps`, which has none.
    #[tactic(auto, unfolding(crate::specs::Readings::take_stamp))]
    #[inline(always)]
    fn stamp(&mut self, sites: u8, deps: &mut PackedDeps) -> Result<(u8, u32), ReadFault>
        requires few { sites ≤ COUNTED_MAX }
        requires none { deps.old ≡ [] }
        ensures ok { IfOk result (λ read. take_stamp sites self.old ≡ Some (stamp_of read.1 deps.new read.0, self.new)) }
        ensures bad { IsErrOf result ReadFault.BadRecord → take_stamp sites self.old ≡ None }
    {
        let site = self.site(sites)?;
        let seq = self.positive(u64::from(SEQ_MAX))?;
        let red = self.number(COUNT_MAX)?;
        read_deps(self.field()?, sites, deps).ok_or(ReadFault::BadRecord)?;
        if u64::from(deps.count(site)) + 1 != seq {
            return Err(ReadFault::BadRecord);
        }
        Ok((site, red as u32))
    }

    /// A message, in that version.
    #[tactic(auto, unfolding(crate::specs::Readings::take_message))]
    #[inline(always)]
    fn message(&mut self, alloc: Global, sites: u8, version: &[u8]) -> Result<Message, ReadFault>
        requires { sites ≤ COUNTED_MAX }
        ensures { Takes (take_message sites version.now) self.old self.new result }
    {
        let mut deps = PackedDeps::new();
        let (site, red) = self.stamp(sites, &mut deps)?;
        let shadow = self.shadow(alloc, sites)?;
        if !says(version, shadow.version()) {
            return Err(ReadFault::BadRecord);
        }
        if !agree(&shadow, red) {
            return Err(ReadFault::BadRecord);
        }
        Ok(Message::of(site, red, deps, shadow))
    }

    /// A token, in that version.
    #[tactic(auto, unfolding(crate::specs::Readings::take_token))]
    fn token(&mut self, sites: u8, version: &[u8]) -> Result<Token, ReadFault>
        ensures { Takes (take_token sites version.now) self.old self.new result }
    {
        if !says(version, TOKEN_VERSION) {
            return Err(ReadFault::BadRecord);
        }
        let turn = self.number(u64::from(TURN_MAX))?;
        let to = self.site(sites)?;
        let issued = self.number(COUNT_MAX)?;
        Ok(Token {
            turn: turn as u32,
            to,
            issued: issued as u32,
        })
    }

    /// A message that follows the word `msg`, and nothing after it.
    #[tactic(auto, unfolding(crate::specs::Readings::packet_of, crate::specs::Readings::take_packet))]
    #[inline(always)]
    pub fn message_left(&mut self, alloc: Global, sites: u8) -> Result<Message, ReadFault>
        requires { sites ≤ COUNTED_MAX }
        ensures some { IfOk result (λ m. packet_of sites (codes "msg" ∷ self.old) ≡ Some (Packet.Msg m)) }
        ensures none { IsErrOf result ReadFault.BadRecord → packet_of sites (codes "msg" ∷ self.old) ≡ None }
    {
        let version = self.field()?;
        let message = self.message(alloc, sites, version)?;
        self.end()?;
        Ok(message)
    }

    /// A token that follows the word `token`, and nothing after it.
    #[tactic(auto, unfolding(crate::specs::Readings::packet_of, crate::specs::Readings::take_packet))]
    pub fn token_left(&mut self, sites: u8) -> Result<Token, ReadFault>
        ensures some { IfOk result (λ t. packet_of sites (codes "token" ∷ self.old) ≡ Some (Packet.Token t)) }
        ensures none { IsErrOf result ReadFault.BadRecord → packet_of sites (codes "token" ∷ self.old) ≡ None }
    {
        let version = self.field()?;
        let token = self.token(sites, version)?;
        self.end()?;
        Ok(token)
    }
}

/// Reads a packet to one of `sites` sites. `BadRecord` only if `fields` aren't those of any such packet; `Memory` if
/// out of memory for a name or a text.
#[tactic(auto, unfolding(crate::specs::Readings::packet_of))]
#[inline(always)]
pub fn read_packet<F: Record>(alloc: Global, fields: &F, sites: u8) -> Result<Packet, ReadFault>
    requires { sites ≤ COUNTED_MAX }
    ensures ok { IfOk result (λ p. IsPacket sites p × (F.fields fields.now ≡ packet_record p)) }
    ensures bad { IsErrOf result ReadFault.BadRecord → (p : Packet) → IsPacket sites p → F.fields fields.now ≢ packet_record p }

    // In one word: it is the packet that the fields are.
    ensures some { IfOk result (λ p. packet_of sites (F.fields fields.now) ≡ Some p) }
    ensures none { IsErrOf result ReadFault.BadRecord → packet_of sites (F.fields fields.now) ≡ None }
{
    let mut reader = Reader::new(fields);
    let word = reader.field()?;
    if says(word, b"msg") {
        Ok(Packet::Msg(reader.message_left(alloc, sites)?))
    } else if says(word, b"token") {
        Ok(Packet::Token(reader.token_left(sites)?))
    } else {
        Err(ReadFault::BadRecord)
    }
}
