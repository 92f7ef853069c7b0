//! Packets, and what a list of them says of a site.

ghost use Rattle.std.specs.Prelude.{◌≡◌, IfOk};
ghost use Rattle.rubis_carrier.specs.Shops.{highest, last_turn, own, passed_turn, sender, taken_turn};
ghost use Rattle.rubis_carrier.specs.Events.{are_own, are_reached, has_packets, is_reached};
ghost use Rattle.rubis_steps.specs.Views.{number_in, passed_in, taken_seen};

use crate::faults::DeciderFault;
use rubis_carrier::ShopPacket;
use rubis_carrier::ShopPacket::{Message, Pass};
use std::alloc::Global;

pub fn sender(packet: ShopPacket) -> u64
    ensures { result ≡ sender packet }
{
    match packet {
        Message(site, _, _) | Pass(site, _, _, _) => site,
    }
}

// The number that it gives, if it is a message of that site.
fn number_of(packet: ShopPacket, of: u64) -> u64
    ensures { result ≡ number_in of packet }
{
    match packet {
        Message(site, number, _) if site == of => number,
        _ => 0,
    }
}

// The turn that it brings, if it is a pass to that site.
fn taken_by(packet: ShopPacket, of: u64) -> u64
    ensures { result ≡ taken_seen of packet }
{
    match packet {
        Pass(_, turn, to, _) if to == of => turn,
        _ => 0,
    }
}

// The turn that it passes on, if it is a pass of that site.
fn passed_by(packet: ShopPacket, of: u64) -> u64
    ensures { result ≡ passed_in of packet }
{
    match packet {
        Pass(site, turn, _, _) if site == of => turn,
        _ => 0,
    }
}

/// The greatest number that the site gave.
pub fn highest(kept: &[ShopPacket], site: u64) -> u64
    ensures { result ≡ highest site kept.now }
{
    let mut most: u64 = 0;
    for packet in kept {
        most = most.max(number_of(*packet, site));
    }
    most
}

/// The greatest turn that the site took.
pub fn taken(kept: &[ShopPacket], site: u64) -> u64
    ensures { result ≡ taken_turn site kept.now }
{
    let mut most: u64 = 0;
    for packet in kept {
        most = most.max(taken_by(*packet, site));
    }
    most
}

/// The greatest turn that the site passed on.
pub fn passed(kept: &[ShopPacket], site: u64) -> u64
    ensures { result ≡ passed_turn site kept.now }
{
    let mut most: u64 = 0;
    for packet in kept {
        most = most.max(passed_by(*packet, site));
    }
    most
}

/// The greatest turn that the site passed on or took.
pub fn last_turn(kept: &[ShopPacket], site: u64) -> u64
    ensures { result ≡ last_turn site kept.now }
{
    passed(kept, site).max(taken(kept, site))
}

// Whether it is of another site, or no further than that number and that turn.
fn is_reached(packet: ShopPacket, of: u64, upto: u64, last: u64) -> bool
    ensures { result ≡ is_reached of upto last packet }
{
    match packet {
        Message(site, number, _) => site != of || number <= upto,
        Pass(site, turn, _, _) => site != of || turn <= last,
    }
}

pub fn are_reached(kept: &[ShopPacket], site: u64, number: u64, turn: u64) -> bool
    ensures { result ≡ are_reached site number turn kept.now }
{
    kept.iter().all(|x| is_reached(*x, site, number, turn))
}

/// Whether each of the packets stands there.
pub fn has_packets(kept: &[ShopPacket], packets: &[ShopPacket]) -> bool
    ensures { result ≡ has_packets packets.now kept.now }
{
    packets.iter().all(|x| kept.contains(x))
}

/// Whether each packet of the stream is of that site, and stands there.
pub fn are_own(stream: &[ShopPacket], kept: &[ShopPacket], site: u64) -> bool
    ensures { result ≡ are_own site kept.now stream.now }
{
    stream
        .iter()
        .all(|x| sender(*x) == site && kept.contains(x))
}

/// What the site sent.
pub fn own(alloc: Global, kept: &[ShopPacket], site: u64) -> Result<Vec<ShopPacket>, DeciderFault>
    ensures { IfOk result (λ v. v.items ≡ own site kept.now) }
{
    let own = kept.iter().copied().filter(|x| sender(*x) == site);
    Ok(own.collect(alloc)?)
}
