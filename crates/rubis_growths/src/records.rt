//! The records that the scenarios read.

ghost use Rattle.std.specs.Prelude.{◌≡◌, IfOk};
ghost use Rattle.rubis_message.specs.Message.{sites_of};

use rubis_message::{Message, ReadFault};
use rubis_tests::records::{ANN, BOB, CUP, Window, message};
use std::alloc::{AllocError, Global};

/// How many messages site 0 of two sends.
pub const MESSAGES: u32 = 200;

/// Two users, an item, a bid, a purchase of more than the stock, and a comment.
const SHOP: [&str; 6] = [
    ANN,
    BOB,
    CUP,
    "msg,1,0,4,3,3:0,bid,0.3,0.2,60",
    "msg,1,0,5,4,4:0,buy,0.3,0.2,5",
    "msg,1,0,6,0,5:0,comment,0.3,0.2,0.1,-4,late",
];

// What message `seq` of site 0 does, from 1 to 200: users, then items, bids, purchases, comments and closes.
fn shadow_text(alloc: Global, seq: u32) -> Result<String, AllocError> {
    let turn = seq % 40;
    let (bidder, item) = (turn + 1, seq.saturating_sub(1) % 40 + 41);
    let (seller, category, amount) = (seq.saturating_sub(40), seq % 10, seq.saturating_add(100));
    let (bought, from) = (seq.saturating_sub(120), seq.saturating_sub(180));
    let (closed, winner) = (seq.saturating_sub(150), seq.saturating_sub(70));
    match seq {
        ..=40 => format!(in alloc; "user,u{seq}"),
        41..=80 => format!(in alloc; "item,0.{seller},thing,{category},5,100,300"),
        81..=160 => format!(in alloc; "bid,0.{item},0.{bidder},{amount}"),
        161..=180 => format!(in alloc; "buy,0.{bought},0.40,2"),
        181..=190 => format!(in alloc; "comment,0.41,0.{from},0.40,5,good"),
        _ => format!(in alloc; "close,0.{closed},{category},0.{winner}"),
    }
}

// The red number of message `seq`: 0 for items and comments.
fn red_of(seq: u32) -> u32 {
    match seq {
        ..=40 => seq,
        41..=80 | 181..=190 => 0,
        81..=180 => seq.saturating_sub(40),
        _ => seq.saturating_sub(50),
    }
}

/// The record of message `seq` of site 0.
pub fn packet_text(alloc: Global, seq: u32) -> Result<String, AllocError> {
    let shadow = shadow_text(alloc, seq)?;
    let (red, before) = (red_of(seq), seq.saturating_sub(1));
    format!(in alloc; "msg,1,0,{seq},{red},{before}:0,{shadow}")
}

/// The number of the message that comes at that place, from 0: 2, 1, 4, 3 and so on.
pub fn seq_at(place: u32) -> u32 {
    if place % 2 == 0 {
        place.saturating_add(2)
    } else {
        place
    }
}

/// The message that comes at that place.
pub fn packet(alloc: Global, place: u32) -> Result<Message, ReadFault>
    ensures { IfOk result (λ message. sites_of message ≡ 2) }
{
    let text = packet_text(alloc, seq_at(place))?;
    message(alloc, &text, 2)
}

/// All messages in the order in which they come, and three listings, a line each.
pub fn all_records(alloc: Global) -> Result<String, AllocError> {
    let mut text = String::new(alloc);
    for place in 0..MESSAGES {
        text.push_str(&packet_text(alloc, seq_at(place))?)?;
        text.push_str("\n")?;
    }
    text.push_str("list,tables\nlist,log\nlist,misfits\n")?;
    Ok(text)
}

/// The messages from one place up to another.
pub fn window(alloc: Global, from: u32, to: u32) -> Result<Window, ReadFault> {
    let mut window = Window::new(alloc);
    for place in from..to {
        window.push(alloc, &packet_text(alloc, seq_at(place))?)?;
    }
    Ok(window)
}

/// The messages of a shop with one item.
pub fn shop(alloc: Global) -> Result<Window, ReadFault> {
    Window::of(alloc, &SHOP)
}
