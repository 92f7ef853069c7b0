//! The token that red messages are numbered with, and what one site sends another.

use crate::messages::Message;

/// The version of the records of tokens.
pub const TOKEN_VERSION: &[u8] = b"1";

/// The right to make red shadows, on its way: the number of its turn, the site that it is for, and how many red
/// numbers were issued.
#[derive(Clone, Copy)]
pub struct Token {
    pub turn: u32,
    pub to: u8,
    pub issued: u32,
}

/// What one site sends to others.
#[derive(Drop)]
pub enum Packet {
    Msg(Message),
    Token(Token),
}
