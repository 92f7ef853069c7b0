//! What a decision has to know of its site beside the tables.

/// What a decision has to know of its site beside the tables.
#[derive(Clone, Copy)]
pub struct Standing {
    /// Released and waiting messages are as many as the site keeps.
    pub full: bool,
    /// The site holds the token.
    pub holds: bool,
    /// The site has released all red shadows that were issued.
    pub current: bool,
}
