//! Logs as an auditor is given them.

ghost use Rattle.std.specs.Prelude.{◌≡◌, ◌++◌, ◌∷◌, [], OnErr, OnOk, Some, option_map, true, unwrap_or};

use rubis_message::Message;
use rubis_schema::{Fields, Items, Shared};
use std::alloc::{AllocError, Global};
use std::marker::Model;

/// The log of a site: its messages in release order, which other logs may have too, and the rows of its tables as it claims them, if
/// it does.
pub struct Log {
    site: u8,
    messages: Items<Shared<Message>>,
    rows: Option<Items<Fields>>,
}

impl Drop for Log {
    // Proved here, once: a derived drop is proved anew in each crate that lets a log go.
    fn drop(self) {
        let Log {
            site: _,
            messages: _,
            rows: _,
        } = self;
    }
}

impl Model for Log {
    ghost use Rattle.rubis_model.specs.Verdict as model;

    ghost Value = { model.Log };

    ghost view = { λ l. record { site = l.site; messages = l.messages; rows = l.rows } };
}

impl Log {
    /// The log of that site with these messages, in release order, and with the rows that it claims, if it does.
    pub fn new(site: u8, messages: Items<Shared<Message>>, rows: Option<Items<Fields>>) -> Log
        ensures { result ≡ record { site = site; messages = messages; rows = rows } }
    {
        Log {
            site,
            messages,
            rows,
        }
    }

    /// Whose log it is.
    pub fn site(&self) -> u8
        ensures { result ≡ self.now.site }
    {
        self.site
    }

    /// The messages, in release order.
    pub fn messages(&self) -> &[Shared<Message>]
        ensures { result.now ≡ self.now.messages }
    {
        self.messages.as_slice()
    }

    /// The rows that are claimed, if any are.
    pub fn rows(&self) -> Option<&[Fields]>
        ensures { option_map (λ r. r.now) result ≡ self.now.rows }
    {
        match &self.rows {
            Some(rows) => Some(rows.as_slice()),
            None => None,
        }
    }

    /// Whether it has no message and claims no row.
    pub(crate) fn is_nothing(&self) -> bool
        ensures { result ≡ true → (self.now.messages ≡ []) × (unwrap_or self.now.rows [] ≡ []) }
    {
        let claims_none = match &self.rows {
            Some(rows) => rows.is_empty(),
            None => true,
        };
        self.messages.is_empty() && claims_none
    }

    /// Puts a message last. Without memory for it the log stays as it was.
    pub fn push(&mut self, message: Shared<Message>) -> Result<(), AllocError>
        ensures ok { OnOk result (self.new ≡ record self.old { messages = self.old.messages ++ message ∷ [] }) }
        ensures err { OnErr result (self.new ≡ self.old) }
    {
        if self.messages.push(message).is_err() {
            return Err(AllocError);
        }
        Ok(())
    }

    /// Claims one row more. Without memory for it the messages and the rows so far stay.
    pub fn claim(&mut self, alloc: Global, row: Fields) -> Result<(), AllocError>
        ensures ok { OnOk result (self.new ≡ record self.old { rows = Some (unwrap_or self.old.rows [] ++ row ∷ []) }) }
        ensures err { OnErr result (self.new ≡ self.old) }
    {
        if let Some(rows) = &mut self.rows {
            if rows.push(row).is_err() {
                return Err(AllocError);
            }
            return Ok(());
        }
        let mut rows = Items::new(alloc);
        if rows.push(row).is_err() {
            return Err(AllocError);
        }
        self.rows = Some(rows);
        Ok(())
    }
}
