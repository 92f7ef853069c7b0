//! Messages that several logs have, each kept once.

ghost use Rattle.std.specs.Prelude.{◌≡◌, [], IfOk, IfSome};

use rubis_message::Message;
use rubis_schema::{Items, Shared};
use std::alloc::{AllocError, Global};
use std::marker::Model;
use std::ops::Deref;

/// The messages of some logs, each kept once for all of them: of each site those that came in the order of their numbers, from 1.
/// Another one is kept again for each log that has it. Contracts see the messages of each site.
#[derive(Drop)]
pub struct MessagePool {
    // Of each site, in site order.
    sites: Vec<Vec<Shared<Message>>>,
    alloc: Global,
}

impl Model for MessagePool {
    ghost use Rattle.std.specs.Prelude.{List, map};
    ghost use Rattle.rubis_message.specs.Message.{Message};

    ghost Value = { List (List Message) };

    ghost view = { λ p. map (λ messages. messages.items) p.sites.items };
}

impl MessagePool {
    /// No messages. It takes no memory yet.
    pub fn new(alloc: Global) -> MessagePool
        ensures { result ≡ [] }
    {
        MessagePool {
            sites: Vec::new(alloc),
            alloc,
        }
    }

    // The same message, if it is there.
    fn found(&self, message: &Message) -> Option<&Shared<Message>>
        ensures { IfSome result (λ shared. shared.now ≡ message.now) }
    {
        let id = message.id();
        let place = (id.seq as usize).checked_sub(1)?;
        let shared = self.sites.get(usize::from(id.site))?.get(place)?;
        let kept = shared.deref();
        if kept == message { Some(shared) } else { None }
    }

    // Has the message found from now on, if it is the next one of its site.
    fn note(&mut self, shared: &Shared<Message>) -> Result<(), AllocError> {
        let id = shared.id();
        let site = usize::from(id.site);
        for _ in self.sites.len()..site + 1 {
            self.sites.push(Vec::new(self.alloc))?;
        }
        if let Some(messages) = self.sites.get_mut(site)
            && id.seq as usize == messages.len() + 1
        {
            messages.push(shared.clone()?)?;
        }
        Ok(())
    }

    // Keeps a message that isn't there.
    #[inline(always)]
    fn keep(&mut self, message: Message) -> Result<Shared<Message>, AllocError>
        ensures { IfOk result (λ shared. shared ≡ message) }
    {
        let shared = Shared::new(self.alloc, message)?;
        self.note(&shared)?;
        Ok(shared)
    }

    /// The message, kept once.
    ///
    /// # Errors
    ///
    /// `AllocError` if memory runs out.
    pub fn share(&mut self, message: Message) -> Result<Shared<Message>, AllocError>
        ensures { IfOk result (λ shared. shared ≡ message) }
    {
        if let Some(shared) = self.found(&message) {
            return shared.clone();
        }
        self.keep(message)
    }

    // The message, kept once, and copied where it isn't there.
    fn share_copy(&mut self, message: &Message) -> Result<Shared<Message>, AllocError>
        ensures { IfOk result (λ shared. shared ≡ message.now) }
    {
        if let Some(shared) = self.found(message) {
            return shared.clone();
        }
        self.keep(message.copy()?)
    }

    /// The messages, in their order, each kept once, and copied where it isn't there.
    ///
    /// # Errors
    ///
    /// `AllocError` if memory runs out.
    pub fn share_all(&mut self, messages: &[Message]) -> Result<Items<Shared<Message>>, AllocError>
        ensures { IfOk result (λ all. all ≡ messages.now) }
    {
        let mut all = Items::new(self.alloc);
        for message in messages {
            all.push(self.share_copy(message)?)?;
        }
        Ok(all)
    }
}
