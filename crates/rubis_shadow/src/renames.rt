//! What a rename frees and takes.

ghost use Rattle.std.specs.Prelude.{◌≡◌, IfOk};

use crate::shadows::AskedRename;
use rubis_schema::{Boxed, Id, Nick};
use std::alloc::{AllocError, Global};
use std::marker::Model;

// A user with two nicknames.
#[derive(Clone, Copy)]
struct Nicknames {
    user: Id,
    from: Nick,
    to: Nick,
}

/// A user's ask for another nickname, with room for the one that the user has. Contracts see what is asked.
#[derive(Drop)]
pub struct RenameAsk {
    // Both are the one that is asked for.
    nicknames: Boxed<Nicknames>,
}

impl Model for RenameAsk {
    ghost use Rattle.rubis_shadow.specs.declared.shadows.AskedRename.{AskedRename};

    ghost Value = { AskedRename };

    ghost view = { λ a. record { user = a.nicknames.user; nick = a.nicknames.to } };
}

impl RenameAsk {
    /// What is asked, in memory of its own.
    pub fn new(alloc: Global, asked: AskedRename) -> Result<RenameAsk, AllocError>
        ensures { IfOk result (λ ask. ask ≡ asked) }
    {
        let nicknames = Nicknames {
            user: asked.user,
            from: asked.nick,
            to: asked.nick,
        };
        Ok(RenameAsk {
            nicknames: Boxed::new(alloc, nicknames)?,
        })
    }

    /// The user who asks.
    #[inline(always)]
    pub fn user(&self) -> Id
        ensures { result ≡ self.now.user }
    {
        self.nicknames.user
    }

    /// The nickname that is asked for.
    #[inline(always)]
    pub fn nick(&self) -> Nick
        ensures { result ≡ self.now.nick }
    {
        self.nicknames.to
    }
}

/// Another nickname of a user, in place of the one that it has. It is in memory of its own, so that shadows stay small.
#[derive(Drop)]
pub struct NewRename {
    nicknames: Boxed<Nicknames>,
}

impl Model for NewRename {
    ghost use Rattle.rubis_shadow.specs.Renames as renames;

    ghost Value = { renames.NewRename };

    ghost view = { λ r. record { user = r.nicknames.user; from = r.nicknames.from; to = r.nicknames.to } };
}

impl NewRename {
    /// A user who has the nickname `from` and gets the nickname `to`.
    pub fn new(alloc: Global, user: Id, from: Nick, to: Nick) -> Result<NewRename, AllocError>
        ensures { IfOk result (λ rename. rename ≡ record { user = user; from = from; to = to }) }
    {
        Ok(NewRename {
            nicknames: Boxed::new(alloc, Nicknames { user, from, to })?,
        })
    }

    /// What a user asks for, where the user's nickname is `from`. It takes no memory.
    pub fn of(asked: RenameAsk, from: Nick) -> NewRename
        ensures { result ≡ record { user = asked.user; from = from; to = asked.nick } }
    {
        let RenameAsk { mut nicknames } = asked;
        nicknames.get_mut().from = from;
        NewRename { nicknames }
    }

    /// The user who is renamed.
    #[inline(always)]
    pub fn user(&self) -> Id
        ensures { result ≡ self.now.user }
    {
        self.nicknames.user
    }

    /// The nickname that the user has.
    #[inline(always)]
    pub fn from(&self) -> Nick
        ensures { result ≡ self.now.from }
    {
        self.nicknames.from
    }

    /// The nickname that the user gets.
    #[inline(always)]
    pub fn to(&self) -> Nick
        ensures { result ≡ self.now.to }
    {
        self.nicknames.to
    }
}

impl Clone for NewRename {
    ghost is_clone = { λ r copy. copy ≡ r };

    fn clone(&self) -> Result<NewRename, AllocError> {
        let nicknames = self.nicknames.clone()?;
        Ok(NewRename { nicknames })
    }
}

impl PartialEq for NewRename {
    ghost use Rattle.rubis_shadow.specs.Renames.{same_rename, same_rename_equiv};
    ghost use Rattle.std.specs.Cmp.{partial_equiv_from_equiv};

    ghost eq = { same_rename };

    ghost laws = { partial_equiv_from_equiv same_rename_equiv };

    fn eq(&self, other: &NewRename) -> bool {
        self.user() == other.user() && self.from() == other.from() && self.to() == other.to()
    }
}

impl Eq for NewRename {
    ghost use Rattle.rubis_shadow.specs.Renames.{same_rename_equiv};

    ghost laws = { same_rename_equiv };
}
