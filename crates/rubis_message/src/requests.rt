//! What a record asks of a site.

ghost use Rattle.std.specs.Prelude.{◌≡◌, ◌≢◌, None, Some, IfOk, IsErrOf};
ghost use Rattle.rubis_message.specs.Readings.{Takes, request_of, take_listing};
ghost use Rattle.rubis_message.specs.Grammar.{IsRequest, request_record};

use crate::faults::ReadFault;
use crate::readers::Reader;
use crate::words::Shown;
use rubis_schema::{CAT_MAX, Listing, Record};
use rubis_shadow::Ask;
use std::alloc::Global;

/// What a user asks of a site.
#[derive(Drop)]
pub enum Request {
    Ask(Ask),
    /// Hand the token on to a site, a number up to `PASS_MAX`.
    Pass(u8),
    List(Listing),
}

impl<'a, F: Record> Reader<'a, F> {
    /// A listing.
    #[tactic(auto, unfolding(crate::specs::Readings::take_listing))]
    pub fn listing(&mut self, sites: u8) -> Result<Listing, ReadFault>
        ensures { Takes (take_listing sites) self.old self.new result }
    {
        match self.shown()? {
            Shown::Users => Ok(Listing::Users),
            Shown::Items => Ok(Listing::Items(self.number(CAT_MAX)? as u16)),
            Shown::Bids => Ok(Listing::Bids(self.id(sites)?)),
            Shown::Purchases => Ok(Listing::Purchases(self.id(sites)?)),
            Shown::Comments => Ok(Listing::Comments(self.id(sites)?)),
            Shown::Categories => Ok(Listing::Categories),
            Shown::Log => Ok(Listing::Log),
            Shown::Misfits => Ok(Listing::Misfits),
            Shown::Tables => Ok(Listing::Tables),
        }
    }

    /// All remaining fields, as a request to one of `sites` sites.
    #[tactic(auto, unfolding(crate::specs::Readings::request_of))]
    pub fn request_left(&mut self, alloc: Global, sites: u8) -> Result<Request, ReadFault>
        ensures limits { IfOk result (IsRequest sites) }
        ensures some { IfOk result (λ r. request_of sites self.old ≡ Some r) }
        ensures none { IsErrOf result ReadFault.BadRecord → request_of sites self.old ≡ None }
    {
        let request = self.request(alloc, sites)?;
        self.end()?;
        Ok(request)
    }
}

/// Reads a request to one of `sites` sites. `BadRecord` only if `fields` aren't those of any such request; `Memory` if
/// out of memory for a name or a text.
pub fn read_request<F: Record>(alloc: Global, fields: &F, sites: u8) -> Result<Request, ReadFault>
    ensures ok { IfOk result (λ r. IsRequest sites r × (F.fields fields.now ≡ request_record r)) }
    ensures bad { IsErrOf result ReadFault.BadRecord → (r : Request) → IsRequest sites r → F.fields fields.now ≢ request_record r }

    // In one word: it is the request that the fields are.
    ensures some { IfOk result (λ r. request_of sites (F.fields fields.now) ≡ Some r) }
    ensures none { IsErrOf result ReadFault.BadRecord → request_of sites (F.fields fields.now) ≡ None }
{
    Reader::new(fields).request_left(alloc, sites)
}
