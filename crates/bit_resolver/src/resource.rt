//! Records and answers.

ghost use Rattle.std.specs.Prelude.{◌≡◌, ◌++◌, ◌∷◌, [], OnOk, IfOk};

use crate::short_bytes::ShortBytes;
use domain_text::Name;
use nmc_base::NoMemory;
use std::alloc::Global;

/// A record of class IN (RFC 1035, 3.2.1).
#[derive(Drop)]
pub struct Resource {
    /// NAME in its wire form, in lower case.
    pub owner: ShortBytes,
    /// TYPE.
    pub kind: u16,
    /// RDATA, whose numbers have their high byte first and whose names are written out.
    pub rdata: ShortBytes,
}

/// A list of records.
pub type Resources = Vec<Resource>;

/// An answer.
#[derive(Drop)]
pub struct Sections {
    /// The records that answer the question: CNAME and DNAME before those of the name that they lead to.
    pub answer: Resources,
    /// The name servers of a referral, or the SOA of a negative answer.
    pub authority: Resources,
    /// RCODE (RFC 1035, 4.1.1).
    pub rcode: u8,
    /// AA: the answer has authority (RFC 1035, 4.1.1).
    pub aa: bool,
}

/// What one name is answered with: all, or the CNAME records and the name that is asked next.
#[derive(Drop)]
pub(crate) enum Asked {
    Done(Sections),
    Renamed(Resources, Name),
}

impl Resource {
    /// A record of this owner, with this RDATA.
    pub(crate) fn with(
        alloc: Global,
        owner: &[u8],
        kind: u16,
        rdata: ShortBytes,
    ) -> Result<Resource, NoMemory>
        ensures { IfOk result (λ r. r ≡ record { owner = owner.now; kind = kind; rdata = rdata }) }
    {
        let owner = ShortBytes::copy_of(alloc, owner)?;
        Ok(Resource { owner, kind, rdata })
    }

    /// A record of this owner and RDATA.
    pub(crate) fn new(
        alloc: Global,
        owner: &[u8],
        kind: u16,
        rdata: &[u8],
    ) -> Result<Resource, NoMemory>
        ensures { IfOk result (λ r. r ≡ record { owner = owner.now; kind = kind; rdata = rdata.now }) }
    {
        Resource::with(alloc, owner, kind, ShortBytes::copy_of(alloc, rdata)?)
    }
}

/// Adds a record.
pub(crate) fn add(into: &mut Resources, resource: Resource) -> Result<(), NoMemory>
    ensures { OnOk result (into.new.items ≡ into.old.items ++ resource ∷ []) }
{
    into.push(resource)?;
    Ok(())
}

/// Moves records behind others.
pub(crate) fn append(from: Resources, into: &mut Resources) -> Result<(), NoMemory>
    ensures { OnOk result (into.new.items ≡ into.old.items ++ from.items) }
{
    let mut from = from;
    into.append(&mut from)?;
    Ok(())
}

/// A list of one record.
pub(crate) fn alone(alloc: Global, resource: Resource) -> Result<Resources, NoMemory>
    ensures { IfOk result (λ v. v.items ≡ resource ∷ []) }
{
    let mut found = Resources::new(alloc);
    add(&mut found, resource)?;
    Ok(found)
}
