// What a projector goes through: links, or the pairs of contacts.
ghost use Rattle.std.specs.Prelude.{◌≡◌, ℕ, ◌<◌, length, Some};
ghost use Rattle.pbd_world.specs.Bonds.{link_bond, contact_bond};

use crate::laid::Laid;
use pbd_world::{Bond, Link};

/// Links, or contacts: pairs of particles that are to be at least `thickness` apart, in units of 1/65,536 metre. With the
/// columns of a batch of them, or without.
#[derive(Clone, Copy)]
pub enum Bonds<'a> {
    Links(&'a [Link]),
    Contacts {
        pairs: &'a [(u32, u32)],
        thickness: i64,
    },
    LaidLinks {
        links: &'a [Link],
        laid: Laid<'a>,
    },
    LaidContacts {
        pairs: &'a [(u32, u32)],
        thickness: i64,
        laid: Laid<'a>,
    },
}

// Link n as a bond.
#[inline(always)]
fn of_link(links: &[Link], n: u32) -> Bond
    requires { n < length links.now }
    ensures { result ≡ link_bond links.now n }
{
    let link = links[n as usize];
    Bond {
        a: link.a,
        b: link.b,
        rest: link.rest,
        k: i64::from(link.k),
        contact: false,
    }
}

// Contact n as a bond.
#[inline(always)]
fn of_contact(pairs: &[(u32, u32)], thickness: i64, n: u32) -> Bond
    requires { n < length pairs.now }
    ensures { result ≡ contact_bond thickness pairs.now n }
{
    let (a, b) = pairs[n as usize];
    Bond {
        a,
        b,
        rest: thickness,
        k: 256,
        contact: true,
    }
}

impl<'a> Bonds<'a> {
    ghost use Rattle.pbd_pair.specs.Bonds.{bond_of, bond_count};
    ghost use Rattle.pbd_pair.specs.Laid.{laid_in};

    /// Whether they are contacts.
    #[inline(always)]
    pub(crate) fn are_contacts(&self) -> bool
        ensures { (n : ℕ) → (bond_of self.now n).contact ≡ result }
    {
        match self {
            Bonds::Links(_) | Bonds::LaidLinks { .. } => false,
            Bonds::Contacts { .. } | Bonds::LaidContacts { .. } => true,
        }
    }

    /// Bond n.
    #[inline(always)]
    pub fn get(&self, n: u32) -> Bond
        requires { n < bond_count self.now }
        ensures { result ≡ bond_of self.now n }
    {
        match self {
            Bonds::Links(links) => of_link(links, n),
            Bonds::Contacts { pairs, thickness } => of_contact(pairs, *thickness, n),
            Bonds::LaidLinks { links, .. } => of_link(links, n),
            Bonds::LaidContacts {
                pairs,
                thickness,
                ..
            } => of_contact(pairs, *thickness, n),
        }
    }

    /// The same bonds, with these columns.
    pub fn with_columns(self, laid: Laid<'a>) -> Bonds<'a>
        ensures bonds { (n : ℕ) → bond_of result n ≡ bond_of self.entry n }
        ensures count { bond_count result ≡ bond_count self.entry }
        ensures laid { laid_in result ≡ Some laid.entry }
    {
        match self {
            Bonds::Links(links) | Bonds::LaidLinks { links, .. } => {
                Bonds::LaidLinks { links, laid }
            }
            Bonds::Contacts { pairs, thickness }
            | Bonds::LaidContacts {
                pairs,
                thickness,
                ..
            } => Bonds::LaidContacts {
                pairs,
                thickness,
                laid,
            },
        }
    }

    /// The columns of a batch of them, where there are some.
    #[inline(always)]
    pub(crate) fn columns(&self) -> Option<Laid<'a>>
        ensures { result ≡ laid_in self.now }
    {
        match self {
            Bonds::LaidLinks { laid, .. } | Bonds::LaidContacts { laid, .. } => Some(*laid),
            Bonds::Links(_) | Bonds::Contacts { .. } => None,
        }
    }
}
