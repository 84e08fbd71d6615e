//! What the pairs that touch are to a world.
ghost use Rattle.std.specs.Prelude.{◌≡◌, ℤ, List};
ghost use Rattle.pbd_world.specs.declared.parts.Link.{Link};
ghost use Rattle.pbd_world.specs.declared.parts.Particle.{Particle};
ghost use Rattle.pbd_world.specs.Contacts.{contacts_of, link_pairs, live_flags};
ghost use Rattle.pbd_colour.specs.Pairs.{Coloured};
ghost use Rattle.pbd_self.specs.Touching.{touching};

/// Where a colouring has the pairs of the links with their live flags, the pairs that touch are the contacts of the world.
pub fn touching_pairs_are_contacts()
    ensures { (thickness : ℤ) (links : List Link) (ps : List Particle) (c : Coloured) → c.pairs ≡ link_pairs links
        → c.live ≡ live_flags links → touching thickness c ps ≡ contacts_of thickness links ps }
{}
