// The bonds of a step in columns, in the order in which its passes project them.
ghost use Rattle.std.specs.Prelude.{◌≡◌, ◌≤◌, pos, length, IsTrue};
ghost use Rattle.pbd_world.specs.Valid.{is_between, is_limit, are_valid_links};
ghost use Rattle.pbd_pair.specs.Laid.{HaveRows};
ghost use Rattle.pbd_step.specs.States.{AreWeights, HasLinks, AreLinksLaid};
ghost use Rattle.pbd_step.specs.Staying.{AreContactsLaid};

use crate::state::State;
use pbd_colour::Colouring;
use pbd_pair::{BondColumns, Bonds};
use pbd_self::SelfContacts;

/// Lays the live links, unless they are laid.
pub(crate) fn lay_links<const L: usize>(
    state: &State<L>,
    colours: &Colouring,
    columns: &mut BondColumns,
    are_laid: &mut bool,
)
    requires lanes { L ≤ 16 }
    requires limit { IsTrue (is_limit state.now.store.limit) }
    requires valid { IsTrue (are_valid_links state.now.store.limit (length state.now.store.particles) state.now.links.items) }
    requires weights { AreWeights state.now }
    requires links { HasLinks (length state.now.store.particles) state.now.links.items colours.now }
    requires rows { HaveRows (length state.now.links.items) columns.old }
    requires before { IsTrue are_laid.old → AreLinksLaid state.now columns.old }
    ensures laid { AreLinksLaid state.now columns.new }
    ensures rows { HaveRows (length columns.old.first.items) columns.new }
{
    if *are_laid {
        return;
    }
    columns.lay(Bonds::Links(&state.links), colours.order(), &state.weights);
    *are_laid = true;
}

/// Lays the contacts that were found.
pub(crate) fn lay_contacts<const L: usize>(
    thickness: i64,
    state: &State<L>,
    found: &SelfContacts,
    columns: &mut BondColumns,
)
    requires lanes { L ≤ 16 }
    requires limit { IsTrue (is_limit state.now.store.limit) }
    requires thickness { IsTrue (is_between (pos 0) (pos 1048576) thickness) }
    requires weights { AreWeights state.now }
    requires found { found.now.particles ≡ length state.now.store.particles }
    requires rows { HaveRows 262144 columns.old }
    ensures laid { AreContactsLaid thickness state.now found.now.pairs columns.new }
    ensures rows { HaveRows (length columns.old.first.items) columns.new }
{
    columns.lay(
        Bonds::Contacts {
            pairs: found.pairs(),
            thickness,
        },
        found.colouring().order(),
        &state.weights,
    );
}
