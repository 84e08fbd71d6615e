//! Many cuts in one call.
ghost use Rattle.std.specs.Prelude.{◌≡◌, map};
ghost use Rattle.pbd_world.specs.declared.command.Command.TheVariants as commands;
ghost use Rattle.pbd_world.specs.Session.{refused_count};
ghost use Rattle.pbd_cloth.specs.Slots.{last_played};
ghost use Rattle.lakmozet_c.specs.Calls.{read_from, Acts};

use crate::handle::{Handle, looked_at};
use crate::numbers::CLOSED;
use std::alloc::Global;

/// Lets links go, one after another, each as `lak_cut` does, and writes how many of these cuts were refused.
#[unsafe(no_mangle)]
pub extern "C" fn lak_cut_many(
    alloc: Global,
    handle: &mut Handle,
    links: &[u32],
    refused: &mut usize,
) -> i32
    ensures cut { Acts (λ c. last_played c (map commands.Cut links.now)) (λ _. 0) handle.old.held handle.new.held result }
    ensures refused { refused.new ≡ read_from handle.old.held (λ c. refused_count c.world (map commands.Cut links.now)) refused.old }
{
    match handle.take(alloc) {
        Some(mut cloth) => {
            *refused = cloth.cut_each(links);
            handle.put(alloc, looked_at(cloth));
            0
        }
        None => CLOSED,
    }
}
