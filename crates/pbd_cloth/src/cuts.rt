//! Many links that are let go in one call.
ghost use Rattle.std.specs.Prelude.{◌≡◌, if◌then◌else◌, map};
ghost use Rattle.pbd_world.specs.declared.command.Command.TheVariants as commands;
ghost use Rattle.pbd_world.specs.Session.{is_refused, refused_count};
ghost use Rattle.pbd_cloth.specs.Slots.{last_played};

use crate::Cloth;
use pbd_world::{Command, Reply};

// 1 where a command was refused.
fn refused(reply: &Reply) -> usize
    ensures { result ≡ (if is_refused reply.now then 1 else 0) }
{
    match reply {
        Reply::Refused(_) => 1,
        _ => 0,
    }
}

impl Cloth {
    /// Lets links go, one after another, each as the command `cut` does, and answers how many of these cuts were refused: they
    /// change nothing.
    pub fn cut_each(&mut self, links: &[u32]) -> usize
        ensures cloth { self.new ≡ last_played self.old (map commands.Cut links.now) }
        ensures count { result ≡ refused_count self.old.world (map commands.Cut links.now) }
    {
        let mut count = 0;
        for i in 0..links.len() {
            let reply = self.apply(&Command::Cut(u64::from(links[i])));
            count += refused(&reply);
        }
        count
    }
}
