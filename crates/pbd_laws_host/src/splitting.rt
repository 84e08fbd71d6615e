//! The text of a host splits into its sessions in one way.
ghost use Rattle.std.specs.Prelude.{◌≡◌, ◌≤◌, ◌<◌, ℕ, List, All};
ghost use Rattle.pbd_world.specs.World.{World};
ghost use Rattle.pbd_host.specs.declared.request.Request.{Request};
ghost use Rattle.pbd_host.specs.Hosted.{hosted_text, own_text};
ghost use Rattle.pbd_host.specs.Tagged.{IsAmong};

/// What a host printed says what each of its sessions printed: where two runs of up to 16 sessions print the same bytes,
/// whatever they were asked and from whatever worlds, each session printed the same in both.
pub fn the_text_of_a_host_splits_in_one_way()
    ensures { (t n : ℕ) (ws vs : List World) (rs qs : List Request) → n ≤ 16 → t < n → All (IsAmong n) rs → All (IsAmong n) qs
        → hosted_text ws rs ≡ hosted_text vs qs → own_text t ws rs ≡ own_text t vs qs }
{}
