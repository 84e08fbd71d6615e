//! Steps add up, however they are grouped into commands.
ghost use Rattle.std.specs.Prelude.{◌≡◌, ◌⊎◌, ◌+◌, ◌≤◌, ℕ, List, map, sum, Ok, Err};
ghost use Rattle.pbd_world.specs.declared.command.Refusal.{Refusal};
ghost use Rattle.pbd_world.specs.declared.command.Reply.TheVariants as replies;
ghost use Rattle.pbd_world.specs.Meaning.{steps_of};
ghost use Rattle.pbd_world.specs.Session.{refused_count};
ghost use Rattle.pbd_laws.specs.Prelude.{Command, Step, World, after, reply, last_world};

/// Step m and then step n is step m + n, where both are at least 1 and that is at most 100,000: a turn may be played as one command
/// or as two. Where one of the two is refused, and m + n steps more make no more than 1,000,000, the whole is refused with the same
/// step, phase and element, and its first part alone does as it does in the whole.
pub fn steps_add_up()
    ensures steps { (m n : ℕ) (w v : World) → steps_of m w ≡ Ok v → steps_of (m + n) w ≡ steps_of n v }
    ensures stops { (m n : ℕ) (w : World) (refusal : Refusal) → steps_of m w ≡ Err refusal → steps_of (m + n) w ≡ Err refusal }
    ensures answer { (w : World) (m n : ℕ) → 1 ≤ m → 1 ≤ n → m + n ≤ 100000 → reply w (Step m) ≡ replies.Done
        → reply w (Step (m + n)) ≡ reply (after w (Step m)) (Step n) }
    ensures world { (w : World) (m n : ℕ) → 1 ≤ m → 1 ≤ n → m + n ≤ 100000 → reply w (Step m) ≡ replies.Done
        → reply (after w (Step m)) (Step n) ≡ replies.Done → after w (Step (m + n)) ≡ after (after w (Step m)) (Step n) }
    ensures first_refused { (w : World) (m n : ℕ) (refusal : Refusal) → 1 ≤ m → m + n ≤ 100000 → w.steps + (m + n) ≤ 1000000
        → reply w (Step m) ≡ replies.Refused refusal → reply w (Step (m + n)) ≡ replies.Refused refusal }
    ensures whole_done { (w : World) (m n : ℕ) → 1 ≤ m → 1 ≤ n → reply w (Step (m + n)) ≡ replies.Done
        → (reply w (Step m) ≡ replies.Done) × (reply (after w (Step m)) (Step n) ≡ replies.Done) }
    ensures whole_refused { (w : World) (m n : ℕ) (refusal : Refusal) → 1 ≤ m → 1 ≤ n → m + n ≤ 100000
        → w.steps + (m + n) ≤ 1000000 → reply w (Step (m + n)) ≡ replies.Refused refusal
        → (reply w (Step m) ≡ replies.Refused refusal)
        ⊎ ((reply w (Step m) ≡ replies.Done) × (reply (after w (Step m)) (Step n) ≡ replies.Refused refusal)) }
    ensures grouped { (w : World) (ms ns : List ℕ) → sum ms ≡ sum ns
        → refused_count w (map (λ n. Step n) ms) ≡ 0 → refused_count w (map (λ n. Step n) ns) ≡ 0
        → last_world w (map (λ n. Step n) ms) ≡ last_world w (map (λ n. Step n) ns) }
{}
