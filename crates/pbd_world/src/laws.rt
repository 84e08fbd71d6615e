//! Laws of the definitions, each the contract of a function that does nothing.
ghost use Rattle.std.specs.Prelude.{◌≡◌, ◌<◌, ◌≤◌, ◌+◌, ◌*◌, ◌/◌, ◌^◌, ◌==◌, ℕ, ℤ, pos, min, List, [], Bool, false, IsTrue, length, count_by, Contains, AllPairs, Some};
ghost use Rattle.pbd_num.specs.declared.Vec3.{Vec3};
ghost use Rattle.pbd_num.specs.Vectors.{Within};
ghost use Rattle.pbd_world.specs.declared.command.Command.{Command};
ghost use Rattle.pbd_world.specs.declared.command.Refusal.{Refusal};
ghost use Rattle.pbd_world.specs.declared.command.Reply.TheVariants as replies;
ghost use Rattle.pbd_world.specs.declared.command.Verb.{Verb};
ghost use Rattle.pbd_world.specs.declared.command.Operands.{Operands};
ghost use Rattle.pbd_world.specs.Verbs.{row, verb_named, verb_coded, verb_and_operands, command_with};
ghost use Rattle.pbd_world.specs.declared.parts.Parts.{Parts};
ghost use Rattle.pbd_world.specs.declared.totals.Class.{Class};
ghost use Rattle.pbd_world.specs.Ledger.{Ledger, HaveRoom, SumFits, added, both_sums, sum_plus, total_of};
ghost use Rattle.pbd_world.specs.Valid.{is_valid, is_valid_link, are_valid_links, ValidLink, ValidLinks};
ghost use Rattle.pbd_world.specs.World.{World, opened, live_count, IsSound, AreOfOneScene, HaveWeight};
ghost use Rattle.pbd_world.specs.declared.parts.Link.{Link};
ghost use Rattle.pbd_world.specs.declared.parts.Particle.{Particle};
ghost use Rattle.pbd_world.specs.Colours.{IsGreedy, IsEarlier, colour, of_colour, order, live_at};
ghost use Rattle.pbd_world.specs.Contacts.{AreInContact, IsBefore, contacts_of, link_pairs, live_flags};
ghost use Rattle.pbd_world.specs.Momentum.{IsBalanced, momentum};
ghost use Rattle.pbd_world.specs.Meaning.{after, reply};
ghost use Rattle.pbd_world.specs.Session.{last_world};
ghost use Rattle.pbd_world.specs.Work.{step_work, command_work, session_work, finding_work, links_work, contacts_work, colours_used, blocks_in, tearable_count, found_in};

/// Each pair has the least colour in 0..=62 that no earlier live pair which shares a particle with it has, or 63.
pub fn colours_are_greedy()
    ensures { (pairs : List (ℕ × ℕ)) (live : List Bool) (i : ℕ)
        → IsGreedy pairs live (colour pairs live) i (colour pairs live i) }
{}

/// No other colours are greedy.
pub fn colours_are_determined()
    ensures { (pairs : List (ℕ × ℕ)) (live : List Bool) (f : ℕ → ℕ) (n : ℕ)
        → ((i : ℕ) → i < n → IsGreedy pairs live f i (f i))
        → (i : ℕ) → i < n → f i ≡ colour pairs live i }
{}

/// The order of a list of pairs holds each live number exactly once, and no other number.
pub fn orders_hold_each_live_pair_once()
    ensures live { (pairs : List (ℕ × ℕ)) (live : List Bool) (k : ℕ) → k < length pairs
        → IsTrue (live_at live k) → count_by (λ i. i == k) (order pairs live) ≡ 1 }
    ensures gone { (pairs : List (ℕ × ℕ)) (live : List Bool) (k : ℕ) → k < length pairs
        → live_at live k ≡ false → count_by (λ i. i == k) (order pairs live) ≡ 0 }
    ensures within { (pairs : List (ℕ × ℕ)) (live : List Bool) (k : ℕ) → length pairs ≤ k
        → count_by (λ i. i == k) (order pairs live) ≡ 0 }
{}

/// The order of a list of pairs goes up by colours, and within a colour by numbers.
pub fn orders_ascend()
    ensures { (pairs : List (ℕ × ℕ)) (live : List Bool) → AllPairs (IsEarlier pairs live) (order pairs live) }
{}

/// No link of a scene is ever serial, whatever was cut or torn: with at most 32 links at a particle, at most 62 others
/// share a particle with a link, so that one of the 63 colours of batches is free for it. The last piece of the order,
/// which holds the serial links, is empty.
pub fn links_are_never_serial()
    ensures coloured { (w : World) (i : ℕ) → IsSound w → i < length w.links
        → colour (link_pairs w.links) (live_flags w.links) i < 63 }
    ensures none_last { (w : World) → IsSound w
        → of_colour (live_flags w.links) (colour (link_pairs w.links) (live_flags w.links)) (length w.links) 63 ≡ [] }
    ensures ever { (parts : Parts) (commands : List Command) (i : ℕ) → IsTrue (is_valid parts)
        → let w = last_world (opened parts) commands in i < length w.links
        → colour (link_pairs w.links) (live_flags w.links) i < 63 }
{}

/// The contacts are exactly the pairs that touch each other, each once and in order.
pub fn contacts_are_the_touching_pairs()
    ensures only { (thickness : ℤ) (links : List Link) (ps : List Particle) (i j : ℕ)
        → Contains (contacts_of thickness links ps) (i, j) → AreInContact thickness links ps i j }
    ensures each { (thickness : ℤ) (links : List Link) (ps : List Particle) (i j : ℕ)
        → AreInContact thickness links ps i j → Contains (contacts_of thickness links ps) (i, j) }
    ensures in_order { (thickness : ℤ) (links : List Link) (ps : List Particle)
        → AllPairs IsBefore (contacts_of thickness links ps) }
{}

/// A refused command keeps the world.
pub fn refused_commands_change_nothing()
    ensures { (w : World) (command : Command) (refusal : Refusal)
        → reply w command ≡ replies.Refused refusal → after w command ≡ w }
{}

/// A verb is found by its word, and by its code.
pub fn verbs_are_told_apart()
    ensures word { (v : Verb) → verb_named (row v).word ≡ Some v }
    ensures code { (v : Verb) → verb_coded (row v).code ≡ Some v }
{}

/// A command is put together from its verb and its operands, and from no others.
pub fn commands_are_their_parts()
    ensures together { (c : Command) → command_with (verb_and_operands c).0 (verb_and_operands c).1 ≡ Some c }
    ensures apart { (v : Verb) (o : Operands) (c : Command) → command_with v o ≡ Some c → verb_and_operands c ≡ (v, o) }
{}

/// The world of a valid scene is sound before its first command.
pub fn opened_worlds_are_sound()
    ensures { (parts : Parts) → IsTrue (is_valid parts) → IsSound (opened parts) }
{}

/// A command leaves a sound world in balance: momentum is the opening momentum and the six totals together.
pub fn commands_keep_the_balance()
    ensures { (w : World) (command : Command) → IsSound w
        → IsBalanced (after w command).opening (after w command).totals (after w command).particles }
{}

/// Every world that commands lead to from a valid scene is sound, and of one scene with the opened one.
pub fn sessions_stay_sound()
    ensures sound { (parts : Parts) (commands : List Command) → IsTrue (is_valid parts)
        → IsSound (last_world (opened parts) commands) }
    ensures one_scene { (parts : Parts) (commands : List Command) → IsTrue (is_valid parts)
        → AreOfOneScene (opened parts) (last_world (opened parts) commands) }
{}

/// Undamped and with equal weights, momentum changes exactly by the gravity, pin and shape totals.
pub fn equal_weights_keep_momentum()
    ensures { (w : World) (weight : ℕ) → IsSound w → w.damping ≡ pos 0 → HaveWeight weight w.particles
        → momentum w.particles ≡ both_sums w.opening (both_sums w.totals.gravity (both_sums w.totals.pin w.totals.shape)) }
{}

/// Totals with room take a move, and grow by no more than it.
pub fn totals_with_room_take_moves()
    ensures fits { (t : Ledger) (class : Class) (v : Vec3) (b c : ℕ) → HaveRoom b t → Within c v
        → b + c < 2 ^ 127 → SumFits (sum_plus (total_of t class) v) }
    ensures left { (t : Ledger) (class : Class) (v : Vec3) (b c : ℕ) → HaveRoom b t → Within c v
        → HaveRoom (b + c) (added t class v) }
{}

/// A command leads from a sound world to a sound one of the same scene.
pub fn commands_keep_worlds_sound()
    ensures sound { (w : World) (command : Command) → IsSound w → IsSound (after w command) }
    ensures one_scene { (w : World) (command : Command) → IsSound w
        → AreOfOneScene w (after w command) }
{}

/// The tests of links and the records of facts say the same.
pub fn valid_links_are_facts()
    ensures link { (limit : ℤ) (n : ℕ) (l : Link) → IsTrue (is_valid_link limit n l) → ValidLink limit n l }
    ensures link_test { (limit : ℤ) (n : ℕ) (l : Link) → ValidLink limit n l → IsTrue (is_valid_link limit n l) }
    ensures links { (limit : ℤ) (n : ℕ) (links : List Link) → IsTrue (are_valid_links limit n links) → ValidLinks limit n links }
    ensures links_test { (limit : ℤ) (n : ℕ) (links : List Link) → ValidLinks limit n links
        → IsTrue (are_valid_links limit n links) }
{}

/// Steps, commands and sessions may cost no more at a greater width, and with more bonds side by side.
pub fn wider_steps_cost_no_more()
    ensures step { (width lanes wider more : ℕ) (w : World) (contacts : List (ℕ × ℕ)) → 0 < width → width ≤ wider
        → 0 < lanes → lanes ≤ more → step_work wider more w contacts ≤ step_work width lanes w contacts }
    ensures command { (width lanes wider more : ℕ) (w : World) (command : Command) → 0 < width → width ≤ wider
        → 0 < lanes → lanes ≤ more → command_work wider more w command ≤ command_work width lanes w command }
    ensures session { (width lanes wider more : ℕ) (w : World) (commands : List Command) → 0 < width → width ≤ wider
        → 0 < lanes → lanes ≤ more → session_work wider more w commands ≤ session_work width lanes w commands }
{}

/// With twice as many bonds side by side, the links of a pass may cost at most half as much, but for two accesses in each
/// colour that they have.
pub fn twice_the_lanes_halve_the_links()
    ensures { (lanes : ℕ) (w : World) → 0 < lanes → IsSound w
        → 2 * links_work (2 * lanes) w.links ≤ links_work lanes w.links + 4 * colours_used w.links }
{}

/// What a step may cost is at most a sum: four accesses for each block, and in each pass for each block, each whole piece of
/// links, each colour of links and each contact, of which it projects 262,144 at most; and one for each track, for each
/// particle where there is a thickness, and for each end of a live link that may tear.
pub fn steps_cost_a_sum()
    ensures { (width lanes : ℕ) (w : World) (contacts : List (ℕ × ℕ)) → 0 < lanes → IsSound w
        → step_work width lanes w contacts
        ≤ 4 * (blocks_in width w
        + w.passes * (live_count w.links / lanes + colours_used w.links + min (length contacts) 262144 + blocks_in width w))
        + length w.tracks + finding_work w + 2 * tearable_count w.links }
{}

/// Without a thickness nothing is paid for contacts: none are looked for, none are found, and none are projected.
pub fn without_thickness_contacts_are_free()
    ensures looked { (w : World) → w.thickness ≡ pos 0 → finding_work w ≡ 0 }
    ensures found { (w : World) → w.thickness ≡ pos 0 → found_in w ≡ [] }
    ensures projected { (lanes : ℕ) (w : World) → 0 < lanes → w.thickness ≡ pos 0 → contacts_work lanes (found_in w) ≡ 0 }
{}
