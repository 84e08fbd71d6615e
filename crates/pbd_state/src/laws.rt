//! What holds of all states, as the contracts of functions that do nothing.
ghost use Rattle.pbd_state.specs.Laws.{EqualWorldsAgree, EqualWorldsSumAlike, OneWordShows, RefusedIsNoState, SoundWorldsDiffer, TakenIsState, WrittenIsRead};

/// Reading what was written gives the world back.
pub fn what_was_written_is_read()
    ensures { WrittenIsRead }
{}

/// Bytes are taken exactly where they are the state of a sound world of the scene: that world.
pub fn states_alone_are_taken()
    ensures taken { TakenIsState }
    ensures refused { RefusedIsNoState }
{}

/// Two sound worlds of a scene never have the same bytes.
pub fn sound_worlds_differ()
    ensures { SoundWorldsDiffer }
{}

/// Equal worlds have equal digests.
pub fn equal_worlds_have_equal_digests()
    ensures { EqualWorldsAgree }
{}

/// Where the words of two sound worlds differ in exactly one, their checksums differ. Those of equal worlds are equal.
pub fn one_word_shows()
    ensures shows { OneWordShows }
    ensures equal { EqualWorldsSumAlike }
{}
